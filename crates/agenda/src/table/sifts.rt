// Moves of entries in a table, up or down, until it is a heap.
ghost use Rattle.std.specs.Prelude.{◌<◌};
ghost use Rattle.std.specs.List.Sorted.{IsPermutation};
ghost use Rattle.agenda.specs.Orders.{before, Heap, Up, Down};
ghost use Rattle.agenda.specs.Places.{Swaps};
ghost use Rattle.agenda.specs.Tables.{listed, Stays};

use super::Table;
use crate::cells::put;
use crate::entry::Slotted;

impl<'a, E: Slotted> Table<'a, E> {
    // Exchanges the entries at i and j.
    fn exchange(&mut self, i: usize, j: usize)
        requires { (i < self.old.len) × (j < self.old.len) }
        ensures shuffled { IsPermutation (listed self.old) (listed self.new) }
        ensures swaps { Swaps (listed self.old) (listed self.new) i j }
        ensures stays { Stays self.old self.new }
    {
        let a = self.entry(i);
        let b = self.entry(j);
        let cells = &mut *self.cells;
        put(cells, i, b);
        put(cells, j, a);
    }

    // Moves the entry at `at` up, until its parent does not come after it: from a place to its parent, and no range goes so.
    pub fn sift_up(&mut self, mut at: usize)
        requires { at < self.old.len }
        ensures shuffled { IsPermutation (listed self.old) (listed self.new) }
        ensures rises { Up (before E.cmp) (listed self.old) at → Heap (before E.cmp) (listed self.new) }
        ensures stays { Stays self.old self.new }
    {
        while 0 < at && self.ahead(at, (at - 1) / 2) {
            self.exchange((at - 1) / 2, at);
            at = (at - 1) / 2;
        }
    }

    // Moves the entry at `at` down, until no child comes before it: from a place to its child, and no range goes so.
    pub fn sift_down(&mut self, mut at: usize)
        ensures shuffled { IsPermutation (listed self.old) (listed self.new) }
        ensures sinks { Down (before E.cmp) (listed self.old) at → Heap (before E.cmp) (listed self.new) }
        ensures stays { Stays self.old self.new }
    {
        while at < self.len / 2 {
            let child = self.first_child(at);
            if !self.ahead(child, at) {
                return;
            }
            self.exchange(at, child);
            at = child;
        }
    }
}
