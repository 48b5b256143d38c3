// Entries added to a heap, taken out of it, and put in the place of another.
ghost use Rattle.std.specs.Prelude.{◌≡◌, ◌+◌, ◌<◌, false, ◌∷◌, length, slice_index_or, slice_set};
ghost use Rattle.std.specs.List.Sorted.{IsPermutation};
ghost use Rattle.agenda.specs.Orders.{before, Heap, First};
ghost use Rattle.agenda.specs.Places.{Absent, Present};
ghost use Rattle.agenda.specs.Tables.{listed, Lies, Stays};

use super::Table;
use crate::cells::put;
use crate::entry::Slotted;

impl<'a, E: Slotted> Table<'a, E> {
    // Puts e in the place of the entry at p, which has the same index and does not come before e.
    pub fn lower(&mut self, p: usize, e: E)
        requires present { Present E.index (listed self.old) (E.index e) p }
        requires lower { (d : E) → before E.cmp (slice_index_or (listed self.old) p d) e ≡ false }
        ensures shuffled { IsPermutation (slice_set (listed self.old) p e) (listed self.new) }
        ensures heap { Heap (before E.cmp) (listed self.old) → Heap (before E.cmp) (listed self.new) }
        ensures stays { Stays self.old self.new }
    {
        put(self.cells, p, e);
        self.sift_up(p);
    }

    // Adds e, whose index no entry has.
    pub fn push(&mut self, e: E)
        requires within { E.index e < length self.old.cells.now }
        requires absent { Absent E.index (listed self.old) (E.index e) }
        ensures adds { IsPermutation (e ∷ listed self.old) (listed self.new) }
        ensures heap { Heap (before E.cmp) (listed self.old) → Heap (before E.cmp) (listed self.new) }
        ensures len { self.new.len ≡ self.old.len + 1 }
        ensures lies { Lies (e ∷ listed self.old) self.old self.new }
    {
        let len = self.len;
        put(self.cells, len, e);
        self.len = len + 1;
        self.sift_up(len);
    }

    // Takes the first entry out.
    pub fn pop(&mut self) -> E
        requires { 0 < self.old.len }
        ensures takes { IsPermutation (listed self.old) (result ∷ listed self.new) }
        ensures first { Heap (before E.cmp) (listed self.old) → First (before E.cmp) result (listed self.old) }
        ensures heap { Heap (before E.cmp) (listed self.old) → Heap (before E.cmp) (listed self.new) }
        ensures free { Absent E.index (listed self.new) (E.index result) }
        ensures len { self.new.len + 1 ≡ self.old.len }
        ensures lies { Lies (listed self.old) self.old self.new }
    {
        let top = self.entry(0);
        let len = self.len - 1;
        let last = self.entry(len);
        put(self.cells, 0, last);
        self.len = len;
        self.sift_down(0);
        top
    }
}
