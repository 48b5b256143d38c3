// A table, and what it holds.
ghost use Rattle.std.specs.Prelude.{◌≡◌, ◌+◌, ◌*◌, ◌<◌, ◌≤◌, length, slice_index_or};
ghost use Rattle.agenda.specs.Orders.{before, FirstChild};
ghost use Rattle.agenda.specs.Places.{Placed};
ghost use Rattle.agenda.specs.Cells.{held, slots_of};
ghost use Rattle.agenda.specs.Tables.{listed};

use super::Table;
use crate::cells::Cell;
use crate::entry::Slotted;

impl<'a, E: Slotted> Table<'a, E> {
    // The table of the first `len` cells.
    pub fn new(cells: &'a mut [Cell<E>], len: usize) -> Table<'a, E>
        requires within { len ≤ length cells.old }
        requires placed { Placed E.index (held cells.old len) (slots_of cells.old) }
        ensures cells { result.cells.now ≡ cells.old }
        ensures named { result.cells.ghost_name ≡ cells.entry.ghost_name }
        ensures len { result.len ≡ len }
    {
        Table { cells, len }
    }

    // The entry at i.
    pub fn entry(&self, i: usize) -> E
        requires { i < self.now.len }
        ensures { (d : E) → result ≡ slice_index_or (listed self.now) i d }
    {
        self.cells[i].entry
    }

    // Whether the entry at i comes before that at j.
    pub fn ahead(&self, i: usize, j: usize) -> bool
        requires { (i < self.now.len) × (j < self.now.len) }
        ensures { (d : E) → before E.cmp (slice_index_or (listed self.now) i d) (slice_index_or (listed self.now) j d) ≡ result }
    {
        self.entry(i) < self.entry(j)
    }

    // The child of `at` that comes first.
    pub fn first_child(&self, at: usize) -> usize
        requires { at * 2 + 1 < self.now.len }
        ensures bound { (at * 2 + 1 ≤ result) × (result ≤ at * 2 + 2) × (result < self.now.len) }
        ensures first { FirstChild (before E.cmp) (listed self.now) at result }
    {
        let len = self.len;
        let left = at * 2 + 1;
        if left + 1 < len && self.ahead(left + 1, left) {
            left + 1
        } else {
            left
        }
    }
}
