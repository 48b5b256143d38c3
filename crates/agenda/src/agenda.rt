// An agenda in a lent slice.
ghost use Rattle.std.specs.Prelude.{◌≤◌, length};
ghost use Rattle.agenda.specs.Orders.{Heap, before};
ghost use Rattle.agenda.specs.Places.{Placed};
ghost use Rattle.agenda.specs.Cells.{held, slots_of};

use crate::cells::Cell;
use crate::entry::Slotted;

// The first `len` cells hold entries as a binary heap: no child comes before its parent, and the slot of each entry's index says where it lies. An index below the number of cells can be held.
// The cells are lent and not owned, since these crates have no heap.
#[derive(Drop)]
pub struct Agenda<'a, E: Slotted> {
    cells: &'a mut [Cell<E>],
    len: usize,
    pub ghost within: { len ≤ length cells.now },
    pub ghost heap: { Heap (before E.cmp) (held cells.now len) },
    pub ghost placed: { Placed E.index (held cells.now len) (slots_of cells.now) },
}

mod calls;
