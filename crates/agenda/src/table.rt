// Entries in a lent slice, each found by its index.
ghost use Rattle.std.specs.Prelude.{◌≤◌, length};
ghost use Rattle.agenda.specs.Places.{Placed};
ghost use Rattle.agenda.specs.Cells.{held, slots_of};

use crate::cells::Cell;
use crate::entry::Slotted;

// What an agenda is while entries move: the slot of each entry's index says where it lies, but a child may come before its parent.
// It is lent the agenda's cells for the time of a call. A field of the agenda it can't be: of a slice behind two structs the check tells the lender nothing when they end.
// Its cells are lent too, with the length beside them, for the same reason as the agenda's.
#[derive(Drop)]
pub struct Table<'a, E: Slotted> {
    cells: &'a mut [Cell<E>],
    len: usize,
    pub ghost within: { len ≤ length cells.now },
    pub ghost placed: { Placed E.index (held cells.now len) (slots_of cells.now) },
}

mod changes;
mod reads;
mod sifts;
