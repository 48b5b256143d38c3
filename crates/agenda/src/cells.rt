// The cells of an agenda, and writes to them.
ghost use Rattle.std.specs.Prelude.{◌≡◌, ◌<◌, ◌≤◌, ◌++◌, length, drop, replicate};
ghost use Rattle.agenda.specs.Cells.{blank_cell, Put};

use crate::entry::Slotted;

// An entry of the heap, and beside it where the heap has the entry whose index is this cell's place.
#[derive(Clone, Copy)]
pub struct Cell<E> {
    pub(crate) entry: E,
    pub(crate) slot: usize,
}

impl<E: Copy> Cell<E> {
    // A blank cell.
    pub fn new(entry: E) -> Cell<E>
        ensures { result ≡ blank_cell entry }
    {
        Cell { entry, slot: 0 }
    }
}

// Makes the first n cells blank.
pub fn blank<E: Copy>(cells: &mut [Cell<E>], n: usize, fill: E)
    requires { n ≤ length cells.old }
    ensures { cells.new ≡ replicate n (blank_cell fill) ++ drop n cells.old }
{
    cells[..n].fill_with(|| Cell::new(fill));
}

// Puts e in the cell at i, and notes in the slot of its index that it lies there.
pub fn put<E: Slotted>(cells: &mut [Cell<E>], i: usize, e: E)
    requires { (i < length cells.old) × (E.index e < length cells.old) }
    ensures { Put E.index e i cells.old cells.new }
{
    cells[i].entry = e;
    let k = e.slot_index();
    cells[k].slot = i;
}
