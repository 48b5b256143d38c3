// An agenda: entries in a total order, found by their index, in a slice that the caller lends.
#![tactic(auto)]

mod agenda;
mod cells;
mod entry;
mod table;

pub use agenda::Agenda;
pub use cells::{Cell, blank};
pub use entry::Slotted;
