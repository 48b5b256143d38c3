// A production as it is held.
use crate::limits::{MOST_ARITY, MOST_DIMENSION, MOST_SYMBOLS};
use crate::row::Row;
use crate::symbol::Symbol;

mod calls;

// The symbols of a constituent.
pub type Constituent = Row<Symbol, MOST_SYMBOLS>;

// What Default makes fills the unused places of a list.
#[derive(Clone, Copy, Default)]
pub struct Production {
    pub(crate) category: u8,
    pub(crate) weight: u16,
    pub(crate) arguments: Row<u8, MOST_ARITY>,
    pub(crate) constituents: Row<Constituent, MOST_DIMENSION>,
}
