// A loaded grammar. Only a load makes one, so every value of this type is well formed.
ghost use Rattle.std.specs.Prelude.{◌≡◌, true};
ghost use Rattle.grammar.specs.Held.{held_model};
ghost use Rattle.grammar.specs.Tested.{formed};

use crate::limits::{MOST_CATEGORIES, MOST_PRODUCTIONS};
use crate::production::Production;
use arrayvec::ArrayVec;

mod calls;

#[derive(Drop)]
pub struct Grammar {
    pub(crate) kind: u8,
    pub(crate) dimensions: ArrayVec<u8, MOST_CATEGORIES>,
    pub(crate) start: u8,
    pub(crate) productions: ArrayVec<Production, MOST_PRODUCTIONS>,
    ghost well_formed: { formed (held_model kind dimensions start productions) ≡ true },
}
