// What a load has read so far.
ghost use Rattle.std.specs.Prelude.{◌≡◌, ℕ, ◌<◌, ◌≤◌, true, map, length, slice_index};
ghost use Rattle.grammar.specs.Checks.{has_some, in_constituent, is_open};
ghost use Rattle.grammar.specs.Grammars.{no_production};
ghost use Rattle.grammar.specs.Held.{production_model};
ghost use Rattle.grammar.specs.Limits.{most_dimension};
ghost use Rattle.grammar.specs.Lists.{last_or};

use crate::limits::{MOST_CATEGORIES, MOST_PRODUCTIONS};
use crate::production::Production;
use crate::stage::Stage;
use arrayvec::ArrayVec;

mod calls;
mod opening;

// Each step is told where its command stands, since the stop that it answers carries that.
#[derive(Drop)]
pub(crate) struct Loader {
    // A step may be taken only at its stage, which its clause asks; a type for each stage would hand all other fields from one to the next.
    stage: Stage,
    kind: u8,
    dimensions: ArrayVec<u8, MOST_CATEGORIES>,
    start: u8,
    // The last of them is open at the stages Head and Body.
    productions: ArrayVec<Production, MOST_PRODUCTIONS>,
    // Where the command of the last one stands, 0 where there is none, as the definition has it.
    offset: usize,
    ghost low: { (c : ℕ) → slice_index dimensions.items c ≤ most_dimension },
    ghost some: { is_open stage ≡ true → 1 ≤ length productions.items },
    ghost body: { is_open stage ≡ true → has_some (last_or no_production (map production_model productions.items)).constituents ≡ in_constituent stage },
}
