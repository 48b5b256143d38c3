// The weights of a pack's categories by an estimate.
use agenda::Cell;
use estimate::{AcceptedGrammar, Entry, Estimate, WeighedGrammar, lightest};
use grammar::{MOST_CATEGORIES, load};
use std::fmt;
use weight::number::{Joining, Number};
use weight::weight::Weight;

// A weight for each category that a grammar may have: by its lightest tree, and by an estimate.
#[derive(Drop)]
pub(crate) struct Weights<J: Joining> {
    pub(crate) lightest: [Number<J>; MOST_CATEGORIES],
    pub(crate) estimate: [Number<J>; MOST_CATEGORIES],
}

// Why a pack has no weights.
#[derive(Clone, Copy, PartialEq, Eq, Debug)]
pub(crate) enum Refusal {
    NoGrammar,
    BelowLeast,
}

impl fmt::Display for Refusal {
    fn fmt<W: fmt::Write>(&self, f: &mut fmt::Formatter<W>) -> fmt::Result {
        f.write_str(match self {
            Refusal::NoGrammar => "no grammar",
            Refusal::BelowLeast => "a weight number below the least",
        })
    }
}

impl<J: Joining> Weights<J> {
    // None everywhere.
    fn new() -> Weights<J> {
        Weights {
            lightest: [Number::none(); MOST_CATEGORIES],
            estimate: [Number::none(); MOST_CATEGORIES],
        }
    }

    fn fill<E: Estimate<Number<J>>>(
        &mut self,
        accepted: AcceptedGrammar<'_, Number<J>>,
        estimate: &E,
    ) {
        let mut spare = [Number::none(); MOST_CATEGORIES];
        let mut cells = [Cell::new(Entry::blank()); MOST_CATEGORIES];
        lightest(&accepted, &mut self.lightest, &mut cells);
        let weighed = WeighedGrammar::new(accepted, &self.lightest);
        estimate.raise(&weighed, &mut self.estimate, &mut spare, &mut cells);
    }
}

// The lightest weights of a pack, and its weights by an estimate.
pub(crate) fn weigh<J: Joining, E: Estimate<Number<J>>>(
    pack: &[u8],
    estimate: &E,
) -> Result<Weights<J>, Refusal> {
    let grammar = load(pack).map_err(|_| Refusal::NoGrammar)?;
    let accepted = AcceptedGrammar::new(&grammar).ok_or(Refusal::BelowLeast)?;
    let mut weights = Weights::new();
    weights.fill(accepted, estimate);
    Ok(weights)
}
