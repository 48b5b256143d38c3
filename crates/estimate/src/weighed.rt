// A grammar with its lightest weights.
ghost use Rattle.std.specs.Prelude.{◌≡◌, ◌≤◌, length};
ghost use Rattle.grammar.specs.Model.{model};
ghost use Rattle.estimate.specs.Weighing.{categories, LightestRow};

use crate::accepted::AcceptedGrammar;
use weight::weight::Weight;

// A grammar with the lightest weight of each category.
#[derive(Drop)]
pub struct WeighedGrammar<'a, W: Weight> {
    pub accepted: AcceptedGrammar<'a, W>,
    pub low: &'a [W],
    pub ghost long: { categories (model accepted.grammar.now) ≤ length low.now },
    pub ghost lightest: { ∥ LightestRow W.Weight.algebra W.Weight.exact (model accepted.grammar.now) low.now ∥₁ },
}

impl<'a, W: Weight> WeighedGrammar<'a, W> {
    // The grammar with a row that has the lightest weights.
    pub fn new(accepted: AcceptedGrammar<'a, W>, low: &'a [W]) -> WeighedGrammar<'a, W>
        requires long { categories (model accepted.grammar.now) ≤ length low.now }
        requires lightest { LightestRow W.Weight.algebra W.Weight.exact (model accepted.grammar.now) low.now }
        ensures grammar { result.accepted.grammar.now ≡ accepted.entry.grammar.now }
        ensures low { result.low.now ≡ low.now }
    {
        WeighedGrammar { accepted, low }
    }
}
