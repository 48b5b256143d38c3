// A grammar that a kind of weight takes.
ghost use Rattle.std.specs.Prelude.{◌≡◌, ℕ, ◌<◌, ◌≤◌, ◌↔◌, length, IsTrue, MatchOption, slice_index_or};
ghost use Rattle.grammar.specs.declared.production.Production.{Production};
ghost use Rattle.grammar.specs.Held.{production_model};
ghost use Rattle.grammar.specs.Model.{model};
ghost use Rattle.estimate.specs.Weighing.{Accepted};

use grammar::Grammar;
use grammar::production::Production;
use std::marker::PhantomData;
use weight::weight::Weight;

// A grammar whose every weight number the kind takes.
#[derive(Drop)]
pub struct AcceptedGrammar<'a, W: Weight> {
    pub grammar: &'a Grammar,
    pub kind: PhantomData<W>,
    pub ghost accepted: { Accepted W.Weight.algebra (model grammar.now) },
}

impl<'a, W: Weight> AcceptedGrammar<'a, W> {
    // The grammar, where the kind takes every weight number.
    pub fn new(grammar: &'a Grammar) -> Option<AcceptedGrammar<'a, W>>
        ensures { MatchOption result (Accepted W.Weight.algebra (model grammar.now) → ⊥) (λ a. a.grammar.now ≡ grammar.now) }
    {
        if takes_all::<W>(grammar.productions()) {
            Some(AcceptedGrammar {
                grammar,
                kind: PhantomData,
            })
        } else {
            None
        }
    }
}

// Whether the kind takes every weight number.
fn takes_all<W: Weight>(productions: &[Production]) -> bool
    ensures { IsTrue result ↔ ((k : ℕ) (d : Production) → k < length productions.now → W.Weight.algebra.least ≤ (production_model (slice_index_or productions.now k d)).weight) }
{
    productions.iter().all(|p| W::LEAST <= p.weight())
}
