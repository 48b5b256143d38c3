// Steps from a category to an argument, as the rules of a search.
ghost use Rattle.std.specs.Prelude.{◌≡◌, ◌*◌, ◌<◌, ◌≤◌, [], ◌∷◌, length, if◌then◌else◌, nat_eq};
ghost use Rattle.grammar.specs.Model.{model};
ghost use Rattle.grammar.proofs.Formed.{formed_is};
ghost use Rattle.deduction.specs.Deduction.{but};
ghost use Rattle.estimate.specs.Weighing.{categories};
ghost use Rattle.estimate.specs.Rules.{premises_of};
ghost use Rattle.estimate.specs.Chains.{ChainRule};
ghost use Rattle.estimate.specs.ChainSteps.{chain_one, chain_inside};

use crate::productions::{production_at, production_count};
use crate::rules::{Rule, Rules};
use crate::search::{settled, weigh};
use crate::trees::premises;
use crate::weighed::WeighedGrammar;
use arrayvec::ArrayVec;
use grammar::MOST_ARITY;
use weight::weight::Weight;

// The categories of the arguments but the one at i, as premises.
fn fellows(arguments: &[u8], i: usize) -> ArrayVec<usize, MOST_ARITY>
    requires { (length arguments.now ≤ 3) × (i < length arguments.now) }
    ensures { premises_of result ≡ but i arguments.now }
{
    let mut fellows = premises(arguments);
    fellows.remove(i);
    fellows
}

// What a step from category a asks for: nothing where that is the start.
fn way(a: usize, start: usize) -> ArrayVec<usize, MOST_ARITY>
    ensures { premises_of result ≡ (if nat_eq a start then [] else a ∷ []) }
{
    let mut way = ArrayVec::new();
    if a != start {
        way.push(a);
    }
    way
}

// The steps of a grammar, as rules; the start is known beforehand.
impl<'a, W: Weight> Rules<W> for WeighedGrammar<'a, W> {
    ghost items = { λ s. categories (model s.accepted.grammar.now) };

    ghost count = { λ s. 3 * length (model s.accepted.grammar.now).productions };

    ghost gives = { λ s. ChainRule W.Weight.algebra W.Weight.exact (model s.accepted.grammar.now) };

    ghost one = { λ s. chain_one W.Weight.lawful W.Weight.exact (model s.accepted.grammar.now) W.Weight.within W.Weight.same };

    ghost inside = { λ s k r h. let m = model s.accepted.grammar.now in chain_inside W.Weight.lawful W.Weight.exact m (formed_is m s.accepted.grammar.now.well_formed) s.accepted.accepted k r };

    fn size(&self) -> usize {
        MOST_ARITY * production_count(self.accepted.grammar)
    }

    fn is_ready(&self, k: usize, row: &[W]) -> bool {
        let grammar = self.accepted.grammar;
        let production = production_at(grammar, k / MOST_ARITY);
        let Some(argument) = production.arguments().get(k % MOST_ARITY) else {
            return false;
        };
        if settled(row, usize::from(*argument)).is_some() {
            return false;
        }
        let from = usize::from(production.category());
        from == usize::from(grammar.start()) || settled(row, from).is_some()
    }

    fn rule(&self, k: usize) -> Option<Rule<W>> {
        let grammar = self.accepted.grammar;
        let production = production_at(grammar, k / MOST_ARITY);
        let arguments = production.arguments();
        let i = k % MOST_ARITY;
        let result = usize::from(*arguments.get(i)?);
        let start = usize::from(grammar.start());
        if result == start {
            return None;
        }
        let step = Rule {
            result,
            premises: fellows(arguments, i),
            price: W::take(production.weight())?,
        };
        Some(Rule {
            result,
            premises: way(usize::from(production.category()), start),
            price: weigh(&step, self.low)?,
        })
    }
}
