// The lightest weight of each category, over all yields.
ghost use Rattle.std.specs.Prelude.{◌≡◌, ℕ, ◌≤◌, ◌++◌, length, drop, replicate};
ghost use Rattle.agenda.specs.Cells.{blank_cell};
ghost use Rattle.grammar.specs.Model.{model};
ghost use Rattle.grammar.proofs.Formed.{formed_is};
ghost use Rattle.estimate.specs.Weighing.{categories, LightestRow};
ghost use Rattle.estimate.specs.Entries.{blank_entry};
ghost use Rattle.estimate.specs.Rules.{premises_of};
ghost use Rattle.estimate.specs.TreeRules.{TreeRule};
ghost use Rattle.estimate.specs.TreeRulesLemmas.{one_rule, rule_inside};

use crate::accepted::AcceptedGrammar;
use crate::entry::Entry;
use crate::productions::{production_at, production_count};
use crate::rows::blank_row;
use crate::rules::{Rule, Rules};
use crate::search::{all_settled, search, settled};
use agenda::Cell;
use arrayvec::ArrayVec;
use grammar::MOST_ARITY;
use weight::weight::Weight;

// The categories of arguments, as premises.
pub fn premises(arguments: &[u8]) -> ArrayVec<usize, MOST_ARITY>
    requires { length arguments.now ≤ 3 }
    ensures { premises_of result ≡ arguments.now }
{
    let mut premises = ArrayVec::new();
    for a in arguments {
        premises.push(usize::from(*a));
    }
    premises
}

// The productions of a grammar, as rules.
impl<'a, W: Weight> Rules<W> for AcceptedGrammar<'a, W> {
    ghost items = { λ s. categories (model s.grammar.now) };

    ghost count = { λ s. length (model s.grammar.now).productions };

    ghost gives = { λ s. TreeRule W.Weight.algebra W.Weight.exact (model s.grammar.now) };

    ghost one = { λ s. one_rule W.Weight.lawful W.Weight.exact (model s.grammar.now) W.Weight.same };

    ghost inside = { λ s. let m = model s.grammar.now in rule_inside W.Weight.lawful W.Weight.exact m (formed_is m s.grammar.now.well_formed) s.accepted };

    fn size(&self) -> usize {
        production_count(self.grammar)
    }

    fn is_ready(&self, k: usize, row: &[W]) -> bool {
        let production = production_at(self.grammar, k);
        if settled(row, usize::from(production.category())).is_some() {
            return false;
        }
        all_settled(row, production.arguments())
    }

    fn rule(&self, k: usize) -> Option<Rule<W>> {
        let production = production_at(self.grammar, k);
        Some(Rule {
            result: usize::from(production.category()),
            premises: premises(production.arguments()),
            price: W::take(production.weight())?,
        })
    }
}

// The lightest weights in a row and by an agenda that are as long as there are categories: what lies beyond is cut off before, so that nothing has to be said of it here.
fn lightest_whole<W: Weight>(
    accepted: &AcceptedGrammar<'_, W>,
    row: &mut [W],
    cells: &mut [Cell<Entry<W>>],
)
    requires row { length row.old ≡ categories (model accepted.now.grammar.now) }
    requires cells { length cells.old ≡ categories (model accepted.now.grammar.now) }
    ensures lightest { LightestRow W.Weight.algebra W.Weight.exact (model accepted.now.grammar.now) row.new }
    ensures cells { cells.new ≡ replicate (categories (model accepted.now.grammar.now)) (blank_cell (blank_entry W.Weight.nothing)) }
{
    blank_row(row);
    search(accepted, row, cells);
}

// The lightest weight of each category, or none where no tree of it is within the ceiling. Each category is settled once, the lightest first, and then each production is looked at: at most as many looks as categories times productions, each of a fixed number of steps.
pub fn lightest<W: Weight>(
    accepted: &AcceptedGrammar<'_, W>,
    row: &mut [W],
    cells: &mut [Cell<Entry<W>>],
)
    requires row { categories (model accepted.now.grammar.now) ≤ length row.old }
    requires cells { categories (model accepted.now.grammar.now) ≤ length cells.old }
    ensures lightest { LightestRow W.Weight.algebra W.Weight.exact (model accepted.now.grammar.now) row.new }
    ensures rest { drop (categories (model accepted.now.grammar.now)) row.new ≡ drop (categories (model accepted.now.grammar.now)) row.old }
    ensures cells { cells.new ≡ replicate (categories (model accepted.now.grammar.now)) (blank_cell (blank_entry W.Weight.nothing)) ++ drop (categories (model accepted.now.grammar.now)) cells.old }
{
    let n = accepted.grammar.dimensions().len();
    lightest_whole(accepted, &mut row[..n], &mut cells[..n]);
}
