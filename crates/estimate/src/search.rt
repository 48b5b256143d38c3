// The lightest cost of each item that rules give, best first.
ghost use Rattle.std.specs.Prelude.{◌≡◌, ◌<◌, false, length, replicate, MatchOption, slice_set};
ghost use Rattle.agenda.specs.Cells.{blank_cell};
ghost use Rattle.agenda.specs.Agendas.{room, entries};
ghost use Rattle.grammar.specs.Formed.{Each};
ghost use Rattle.estimate.specs.Entries.{blank_entry};
ghost use Rattle.estimate.specs.Rules.{premises_of, system};
ghost use Rattle.estimate.specs.Searches.{at, AllSettled, Open, Weighed, Searching, Closed, Solved, Considered, AllOffered};

use crate::entry::Entry;
use crate::rules::{Rule, Rules};
use agenda::{Agenda, Cell, blank};
use weight::weight::Weight;

// The weight at a settled item. A row has none at the others: no derivation weighs none, so none needs no mark of its own.
pub fn settled<W: Weight>(row: &[W], x: usize) -> Option<W>
    requires { x < length row.now }
    ensures { MatchOption result (Open W.Weight.algebra W.Weight.exact W.Weight.nothing row.now x) (λ w. (w ≡ at W.Weight.algebra W.Weight.exact W.Weight.nothing row.now x) × (Open W.Weight.algebra W.Weight.exact W.Weight.nothing row.now x → ⊥)) }
{
    let w = row[x];
    (w != W::none()).then_some(w)
}

// Whether all of these items are settled. A loop and no `all`, since a closure would have to ask of each item that it is one of the row's.
pub fn all_settled<W: Weight>(row: &[W], items: &[u8]) -> bool
    requires { Each (λ x. x < length row.now) items.now }
    ensures { result ≡ false → AllSettled W.Weight.algebra W.Weight.exact W.Weight.nothing row.now items.now → ⊥ }
{
    for x in items {
        if settled(row, usize::from(*x)).is_none() {
            return false;
        }
    }
    true
}

// What the rule gives, where its premises are settled.
pub fn weigh<W: Weight>(rule: &Rule<W>, row: &[W]) -> Option<W>
    requires { Each (λ p. p < length row.now) (premises_of rule.now.premises) }
    ensures { Weighed W.Weight.algebra W.Weight.exact W.Weight.nothing row.now (W.Weight.exact rule.now.price) (premises_of rule.now.premises) result }
{
    let mut cost = rule.price;
    for x in rule.premises.as_slice() {
        cost = cost.combine(settled(row, *x)?)?;
    }
    Some(cost)
}

// Offers what the rule gives, if its premises are settled and its conclusion is not.
fn consider<W: Weight>(rule: &Rule<W>, row: &[W], agenda: &mut Agenda<Entry<W>>)
    requires result { rule.now.result < length row.now }
    requires premises { Each (λ p. p < length row.now) (premises_of rule.now.premises) }
    requires room { rule.now.result < room agenda.old }
    ensures room { room agenda.new ≡ room agenda.old }
    ensures considered { Considered W.Weight.algebra W.Weight.exact W.Weight.nothing row.now rule.now (entries agenda.old) (entries agenda.new) }
{
    let category = rule.result;
    if settled(row, category).is_some() {
        return;
    }
    if let Some(cost) = weigh(rule, row) {
        agenda.offer(Entry { cost, category });
    }
}

// Offers what each rule gives. A rule that was offered before is looked at again, but what it gives does not come before what waits, so that the agenda is written at most once for a rule.
fn offer_all<W: Weight, R: Rules<W>>(rules: &R, row: &[W], agenda: &mut Agenda<Entry<W>>)
    requires row { length row.now ≡ R.Rules.items rules.now }
    requires room { room agenda.old ≡ R.Rules.items rules.now }
    ensures room { room agenda.new ≡ room agenda.old }
    ensures offered { AllOffered W.Weight.algebra W.Weight.exact W.Weight.nothing (R.Rules.count rules.now) (R.Rules.gives rules.now) row.now (entries agenda.old) (R.Rules.count rules.now) (entries agenda.new) }
{
    // A number names a rule, and indexes nothing here. A rule is made only where it may give something.
    for k in 0..rules.size() {
        if !rules.is_ready(k, row) {
            continue;
        }
        if let Some(rule) = rules.rule(k) {
            consider(&rule, row, agenda);
        }
    }
}

// In a function of its own: in `search` the check does not find that an element's offset fits, though its index is below the length.
fn settle<W: Copy>(row: &mut [W], x: usize, w: W)
    requires { x < length row.old }
    ensures { row.new ≡ slice_set row.old x w }
{
    row[x] = w;
}

// The lightest cost of each item, none at an item that no derivation within the ceiling has. In each turn the first entry is settled and every rule is looked at once.
pub fn search<W: Weight, R: Rules<W>>(rules: &R, row: &mut [W], cells: &mut [Cell<Entry<W>>])
    requires row { row.old ≡ replicate (R.Rules.items rules.now) W.Weight.nothing }
    requires cells { length cells.old ≡ R.Rules.items rules.now }
    ensures solved { Solved W.Weight.algebra W.Weight.exact W.Weight.nothing (system W.Weight.algebra W.Weight.exact (R.Rules.count rules.now) (R.Rules.gives rules.now)) (R.Rules.items rules.now) row.new }
    ensures cells { cells.new ≡ replicate (R.Rules.items rules.now) (blank_cell (blank_entry W.Weight.nothing)) }
{
    let n = cells.len();
    let mut agenda = Agenda::new(cells);
    offer_all(rules, row, &mut agenda);
    while let Some(e) = agenda.pop() {
        settle(row, e.category, e.cost);
        offer_all(rules, row, &mut agenda);
    }
    blank(cells, n, Entry::blank());
}
