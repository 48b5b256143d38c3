// The category estimate: what the lightest chain of steps from the start to a category weighs.
ghost use Rattle.std.specs.Prelude.{◌≡◌, ℕ, ◌<◌, ◌≤◌, length, replicate, slice_index_or, slice_set};
ghost use Rattle.std.proofs.Common.{sym, subst};
ghost use Rattle.weight.specs.Algebra.{larger};
ghost use Rattle.agenda.specs.Cells.{blank_cell};
ghost use Rattle.grammar.specs.Grammars.{GrammarModel};
ghost use Rattle.grammar.specs.Formed.{WellFormed};
ghost use Rattle.grammar.specs.Model.{model};
ghost use Rattle.estimate.specs.Weighing.{categories};
ghost use Rattle.estimate.specs.Entries.{blank_entry};
ghost use Rattle.estimate.specs.Chains.{LightestChain, RowWeight, RaisedBy};
ghost use Rattle.estimate.specs.Settling.{category_weight, category_own};
ghost use Rattle.estimate.specs.CategoryWeights.{category_is, chain_sound};
ghost use Rattle.estimate.specs.CategoryOwn.{own_holds};

use crate::capped::Capped;
use crate::entry::Entry;
use crate::estimate::Estimate;
use crate::rows::blank_row;
use crate::search::{search, settled};
use crate::weighed::WeighedGrammar;
use agenda::Cell;
use weight::combining::larger;
use weight::weight::Weight;

// The lightest chain from the start, or the ceiling where no chain is below it.
#[derive(Clone, Copy)]
pub struct Category;

// What the estimate has at c, by a row of the lightest chains to the other categories than the start.
fn row_weight<W: Capped>(chains: &[W], c: usize, start: usize) -> W
    requires { c < length chains.now }
    ensures { RowWeight W.Weight.algebra W.Weight.exact W.Weight.nothing start chains.now c result }
{
    if c == start {
        return W::none();
    }
    settled(chains, c).unwrap_or(W::ceiling())
}

// Raises a row by what the estimate has at each category c.
fn raise_by<W: Capped>(row: &mut [W], chains: &[W], start: usize)
    requires { length row.old ≡ length chains.now }
    ensures { RaisedBy W.Weight.algebra W.Weight.exact W.Weight.nothing start chains.now row.old row.new (length row.old) }
{
    for (c, w) in row.iter_mut().enumerate() {
        *w = larger(*w, row_weight(chains, c, start));
    }
}

// The raise on rows and an agenda that are as long as there are categories.
fn raise_whole<W: Capped>(
    weighed: &WeighedGrammar<'_, W>,
    row: &mut [W],
    spare: &mut [W],
    cells: &mut [Cell<Entry<W>>],
)
    requires row { length row.old ≡ categories (model weighed.now.accepted.grammar.now) }
    requires spare { spare.old ≡ replicate (categories (model weighed.now.accepted.grammar.now)) W.Weight.nothing }
    requires cells { length cells.old ≡ categories (model weighed.now.accepted.grammar.now) }
    ensures raised { (c : ℕ) (d : W) → c < categories (model weighed.now.accepted.grammar.now) → slice_index_or row.new c d ≡ larger W.Weight.algebra W.Weight.exact (slice_index_or row.old c d) (category_own W.Weight.algebra W.Capped.showing (model weighed.now.accepted.grammar.now) c) }
    ensures spare { spare.new ≡ spare.old }
    ensures cells { cells.new ≡ replicate (categories (model weighed.now.accepted.grammar.now)) (blank_cell (blank_entry W.Weight.nothing)) }
{
    search(weighed, spare, cells);
    raise_by(row, spare, usize::from(weighed.accepted.grammar.start()));
    blank_row(spare);
}

impl<W: Capped> Estimate<W> for Category {
    ghost own = { category_own W.Weight.algebra W.Capped.showing };

    ghost sound = { λ m formed.
        let A = W.Weight.algebra in
        let laws = W.Weight.lawful in
        let exact = W.Weight.exact in
        let showing = W.Capped.showing in
        chain_sound laws m (λ c. exact (category_own A showing m c)) (λ c.
        subst (LightestChain A m c) (sym (own_holds laws exact m formed W.Weight.held showing W.Capped.shown c)) (category_is laws m formed c)) };

    fn raise(
        &self,
        weighed: &WeighedGrammar<'_, W>,
        row: &mut [W],
        spare: &mut [W],
        cells: &mut [Cell<Entry<W>>],
    ) {
        let n = weighed.accepted.grammar.dimensions().len();
        raise_whole(weighed, &mut row[..n], &mut spare[..n], &mut cells[..n]);
    }
}

// What the category estimate has is the weight of a lightest chain: no chain, however long, is lighter, and one weighs as much, or it is the ceiling.
pub fn category_stands<W: Capped>()
    ensures exact { (m : GrammarModel) (c : ℕ) → WellFormed m → W.Weight.exact (category_own W.Weight.algebra W.Capped.showing m c) ≡ category_weight W.Weight.algebra m c }
    ensures lightest { (m : GrammarModel) (c : ℕ) → WellFormed m → LightestChain W.Weight.algebra m c (category_weight W.Weight.algebra m c) }
{}
