// What an estimate is, the one that gives none, and the larger of two.
ghost use Rattle.std.specs.Prelude.{◌≡◌, ℕ, ◌≤◌, length};
ghost use Rattle.weight.specs.Algebra.{larger};
ghost use Rattle.grammar.specs.Grammars.{GrammarModel};
ghost use Rattle.grammar.specs.Formed.{WellFormed};
ghost use Rattle.grammar.specs.Model.{model};
ghost use Rattle.estimate.specs.Weighing.{categories};
ghost use Rattle.estimate.specs.Entries.{BlankRow, BlankCells};
ghost use Rattle.estimate.specs.Estimates.{Sound, Raised};
ghost use Rattle.estimate.specs.Raises.{none_sound, larger_sound};

use crate::entry::Entry;
use crate::weighed::WeighedGrammar;
use agenda::Cell;
use weight::weight::Weight;

pub trait Estimate<W: Weight> {
    // The weight of each category, given by the grammar alone.
    ghost own: { GrammarModel → ℕ → W };

    // Leaves at each category the larger of what the row held and its own weight. The spare row and the agenda's cells are lent blank, for the work, and given back blank; whoever lends the row and these tables looks at them afterwards, so each is a parameter.
    fn raise(
        &self,
        weighed: &WeighedGrammar<'_, W>,
        row: &mut [W],
        spare: &mut [W],
        cells: &mut [Cell<Entry<W>>],
    )
        requires row { categories (model weighed.now.accepted.grammar.now) ≤ length row.old }
        requires spare_long { categories (model weighed.now.accepted.grammar.now) ≤ length spare.old }
        requires spare { BlankRow W.Weight.nothing (categories (model weighed.now.accepted.grammar.now)) spare.old }
        requires cells_long { categories (model weighed.now.accepted.grammar.now) ≤ length cells.old }
        requires cells { BlankCells W.Weight.nothing (categories (model weighed.now.accepted.grammar.now)) cells.old }
        ensures raised { Raised W.Weight.algebra W.Weight.exact (categories (model weighed.now.accepted.grammar.now)) (own (model weighed.now.accepted.grammar.now)) row.old row.new }
        ensures spare { spare.new ≡ spare.old }
        ensures cells { cells.new ≡ cells.old };

    // The start has none, and no argument's weight is above what its production and its fellows come to.
    ghost sound: { (m : GrammarModel) → WellFormed m → Sound W.Weight.algebra m (λ c. W.Weight.exact (own m c)) };
}

// None everywhere. The head of `raise` in each impl is the trait's.
#[derive(Clone, Copy)]
pub struct Null;

impl<W: Weight> Estimate<W> for Null {
    ghost own = { λ _ _. W.Weight.nothing };

    ghost sound = { λ m formed. none_sound W.Weight.lawful W.Weight.exact m W.Weight.nothing W.Weight.empty };

    fn raise(
        &self,
        weighed: &WeighedGrammar<'_, W>,
        row: &mut [W],
        spare: &mut [W],
        cells: &mut [Cell<Entry<W>>],
    ) {}
}

// The larger of two estimates.
#[derive(Clone, Copy)]
pub struct Larger<A, B>(pub A, pub B);

impl<W: Weight, A: Estimate<W>, B: Estimate<W>> Estimate<W> for Larger<A, B> {
    ghost own = { λ m c. larger W.Weight.algebra W.Weight.exact (A.Estimate.own m c) (B.Estimate.own m c) };

    ghost sound = { λ m formed. larger_sound W.Weight.lawful W.Weight.exact m (A.Estimate.own m) (B.Estimate.own m) (A.Estimate.sound m formed) (B.Estimate.sound m formed) };

    fn raise(
        &self,
        weighed: &WeighedGrammar<'_, W>,
        row: &mut [W],
        spare: &mut [W],
        cells: &mut [Cell<Entry<W>>],
    ) {
        self.0.raise(weighed, row, spare, cells);
        self.1.raise(weighed, row, spare, cells);
    }
}
