// What a search goes over: rules that give a category from others at a price.
ghost use Rattle.std.specs.Prelude.{◌≡◌, ℕ, ◌<◌, false, length, Some, Option};
ghost use Rattle.estimate.specs.declared.rules.Rule.{Rule};
ghost use Rattle.estimate.specs.Rules.{Inside, premises_of};
ghost use Rattle.estimate.specs.Searches.{AllSettled, Open};

use arrayvec::ArrayVec;
use grammar::MOST_ARITY;
use weight::weight::Weight;

// A rule, with as many premises as a production may have arguments.
#[derive(Drop)]
pub struct Rule<W> {
    pub result: usize,
    pub premises: ArrayVec<usize, MOST_ARITY>,
    pub price: W,
}

// Rules by number. A number may have no rule, as where its price would be above the ceiling.
pub trait Rules<W: Weight> {
    // The rules are about the items below this.
    ghost items: { Self → ℕ };

    // How many numbers there are.
    ghost count: { Self → ℕ };

    // What a number gives: a rule or nothing.
    ghost gives: { Self → ℕ → Option (Rule W) → Type 0 };

    fn size(&self) -> usize
        ensures { result ≡ count self.now };

    // Whether the rule of a number may give something by a row: false only where it concludes what is settled, or from what is not. It is asked before the rule is made, which costs more.
    fn is_ready(&self, k: usize, row: &[W]) -> bool
        requires number { k < count self.now }
        requires row { length row.now ≡ items self.now }
        ensures { result ≡ false → (r : Rule W) → gives self.now k (Some r) → AllSettled W.Weight.algebra W.Weight.exact W.Weight.nothing row.now (premises_of r.premises)
            → Open W.Weight.algebra W.Weight.exact W.Weight.nothing row.now r.result → ⊥ };

    fn rule(&self, k: usize) -> Option<Rule<W>>
        requires { k < count self.now }
        ensures { gives self.now k result };

    ghost one: { (s : Self) (k : ℕ) (o : Option (Rule W)) (r : Rule W) → gives s k o → gives s k (Some r) → o ≡ Some r };

    ghost inside: { (s : Self) (k : ℕ) (r : Rule W) → k < count s → gives s k (Some r) → Inside W.Weight.algebra W.Weight.exact (items s) r };
}
