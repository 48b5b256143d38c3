// Weights that are numbers up to a ceiling.
ghost use Rattle.std.specs.Prelude.{◌≡◌, ℕ, ◌≤◌, ⊤};
ghost use Rattle.weight.specs.Algebra.{Algebra};
ghost use Rattle.weight.specs.Numbers.{Numbers};

use crate::weight::{Weight, WeightNumber};
use std::alloc::AllocError;
use std::marker::PhantomData;

pub mod weighing;

// A kind whose exact weights are numbers: how they combine, and where they begin and end.
pub trait Joining {
    // The kind's number in a pack, and the least weight number that it takes.
    const KIND: u8;

    const LEAST: WeightNumber;

    // The number that holds none, and the largest.
    const NONE: u32;

    const CEILING: u32;

    ghost KIND: { ℕ };

    ghost LEAST: { ℕ };

    ghost NONE: { ℕ };

    ghost CEILING: { ℕ };

    // The exact weights, and that they are the numbers from none on.
    ghost algebra: { Algebra };

    ghost numbers: { Numbers algebra NONE CEILING };

    // The number of the combination of two numbers' weights.
    fn join(a: u32, b: u32) -> u64
        ensures { (g : NONE ≤ a) (h : NONE ≤ b) → result ≡ algebra.shown (algebra.plus (numbers.weight a g) (numbers.weight b h)) };

    ghost kind: { KIND ≡ algebra.kind };

    ghost least: { LEAST ≡ algebra.least };
}

// A number from that of none up to the ceiling.
#[derive_where(PartialEq, Eq, PartialOrd, Ord)]
pub struct Number<J: Joining> {
    value: u32,
    #[derive_where(skip)]
    joining: PhantomData<J>,
    ghost least: { J.NONE ≤ value },
    ghost within: { value ≤ J.CEILING },
}

// By hand, since no derive gives `Clone` to a generic struct with ghost fields.
impl<J: Joining> Copy for Number<J> {}

impl<J: Joining> Clone for Number<J> {
    ghost is_clone = { λ x y. y ≡ x };

    ghost is_infallible = { λ _. ⊤ };

    fn clone(&self) -> Result<Number<J>, AllocError> {
        Ok(*self)
    }
}

impl<J: Joining> Number<J> {
    fn of(value: u32) -> Number<J>
        requires { (J.NONE ≤ value) × (value ≤ J.CEILING) }
        ensures { result.value ≡ value }
    {
        Number {
            value,
            joining: PhantomData,
        }
    }

    // The number that holds the ceiling.
    pub fn ceiling() -> Number<J>
        ensures { ⟦<Number<J> as Weight>⟧.exact result ≡ ⟦<Number<J> as Weight>⟧.algebra.ceiling }
    {
        Number::of(J::CEILING)
    }
}
