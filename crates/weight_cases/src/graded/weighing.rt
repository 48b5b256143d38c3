// Graded pairs as a weight kind.
ghost use Rattle.std.specs.Prelude.{refl};
ghost use Rattle.std.proofs.Common.{rules};
ghost use Rattle.weight_cases.specs.Grades.{grades};
ghost use Rattle.weight_cases.specs.GradedValues.{no_grade, grade_of};
ghost use Rattle.weight_cases.specs.Parts.{graded_compared, graded_held, graded_once};

use super::Graded;
use weight::weight::{Weight, WeightNumber};

const MOST: u32 = 65_535;

impl Weight for Graded {
    const KIND: u8 = 2;

    const LEAST: WeightNumber = 1;

    ghost KIND = { 2 };

    ghost LEAST = { 1 };

    ghost algebra = { grades };

    ghost exact = { grade_of };

    ghost nothing = { no_grade };

    ghost lawful = { Prim.search rules };

    ghost kind = { refl };

    ghost least = { refl };

    ghost compared = { graded_compared };

    ghost within = { Prim.search rules };

    ghost held = { graded_held };

    ghost same = { graded_once };

    ghost empty = { refl };

    fn none() -> Graded {
        Graded::of(0, 0)
    }

    fn take(n: WeightNumber) -> Option<Graded> {
        if n < Self::LEAST {
            None
        } else {
            Some(Graded::of(u32::from(n), 0))
        }
    }

    fn combine(self, other: Graded) -> Option<Graded> {
        let sum = self.sum + other.sum;
        if sum > MOST {
            return None;
        }
        Some(Graded {
            sum,
            first: self.first + other.first,
        })
    }

    fn show(self) -> u32 {
        self.sum * 65_536 + self.first
    }
}
