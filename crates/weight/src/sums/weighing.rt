// Sums as a weight kind: how their numbers combine, and where they begin and end.
ghost use Rattle.std.specs.Prelude.{refl};
ghost use Rattle.weight.specs.Sums.{sums, most_sum};
ghost use Rattle.weight.specs.Kinds.{sum_numbers};

use super::Adding;
use crate::number::Joining;
use crate::weight::WeightNumber;

impl Joining for Adding {
    const KIND: u8 = 0;

    const LEAST: WeightNumber = 1;

    const NONE: u32 = 0;

    const CEILING: u32 = 1_000_000_000;

    ghost KIND = { 0 };

    ghost LEAST = { 1 };

    ghost NONE = { 0 };

    ghost CEILING = { most_sum };

    ghost algebra = { sums };

    ghost numbers = { sum_numbers };

    ghost kind = { refl };

    ghost least = { refl };

    fn join(a: u32, b: u32) -> u64 {
        u64::from(a) + u64::from(b)
    }
}
