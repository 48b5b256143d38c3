// Odds as a weight kind: how their numbers combine, and where they begin and end.
ghost use Rattle.std.specs.Prelude.{refl};
ghost use Rattle.weight.specs.Odds.{odds, most_odds};
ghost use Rattle.weight.specs.Kinds.{odds_numbers};

use super::Multiplying;
use crate::number::Joining;
use crate::weight::WeightNumber;

impl Joining for Multiplying {
    const KIND: u8 = 1;

    const LEAST: WeightNumber = 2;

    const NONE: u32 = 1;

    const CEILING: u32 = 4_000_000_000;

    ghost KIND = { 1 };

    ghost LEAST = { 2 };

    ghost NONE = { 1 };

    ghost CEILING = { most_odds };

    ghost algebra = { odds };

    ghost numbers = { odds_numbers };

    ghost kind = { refl };

    ghost least = { refl };

    fn join(a: u32, b: u32) -> u64 {
        u64::from(a) * u64::from(b)
    }
}
