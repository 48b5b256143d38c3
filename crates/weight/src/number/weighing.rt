// Numbers as a weight kind.
ghost use Rattle.weight.specs.Numbers.{compared_numbers, weight_held, weight_once};
ghost use Rattle.weight.specs.NumberValues.{no_number, no_number_none, number_of, number_same};

use super::{Joining, Number};
use crate::weight::{Weight, WeightNumber};

impl<J: Joining> Weight for Number<J> {
    const KIND: u8 = J::KIND;

    const LEAST: WeightNumber = J::LEAST;

    ghost KIND = { J.KIND };

    ghost LEAST = { J.LEAST };

    ghost algebra = { J.algebra };

    ghost exact = { λ w. J.numbers.weight w.value w.least };

    ghost nothing = { no_number J.Joining };

    ghost lawful = { J.numbers.lawful };

    ghost kind = { J.kind };

    ghost least = { J.least };

    ghost compared = { λ v w. compared_numbers J.numbers v.value w.value v.least w.least };

    ghost within = { λ w. weight_held J.numbers w.value w.least w.within };

    ghost held = { number_of J.Joining.own };

    ghost same = { λ v w h. number_same J.Joining.own v w (weight_once J.numbers v.value w.value v.least w.least h) };

    ghost empty = { no_number_none J.Joining.own };

    fn none() -> Number<J> {
        Number::of(J::NONE)
    }

    fn take(n: WeightNumber) -> Option<Number<J>> {
        if n < J::LEAST {
            None
        } else {
            Some(Number::of(u32::from(n)))
        }
    }

    fn combine(self, other: Number<J>) -> Option<Number<J>> {
        let value = J::join(self.value, other.value);
        if value > u64::from(J::CEILING) {
            return None;
        }
        // It narrows: the value is not above the ceiling.
        Some(Number::of(value as u32))
    }

    fn show(self) -> u32 {
        self.value
    }
}
