// Kinds whose ceiling can be had, and whose weights are known by the numbers that they show.
ghost use Rattle.std.specs.Prelude.{◌≡◌, ℕ};
ghost use Rattle.estimate.specs.Caps.{number_showing, number_shown};

use weight::number::{Joining, Number};
use weight::weight::Weight;

pub trait Capped: Weight {
    // The value that a number shows.
    ghost showing: { ℕ → Self };

    // The value that holds the ceiling.
    fn ceiling() -> Self
        ensures { Self.Weight.exact result ≡ Self.Weight.algebra.ceiling };

    ghost shown: { (w : Self) → showing (Self.Weight.algebra.shown (Self.Weight.exact w)) ≡ w };
}

impl<J: Joining> Capped for Number<J> {
    ghost showing = { number_showing J.Joining.own };

    ghost shown = { number_shown J.Joining.own };

    fn ceiling() -> Number<J> {
        Number::ceiling()
    }
}
