// What values of every weight kind can do: the larger of two, and the combination of several.
ghost use Rattle.std.specs.Prelude.{◌≡◌};
ghost use Rattle.weight.specs.Algebra.{larger, total, Within};

use crate::weight::Weight;

// The value that holds more, the first where both hold the same: `max` takes its argument there.
pub fn larger<W: Weight>(x: W, y: W) -> W
    ensures { result ≡ larger W.algebra W.exact x y }
{
    y.max(x)
}

// The combination of three, or nothing where it is above the ceiling.
pub fn combine3<W: Weight>(x: W, y: W, z: W) -> Option<W>
    ensures { Within W.algebra W.exact result (W.algebra.plus (W.algebra.plus (W.exact x) (W.exact y)) (W.exact z)) }
{
    x.combine(y)?.combine(z)
}

// The combination of all, or nothing where it is above the ceiling.
pub fn combine_all<W: Weight>(xs: &[W]) -> Option<W>
    ensures { Within W.algebra W.exact result (total W.algebra W.exact xs.now) }
{
    let mut sum = W::none();
    for x in xs {
        sum = sum.combine(*x)?;
    }
    Some(sum)
}
