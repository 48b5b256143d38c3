// What the cases ask of a kind: the combination of two numbers' weights, and what is shown of an answer.
ghost use Rattle.weight_cases.specs.Pairs.{Paired, Shown};

use weight::weight::{Weight, WeightNumber};

// The combination of the weights of two numbers.
pub fn pair<W: Weight>(m: WeightNumber, n: WeightNumber) -> Option<W>
    ensures { Paired W.algebra W.exact result m n }
{
    W::take(m)?.combine(W::take(n)?)
}

// The number that a weight shows, or 0 for nothing.
pub fn shown<W: Weight>(w: Option<W>) -> u32
    ensures { Shown W.algebra W.exact w result }
{
    w.map_or(0, W::show)
}
