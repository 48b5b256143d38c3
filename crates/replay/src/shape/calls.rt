// What shapes say of the tokens that lie end to end.
ghost use Rattle.std.specs.Prelude.{◌≡◌, ℕ, ◌+◌, ◌≤◌, List, [], map, length, take, drop, slice_index_or};
ghost use Rattle.replay.specs.Replays.{fit, most_tokens, strings_on};
ghost use Rattle.replay.specs.Shapes.{cut, first, laid_out, size, total as total_of};

use crate::shape::{Lengths, Shape};

impl Lengths {
    pub(crate) fn size(&self) -> usize
        requires { size self.now ≤ most_tokens }
        ensures { result ≡ size self.now }
    {
        match *self {
            Lengths::One(n) => n,
            Lengths::Two(n, m) => n + m,
        }
    }

    pub(crate) fn first(&self) -> usize
        ensures { result ≡ first self.now }
    {
        match *self {
            Lengths::One(n) => n,
            Lengths::Two(n, _) => n,
        }
    }

    // Where string l begins, counted from 0, and how long it is.
    fn string(&self, l: usize) -> (usize, usize)
        ensures value { (ts : List ℕ) → take result.1 (drop result.0 ts) ≡ slice_index_or (cut self.now ts) l [] }
        ensures bound { result.0 + result.1 ≤ size self.now }
    {
        match (*self, l) {
            (Lengths::One(n), 0) => (0, n),
            (Lengths::Two(n, _), 0) => (0, n),
            (Lengths::Two(n, m), 1) => (n, m),
            _ => (0, 0),
        }
    }
}

// How many tokens yields of these shapes have together.
pub(crate) fn total(shapes: &[Shape]) -> usize
    requires { total_of shapes.now ≤ most_tokens }
    ensures { result ≡ total_of shapes.now }
{
    let mut sum = 0;
    for shape in shapes {
        sum += shape.lengths.size();
    }
    sum
}

// Where string l of yield k begins, both counted from 0, and how long it is.
pub(crate) fn place(shapes: &[Shape], k: usize, l: usize) -> (usize, usize)
    requires { total_of shapes.now ≤ most_tokens }
    ensures value { (ts : List ℕ) → take result.1 (drop result.0 ts) ≡ slice_index_or (slice_index_or (strings_on (laid_out shapes.now ts)) k []) l [] }
    ensures bound { result.0 + result.1 ≤ total_of shapes.now }
{
    if k >= shapes.len() {
        return (0, 0);
    }
    let before = total(&shapes[..k]);
    let (start, length) = shapes[k].lengths.string(l);
    (before + start, length)
}

// The first shapes are of the arguments' categories.
pub(crate) fn fits(arguments: &[u8], shapes: &[Shape]) -> bool
    requires { length arguments.now ≤ length shapes.now }
    ensures { result ≡ fit arguments.now (map (λ s. s.category) shapes.now) }
{
    arguments
        .iter()
        .zip(shapes)
        .all(|(argument, shape)| shape.category == *argument)
}
