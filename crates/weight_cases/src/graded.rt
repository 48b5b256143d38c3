// Pairs of numbers, lighter by their sum and at one sum by their first.
ghost use Rattle.std.specs.Prelude.{◌≡◌, ◌+◌, ◌≤◌};
ghost use Rattle.weight_cases.specs.Grades.{most_grade};

pub mod weighing;

// A pair by its sum and its first.
#[derive(Clone, Copy, PartialEq, Eq, PartialOrd, Ord)]
pub struct Graded {
    sum: u32,
    first: u32,
    ghost part: { first ≤ sum },
    ghost within: { sum ≤ most_grade },
}

impl Graded {
    pub fn of(first: u32, second: u32) -> Graded
        requires { first + second ≤ most_grade }
        ensures first { result.first ≡ first }
        ensures sum { result.sum ≡ first + second }
    {
        Graded {
            sum: first + second,
            first,
        }
    }
}
