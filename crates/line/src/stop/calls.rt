// The number, the figure and the words of a stop.
ghost use Rattle.std.specs.Prelude.{◌≡◌, Some};
ghost use Rattle.line.specs.Stops.{number_of, figure_of, words_of};

use crate::line::LINE_ROOM;
use crate::stop::LineStop;
use std::fmt;

// Number and figure are a match of its own in each crate that has stops, since the cases are its own.
impl LineStop {
    pub fn number(&self) -> u8
        ensures { result ≡ number_of self.now }
    {
        match self {
            LineStop::Full => 31,
            LineStop::Empty => 32,
        }
    }

    pub fn figure(&self) -> usize
        ensures { result ≡ figure_of self.now }
    {
        match self {
            LineStop::Full => LINE_ROOM,
            LineStop::Empty => 0,
        }
    }
}

impl fmt::Display for LineStop {
    ghost output = { λ s. Some (words_of s) };

    fn fmt<W: fmt::Write>(&self, f: &mut fmt::Formatter<W>) -> fmt::Result {
        let number = self.number();
        let figure = self.figure();
        match self {
            LineStop::Full => write!(f, "stop {number}: the line holds {figure} tokens already"),
            LineStop::Empty => write!(f, "stop {number}: the line holds no token"),
        }
    }
}
