// What a stop tells.
ghost use Rattle.std.specs.Prelude.{◌≡◌, Some};
ghost use Rattle.replay.specs.Stops.{told, what, words_of};

use crate::stops::ReplayStop;
use std::fmt;

// Number and figure are a match of its own in each crate that has stops, since the cases are its own.
impl ReplayStop {
    pub fn number(&self) -> u8
        ensures { result ≡ (told self.now).number }
    {
        match self {
            ReplayStop::Uneven { .. } => 11,
            ReplayStop::NoCommand { .. } => 12,
            ReplayStop::NoProduction { .. } => 13,
            ReplayStop::TooFew { .. } => 14,
            ReplayStop::WrongCategory { .. } => 15,
            ReplayStop::TooLong { .. } => 16,
            ReplayStop::NotOne { .. } => 17,
            ReplayStop::NotStart { .. } => 18,
            ReplayStop::NoRoom { .. } => 19,
        }
    }

    pub fn figure(&self) -> usize
        ensures { result ≡ (told self.now).figure }
    {
        match *self {
            ReplayStop::Uneven { length: figure }
            | ReplayStop::NoCommand { at: figure }
            | ReplayStop::NoProduction { at: figure }
            | ReplayStop::TooFew { at: figure }
            | ReplayStop::WrongCategory { at: figure }
            | ReplayStop::TooLong { at: figure }
            | ReplayStop::NotOne { yields: figure }
            | ReplayStop::NoRoom { tokens: figure } => figure,
            ReplayStop::NotStart { category } => usize::from(category),
        }
    }

    // The stop in words, which its figure ends.
    fn reason(&self) -> &'static str
        ensures { result.now ≡ what self.now }
    {
        match self {
            ReplayStop::Uneven { .. } => "the list is not of whole commands; its bytes are",
            ReplayStop::NoCommand { .. } => "no command begins with the byte at",
            ReplayStop::NoProduction { .. } =>
                "the grammar has no such production, in the command at byte",
            ReplayStop::TooFew { .. } =>
                "fewer yields are stacked than there are arguments, for the command at byte",
            ReplayStop::WrongCategory { .. } =>
                "an argument is of another category, for the command at byte",
            ReplayStop::TooLong { .. } =>
                "the stack would hold too many tokens, after the command at byte",
            ReplayStop::NotOne { .. } => "one yield should be left, and not",
            ReplayStop::NotStart { .. } =>
                "the yield is not of the start category, but of category",
            ReplayStop::NoRoom { .. } => "the output is smaller than the phrase, whose tokens are",
        }
    }
}

impl fmt::Display for ReplayStop {
    ghost output = { λ s. Some (words_of s) };

    fn fmt<W: fmt::Write>(&self, f: &mut fmt::Formatter<W>) -> fmt::Result {
        let number = self.number();
        let figure = self.figure();
        let reason = self.reason();
        write!(f, "stop {number}: {reason} {figure}")
    }
}
