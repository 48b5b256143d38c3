// What a stop tells.
ghost use Rattle.std.specs.Prelude.{◌≡◌, Some};
ghost use Rattle.grammar.specs.Printed.{layer_text, reason_text, stop_text};
ghost use Rattle.grammar.specs.Stops.{told};

use crate::stops::{Layer, PackStop};
use std::fmt;

// Number and figure are a match of its own in each crate that has stops, since the cases are its own.
impl PackStop {
    pub fn number(&self) -> u8
        ensures { result ≡ (told self.now).number }
    {
        match self {
            PackStop::Incomplete { .. } => 1,
            PackStop::Unknown { .. } => 2,
            PackStop::Misplaced { .. } => 3,
            PackStop::TooMany { .. } => 4,
            PackStop::BadOperand { .. } => 5,
            PackStop::Unfilled { .. } => 6,
            PackStop::Unnamed { .. } => 7,
            PackStop::BadStart { .. } => 8,
            PackStop::Trailing { .. } => 9,
        }
    }

    // An arm for each stop, as the table of stops has a row for each.
    pub fn figure(&self) -> usize
        ensures { result ≡ (told self.now).figure }
    {
        match *self {
            PackStop::Incomplete { at } => at,
            PackStop::Unknown { at } => at,
            PackStop::Misplaced { at } => at,
            PackStop::TooMany { at } => at,
            PackStop::BadOperand { at } => at,
            PackStop::Unfilled { production } => production,
            PackStop::Unnamed { production } => production,
            PackStop::BadStart { at } => at,
            PackStop::Trailing { at } => at,
        }
    }

    pub fn layer(&self) -> Layer
        ensures { result ≡ (told self.now).layer }
    {
        match self {
            PackStop::Incomplete { .. } | PackStop::Unknown { .. } => Layer::Reader,
            _ => Layer::Grammar,
        }
    }

    // What it is about.
    fn reason(&self) -> &'static str
        ensures { result.now ≡ reason_text self.now }
    {
        match self {
            PackStop::Incomplete { .. } => "the pack ends before its command at byte",
            PackStop::Unknown { .. } => "no command begins with the byte at",
            PackStop::Misplaced { .. } => "a command is not allowed at this stage, at byte",
            PackStop::TooMany { .. } => "a limit is exceeded at byte",
            PackStop::BadOperand { .. } => "an operand is out of range, in the command at byte",
            PackStop::Unfilled { .. } =>
                "a constituent is missing or empty, of the production at byte",
            PackStop::Unnamed { .. } =>
                "an argument's constituent is never named, in the production at byte",
            PackStop::BadStart { .. } => "the start category is unknown or of dimension 2, at byte",
            PackStop::Trailing { .. } => "bytes follow the end, from byte",
        }
    }
}

impl fmt::Display for Layer {
    ghost output = { λ l. Some (layer_text l) };

    fn fmt<W: fmt::Write>(&self, f: &mut fmt::Formatter<W>) -> fmt::Result {
        match self {
            Layer::Reader => write!(f, "reader"),
            Layer::Grammar => write!(f, "grammar"),
        }
    }
}

impl fmt::Display for PackStop {
    ghost output = { λ s. Some (stop_text s) };

    fn fmt<W: fmt::Write>(&self, f: &mut fmt::Formatter<W>) -> fmt::Result {
        let number = self.number();
        let reason = self.reason();
        let figure = self.figure();
        write!(f, "stop {number}: {reason} {figure}")
    }
}
