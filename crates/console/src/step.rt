// What a line of a script asks for.
ghost use Rattle.std.specs.Prelude.{◌≡◌, MatchOption, Some};
ghost use Rattle.std.specs.Result.{result_ok};
ghost use Rattle.console.specs.Decimal.{number_of};
ghost use Rattle.console.specs.Steps.{AsksFor, NoWord, Parsed, Wordless, blank, most};
ghost use Rattle.console.specs.Texts.{fault_text};
ghost use Rattle.console.specs.declared.step.ParseError.TheVariants as error;

use crate::decimal::number_of;
use crate::hex::bytes_of;
use line::Call;
use std::alloc::{AllocError, Global};
use std::fmt;

#[derive(Drop)]
pub enum Step {
    // Nothing is asked and nothing is printed.
    Blank,
    // The line is printed as it is.
    Comment,
    Pack(Vec<u8>),
    Grammar,
    Room(u16),
    Replay(Vec<u8>),
    // A call on the line or the phrase.
    Call(Call),
}

// Why a line asks for nothing.
#[derive(Clone, Copy, PartialEq, Eq, Debug)]
pub enum Fault {
    UnknownCommand,
    NoBytes,
    // The operand is no number, or above this one.
    NoNumber(u32),
}

impl fmt::Display for Fault {
    ghost output = { λ f. Some (fault_text f) };

    fn fmt<W: fmt::Write>(&self, f: &mut fmt::Formatter<W>) -> fmt::Result {
        match *self {
            Fault::UnknownCommand => write!(f, "no such command"),
            Fault::NoBytes => write!(
                f,
                "the operands are bytes, two lowercase hexadecimal digits each, with one space between them"
            ),
            Fault::NoNumber(most) => write!(f, "the operand is a number from 0 to {most}"),
        }
    }
}

// Why no step is taken from a line.
#[derive(Drop)]
pub(crate) enum ParseError {
    Fault(Fault),
    OutOfMemory(AllocError),
}

// Both conversions are by hand, so that a clause knows which case a `?` makes.
impl From<Fault> for ParseError {
    ghost from_gives = { λ f e. e ≡ error.Fault f };

    fn from(fault: Fault) -> ParseError {
        ParseError::Fault(fault)
    }
}

impl From<AllocError> for ParseError {
    ghost from_gives = { λ a e. e ≡ error.OutOfMemory a };

    fn from(error: AllocError) -> ParseError {
        ParseError::OutOfMemory(error)
    }
}

// A line is blank if it has no byte but spaces and tabs.
fn is_blank(line: &[u8]) -> bool
    ensures { result ≡ blank line.now }
{
    line.iter().all(|c| matches!(*c, b' ' | b'\t'))
}

// The command of a word that stands alone.
fn parse_word(line: &[u8]) -> Option<Step>
    ensures { MatchOption result (NoWord line.now) (λ t. AsksFor line.now t) }
{
    match line {
        b"grammar" => Some(Step::Grammar),
        b"rub" => Some(Step::Call(Call::Rub)),
        b"wipe" => Some(Step::Call(Call::Wipe)),
        b"seal" => Some(Step::Call(Call::Seal)),
        b"reopen" => Some(Step::Call(Call::Reopen)),
        _ => None,
    }
}

// The operand of `key` and of `room`.
fn number(text: &[u8]) -> Result<u16, Fault>
    ensures { result_ok result ≡ number_of most text.now }
{
    number_of(text).ok_or(Fault::NoNumber(u32::from(u16::MAX)))
}

// A command with operands: its word, and what stands behind it.
fn parse_operands(heap: Global, line: &[u8]) -> Result<Step, ParseError>
    requires { Wordless line.now }
    ensures { Parsed line.now result }
{
    if let Some(text) = line.strip_prefix(b"pack") {
        let bytes = bytes_of(heap, text)?.ok_or(Fault::NoBytes)?;
        return Ok(Step::Pack(bytes));
    }
    if let Some(text) = line.strip_prefix(b"replay") {
        let commands = bytes_of(heap, text)?.ok_or(Fault::NoBytes)?;
        return Ok(Step::Replay(commands));
    }
    if let Some(text) = line.strip_prefix(b"key ") {
        return Ok(Step::Call(Call::Key(number(text)?)));
    }
    if let Some(text) = line.strip_prefix(b"room ") {
        return Ok(Step::Room(number(text)?));
    }
    Err(ParseError::Fault(Fault::UnknownCommand))
}

pub(crate) fn parse(heap: Global, line: &[u8]) -> Result<Step, ParseError>
    ensures { Parsed line.now result }
{
    if is_blank(line) {
        return Ok(Step::Blank);
    }
    if line.starts_with(b"#") {
        return Ok(Step::Comment);
    }
    // No `ok_or`, since the other way may fail by itself.
    match parse_word(line) {
        Some(step) => Ok(step),
        None => parse_operands(heap, line),
    }
}
