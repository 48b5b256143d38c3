// The commands of a pack, taken off its front one at a time.
ghost use Rattle.std.specs.Prelude.{◌≡◌, Ok, Err, MatchResult};
ghost use Rattle.grammar.specs.Commands.{next_of, wide, is_end};

// The operands of a PRODUCTION: the arity says how many of the three arguments count.
// Three fields and no array, since a clause sees an array as a list of any length.
#[derive(Clone, Copy)]
pub struct Operands {
    pub category: u8,
    pub weight: u16,
    pub arity: u8,
    pub first: u8,
    pub second: u8,
    pub third: u8,
}

#[derive(Clone, Copy)]
pub enum Command {
    Kind { kind: u8 },
    Category { dimension: u8 },
    Start { category: u8 },
    Production(Operands),
    Constituent,
    Token { token: u16 },
    Part { argument: u8, constituent: u8 },
    End,
}

#[derive(Clone, Copy)]
pub enum Unread {
    // The pack ends before the command does, or before any command.
    Incomplete,
    // The first byte is no command's.
    Unknown,
}

impl Command {
    pub fn is_end(&self) -> bool
        ensures { result ≡ is_end self.now }
    {
        matches!(self, Command::End)
    }
}

// A number of two bytes, the high one first.
fn wide_of(high: u8, low: u8) -> u16
    ensures { result ≡ wide high low }
{
    u16::from_be_bytes([high, low])
}

// The first command of the pack with what is behind it, or why there is none.
pub fn next_command(pack: &[u8]) -> Result<(Command, &[u8]), Unread>
    ensures { MatchResult result (λ p. next_of pack.now ≡ Ok (p.0, p.1.now)) (λ e. next_of pack.now ≡ Err e) }
{
    match pack {
        [0x01, kind, rest @ ..] => Ok((Command::Kind { kind: *kind }, rest)),
        [0x02, dimension, rest @ ..] => Ok((
            Command::Category {
                dimension: *dimension,
            },
            rest,
        )),
        [0x03, category, rest @ ..] => Ok((
            Command::Start {
                category: *category,
            },
            rest,
        )),
        [
            0x04,
            category,
            weight_high,
            weight_low,
            arity,
            first,
            second,
            third,
            rest @ ..,
        ] => Ok((
            Command::Production(Operands {
                category: *category,
                weight: wide_of(*weight_high, *weight_low),
                arity: *arity,
                first: *first,
                second: *second,
                third: *third,
            }),
            rest,
        )),
        [0x05, rest @ ..] => Ok((Command::Constituent, rest)),
        [0x06, token_high, token_low, rest @ ..] => Ok((
            Command::Token {
                token: wide_of(*token_high, *token_low),
            },
            rest,
        )),
        [0x07, argument, constituent, rest @ ..] => Ok((
            Command::Part {
                argument: *argument,
                constituent: *constituent,
            },
            rest,
        )),
        [0x08, rest @ ..] => Ok((Command::End, rest)),
        [] | [0x01..=0x08, ..] => Err(Unread::Incomplete),
        _ => Err(Unread::Unknown),
    }
}
