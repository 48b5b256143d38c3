// Calls told by name, made one after another on one line, which may be sealed and reopened between them.
ghost use Rattle.std.specs.Prelude.{◌≡◌, ◌+◌, ◌≤◌, length};
ghost use Rattle.line.specs.Room.{room};
ghost use Rattle.line.specs.Runs.{Past, HeldOf, content_of, tokens_in, after, reply, replied, made, spelled, stops_in, calls_in};

use crate::line::{Line, Phrase};
use crate::stop::LineStop;

// A call on a line, or, with `Reopen`, on a phrase.
#[derive(Clone, Copy, PartialEq, Eq, Debug)]
pub enum Call {
    Key(u16),
    Rub,
    Wipe,
    Seal,
    Reopen,
}

// What is at hand: a line while it is open, a phrase once it is sealed.
#[derive(Drop)]
pub enum Held {
    Open(Line),
    Sealed(Phrase),
}

// Why a call that is told by name is not carried out.
#[derive(Clone, Copy, PartialEq, Eq, Debug)]
pub enum Refusal {
    // It was made, and stopped.
    Stopped(LineStop),
    // It is a call on a line, and the line is sealed: there is nothing to make it on.
    IsSealed,
    // It is a call on a phrase, and the line is not sealed.
    NotSealed,
}

// What a run of calls leaves, and how many of them were stopped or could not be made.
#[derive(Drop)]
pub struct Ran {
    pub held: Held,
    pub stopped: usize,
    pub unmade: usize,
}

impl Held {
    // Makes the call on what is held, if it is a call on that; a call that is not leaves all as it is.
    pub fn perform(self, call: Call) -> (Held, Result<(), Refusal>)
        ensures answer { reply result.1 ≡ replied (content_of self) call }
        ensures tokens { content_of result.0 ≡ after (content_of self) call }
        ensures law { (p : Past) → HeldOf p self → HeldOf (made p call) result.0 }
    {
        match (self, call) {
            (Held::Open(mut line), Call::Key(token)) => {
                let answer = line.key(token).map_err(Refusal::Stopped);
                (Held::Open(line), answer)
            }
            (Held::Open(mut line), Call::Rub) => {
                let answer = line.rub().map_err(Refusal::Stopped);
                (Held::Open(line), answer)
            }
            (Held::Open(mut line), Call::Wipe) => {
                line.wipe();
                (Held::Open(line), Ok(()))
            }
            (Held::Open(line), Call::Seal) => (Held::Sealed(line.seal()), Ok(())),
            (Held::Open(line), Call::Reopen) => (Held::Open(line), Err(Refusal::NotSealed)),
            (Held::Sealed(phrase), Call::Reopen) => (Held::Open(phrase.reopen()), Ok(())),
            (Held::Sealed(phrase), _) => (Held::Sealed(phrase), Err(Refusal::IsSealed)),
        }
    }
}

// Makes the calls on a fresh line, in their order.
pub fn run_calls(calls: &[Call]) -> Ran
    ensures law { HeldOf (spelled calls.now) result.held }
    ensures bound { length (tokens_in (content_of result.held)) ≤ room }
    ensures stopped { result.stopped ≡ stops_in (spelled calls.now) }
    ensures unmade { result.unmade + calls_in (spelled calls.now) ≡ length calls.now }
{
    let mut held = Held::Open(Line::new());
    let mut stopped = 0;
    let mut unmade = 0;
    for call in calls {
        let (next, answer) = held.perform(*call);
        held = next;
        match answer {
            Ok(()) => {}
            Err(Refusal::Stopped(_)) => stopped += 1,
            Err(Refusal::IsSealed | Refusal::NotSealed) => unmade += 1,
        }
    }
    Ran {
        held,
        stopped,
        unmade,
    }
}
