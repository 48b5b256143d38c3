// A whole command list, run from its last command to its first, and the phrase that it leaves.
ghost use Rattle.std.specs.Prelude.{◌≡◌, ◌%◌, length, Ok, Err, MatchResult};
ghost use Rattle.grammar.specs.Held.{production_model};
ghost use Rattle.grammar.specs.Model.{model};
ghost use Rattle.replay.specs.Laws.{Gives, Replayed};
ghost use Rattle.replay.specs.Replays.{replay_of, run};
ghost use Rattle.replay.specs.Stacks.{Names, Unnamed, stack_of};
ghost use Rattle.replay.specs.Stops.{told};

use crate::stack::Stack;
use crate::stops::ReplayStop;
use grammar::{Grammar, Production};

// The first byte of every command; the production's number follows, the high byte first.
const COMMAND: u8 = 0x10;

// The production that the command at this offset names.
fn named(grammar: &Grammar, command: [u8; 3], at: usize) -> Result<&Production, ReplayStop>
    ensures { MatchResult result (λ p. Names (model grammar.now) command at (production_model p.now)) (λ e. Unnamed (model grammar.now) command at (told e)) }
{
    let [COMMAND, high, low] = command else {
        return Err(ReplayStop::NoCommand { at });
    };
    let number = usize::from(u16::from_be_bytes([high, low]));
    grammar
        .productions()
        .get(number)
        .ok_or(ReplayStop::NoProduction { at })
}

// What the commands leave on the stack.
fn run_all(grammar: &Grammar, commands: &[u8]) -> Result<Stack, ReplayStop>
    requires { length commands.now % 3 ≡ 0 }
    ensures { MatchResult result (λ s. run (model grammar.now) 0 commands.now ≡ Ok (stack_of s)) (λ e. run (model grammar.now) 0 commands.now ≡ Err (told e)) }
{
    let mut stack = Stack::new();
    let mut rest = commands;
    while let Some((before, command)) = rest.split_last_chunk() {
        let at = before.len();
        let production = named(grammar, *command, at)?;
        stack.perform(production, at)?;
        rest = before;
    }
    Ok(stack)
}

// Runs the commands on a stack of yields, from the last to the first, and writes the phrase that is left to the front of the output.
#[tactic(auto, using(crate::proofs::Answering::law_of))]
pub fn replay(grammar: &Grammar, commands: &[u8], output: &mut [u16]) -> Result<usize, ReplayStop>
    ensures value { Gives (replay_of (model grammar.now) commands.now (length output.old)) result output.old output.new }
    ensures law { Replayed (model grammar.now) commands.now output.old output.new result }
{
    if commands.len() % 3 != 0 {
        return Err(ReplayStop::Uneven {
            length: commands.len(),
        });
    }
    let stack = run_all(grammar, commands)?;
    let phrase = stack.phrase(grammar.start())?;
    let tokens = phrase.len();
    if output.len() < tokens {
        return Err(ReplayStop::NoRoom { tokens });
    }
    output[..tokens].copy_from_slice(phrase);
    Ok(tokens)
}
