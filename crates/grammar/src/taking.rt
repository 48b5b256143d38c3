// A grammar from its pack, in one pass.
ghost use Rattle.std.specs.Prelude.{◌≡◌, Ok, Err, MatchResult};
ghost use Rattle.grammar.specs.Commands.{Bytes};
ghost use Rattle.grammar.specs.Drafts.{Between, model_of};
ghost use Rattle.grammar.specs.Loaders.{draft_of};
ghost use Rattle.grammar.specs.Loads.{load_of, unread};
ghost use Rattle.grammar.specs.Model.{model};
ghost use Rattle.grammar.specs.Stops.{told};
ghost use Rattle.grammar.specs.Theorems.{Loaded, Packing};

use crate::command::{Unread, next_command};
use crate::held::Grammar;
use crate::loader::Loader;
use crate::stops::PackStop;

impl Unread {
    // The stop that it is at this offset.
    fn stop(self, at: usize) -> PackStop
        ensures { told result ≡ unread at self }
    {
        match self {
            Unread::Incomplete => PackStop::Incomplete { at },
            Unread::Unknown => PackStop::Unknown { at },
        }
    }
}

// What the whole pack leads to.
#[tactic(auto, using(crate::proofs::Typed::typed_bytes))]
fn take_all(pack: &[u8]) -> Result<Loader, PackStop>
    ensures value { MatchResult result (λ l. (l.stage ≡ Between) × (load_of pack.now ≡ Ok (model_of (draft_of l)))) (λ e. load_of pack.now ≡ Err (told e)) }
    ensures bytes { Bytes pack.now }
{
    let mut loader = Loader::new();
    let mut rest = pack;
    loop {
        let at = pack.len() - rest.len();
        let (command, more) = next_command(rest).map_err(|reason| reason.stop(at))?;
        loader.take(at, command)?;
        if command.is_end() {
            if more.is_empty() {
                return Ok(loader);
            }
            return Err(PackStop::Trailing {
                at: pack.len() - more.len(),
            });
        }
        rest = more;
    }
}

// The grammar that the pack is the encoding of, or the one stop that it meets.
#[tactic(auto, using(crate::proofs::Answering::packing))]
pub fn load(pack: &[u8]) -> Result<Grammar, PackStop>
    ensures value { MatchResult result (λ g. load_of pack.now ≡ Ok (model g)) (λ e. load_of pack.now ≡ Err (told e)) }
    ensures law { Loaded pack.now result }
    ensures packing { Packing }
{
    Ok(take_all(pack)?.finish())
}
