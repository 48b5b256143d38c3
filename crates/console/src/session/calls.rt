// The answers of a session.
ghost use Rattle.std.specs.Prelude.{◌≡◌, IfOk, string_bytes, OnOk};
ghost use Rattle.console.specs.Sessions.{answer_of, call_text, fresh, kept, listing, load_text, replaying, state_after, state_of, with_content, with_grammar, with_room};
ghost use Rattle.console.specs.Texts.{room_text};
ghost use Rattle.grammar.specs.Loads.{load_of};
ghost use Rattle.line.specs.Runs.{after};

use crate::session::Session;
use crate::step::Step;
use crate::text::{
    grammar_lines, no_pack_line, pack_line, played_line, reply_line, room_line, stop_line,
};
use grammar::load;
use line::{Call, Held, Line};
use std::alloc::{AllocError, Global};
use std::mem::replace;

impl Session {
    pub fn new() -> Session
        ensures { state_of result ≡ fresh }
    {
        Session {
            grammar: None,
            held: Held::Open(Line::new()),
            // As many as a phrase has at most; a rule of the console's own.
            room: 15,
        }
    }

    // Loads a pack; one that is stopped leaves the pack held before.
    pub fn pack(&mut self, heap: Global, bytes: &[u8]) -> Result<String, AllocError>
        ensures text { IfOk result (λ s. string_bytes s ≡ load_text (load_of bytes.now)) }
        ensures state { OnOk result (state_of self.new ≡ with_grammar (state_of self.old) (kept (state_of self.old).grammar (load_of bytes.now))) }
    {
        match load(bytes) {
            Ok(grammar) => {
                let line = pack_line(heap, &grammar)?;
                self.grammar = Some(grammar);
                Ok(line)
            }
            Err(stop) => stop_line(heap, &stop),
        }
    }

    // Lists the grammar that is held.
    pub fn grammar(&self, heap: Global) -> Result<String, AllocError>
        ensures { IfOk result (λ s. string_bytes s ≡ listing (state_of self.now).grammar) }
    {
        match &self.grammar {
            Some(grammar) => grammar_lines(heap, grammar),
            None => no_pack_line(heap),
        }
    }

    // Makes a call on the line or the phrase.
    pub fn call(&mut self, heap: Global, call: Call) -> Result<String, AllocError>
        ensures text { IfOk result (λ s. string_bytes s ≡ call_text (state_of self.old).content call) }
        ensures state { state_of self.new ≡ with_content (state_of self.old) (after (state_of self.old).content call) }
    {
        // A call takes what is held by value, so a fresh line stands in for it meanwhile.
        let held = replace(&mut self.held, Held::Open(Line::new()));
        let (held, answer) = held.perform(call);
        let text = reply_line(heap, answer, &held);
        self.held = held;
        text
    }

    // How many tokens of output a replay is lent from now on.
    pub fn lend_room(&mut self, heap: Global, room: u16) -> Result<String, AllocError>
        ensures text { IfOk result (λ s. string_bytes s ≡ room_text room) }
        ensures state { state_of self.new ≡ with_room (state_of self.old) room }
    {
        self.room = room;
        room_line(heap, room)
    }

    // Replays a command list into as much output as is lent.
    pub fn replay(&self, heap: Global, commands: &[u8]) -> Result<String, AllocError>
        ensures { IfOk result (λ s. string_bytes s ≡ replaying (state_of self.now).grammar commands.now (state_of self.now).room) }
    {
        match &self.grammar {
            Some(grammar) => {
                let mut output = vec![in heap; 0; usize::from(self.room)]?;
                played_line(heap, grammar, commands, &mut output)
            }
            None => no_pack_line(heap),
        }
    }

    // What a step prints, but for the line itself.
    pub fn perform(&mut self, heap: Global, step: Step) -> Result<String, AllocError>
        ensures text { IfOk result (λ s. string_bytes s ≡ answer_of (state_of self.old) step) }
        ensures state { OnOk result (state_of self.new ≡ state_after (state_of self.old) step) }
    {
        match step {
            Step::Blank | Step::Comment => Ok(String::new(heap)),
            Step::Pack(bytes) => self.pack(heap, bytes.as_slice()),
            Step::Grammar => self.grammar(heap),
            Step::Room(room) => self.lend_room(heap, room),
            Step::Replay(commands) => self.replay(heap, commands.as_slice()),
            Step::Call(call) => self.call(heap, call),
        }
    }
}
