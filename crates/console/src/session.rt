// What a session holds.
mod calls;

use grammar::Grammar;
use line::Held;

#[derive(Drop)]
pub struct Session {
    // The pack that was taken last.
    grammar: Option<Grammar>,
    // The line, or the phrase that it is sealed into.
    held: Held,
    // How many tokens of output a replay is lent.
    room: u16,
}
