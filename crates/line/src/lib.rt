// The line that is keyed token by token, and the phrase that it is sealed into.
#![tactic(auto)]

pub mod line;
pub mod run;
pub mod stop;
#[cfg(test)]
mod tests;

pub use line::{LINE_ROOM, Line, Phrase};
pub use run::{Call, Held, Ran, Refusal, run_calls};
pub use stop::LineStop;
