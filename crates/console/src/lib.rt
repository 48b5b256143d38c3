// The console: a script, line by line, and what each line prints.
#![tactic(auto)]

mod decimal;
mod hex;
mod script;
pub mod session;
pub mod step;
mod text;

pub use script::drive;
pub use session::Session;
pub use step::Step;
