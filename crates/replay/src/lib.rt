// Replaying: a command list run on a stack of yields, back to the phrase that it was read from.
#![tactic(auto)]

mod pile;
mod replaying;
mod shape;
mod stack;
pub mod stops;

pub use replaying::replay;
pub use stops::ReplayStop;
