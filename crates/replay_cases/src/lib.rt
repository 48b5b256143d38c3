// Replays with the sample pack: one that answers, each stop, and both sides of the most tokens that the stack holds.
#![tactic(auto)]

#[cfg(test)]
mod sample;
#[cfg(test)]
mod tests;
