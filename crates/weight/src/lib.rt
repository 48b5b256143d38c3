// Weight kinds: what a kind is, the two kinds at hand, and what values of every kind can do.
#![tactic(auto)]

pub mod combining;
pub mod number;
pub mod odds;
pub mod sums;
pub mod weight;
