// Best-first deduction: the theorems that a search by an agenda rests on, each in the contract of a function.
#![tactic(auto)]

pub mod counting;
pub mod search;
