// Estimates: the lightest weight of each category, and what a category's way to the start weighs at least.
#![tactic(auto)]

pub mod accepted;
pub mod capped;
pub mod category;
mod chains;
pub mod entry;
pub mod estimate;
mod productions;
mod rows;
mod rules;
mod search;
pub mod trees;
pub mod weighed;

pub use accepted::AcceptedGrammar;
pub use capped::Capped;
pub use category::{Category, category_stands};
pub use entry::Entry;
pub use estimate::{Estimate, Larger, Null};
pub use rows::blank_row;
pub use trees::lightest;
pub use weighed::WeighedGrammar;
