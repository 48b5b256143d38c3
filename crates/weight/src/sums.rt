// Sums: weights that add up to a thousand million.
use crate::number::Number;

pub mod weighing;

// Weights whose numbers add.
pub struct Adding;

pub type Sums = Number<Adding>;
