// Odds: weights that multiply up to four thousand million.
use crate::number::Number;

pub mod weighing;

// Weights whose numbers multiply.
pub struct Multiplying;

pub type Odds = Number<Multiplying>;
