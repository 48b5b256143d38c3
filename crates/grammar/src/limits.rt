// The limits of a pack, each number said once.

// How many categories a grammar has at most.
pub const MOST_CATEGORIES: usize = 32;

// How many productions a grammar has at most.
pub const MOST_PRODUCTIONS: usize = 128;

// How many symbols a constituent has at most.
pub const MOST_SYMBOLS: usize = 8;

// How many constituents a category has at most.
pub const MOST_DIMENSION: usize = 2;

// How many arguments a production has at most.
pub const MOST_ARITY: usize = 3;

// The byte of an argument that is not used: the format says so, hence no Option.
pub(crate) const UNUSED: u8 = 255;
