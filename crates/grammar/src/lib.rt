// Grammar packs: the commands, the held grammar, and the load that makes one of the other.
#![tactic(auto)]

pub mod command;
mod filling;
pub mod held;
pub mod limits;
mod loader;
pub mod production;
pub mod row;
pub mod stage;
pub mod stops;
pub mod symbol;
mod taking;
mod tokens;
mod trees;

pub use command::{Command, Operands, Unread, next_command};
pub use held::Grammar;
pub use limits::{MOST_ARITY, MOST_CATEGORIES, MOST_DIMENSION, MOST_PRODUCTIONS, MOST_SYMBOLS};
pub use production::{Constituent, Production};
pub use row::Row;
pub use stops::{Layer, PackStop};
pub use symbol::Symbol;
pub use taking::load;
pub use tokens::same_token;
pub use trees::trees_stand;
