// A symbol of a constituent: one token, or a constituent of an argument, both counted from 1.
ghost use Rattle.std.specs.Prelude.{◌≡◌, Some};
ghost use Rattle.grammar.specs.Printed.{symbol_text};
ghost use Rattle.grammar.specs.declared.symbol.Symbol.TheVariants.{Token};

use std::fmt;

#[derive(Clone, Copy, PartialEq, Eq, Debug)]
pub enum Symbol {
    Token(u16),
    Part { argument: u8, constituent: u8 },
}

// What fills the unused places of a constituent.
impl Default for Symbol {
    ghost is_default = { λ s. s ≡ Token 0 };

    fn default() -> Symbol {
        Symbol::Token(0)
    }
}

// As 10 for a token, and <1;2> for constituent 2 of argument 1.
impl fmt::Display for Symbol {
    ghost output = { λ s. Some (symbol_text s) };

    fn fmt<W: fmt::Write>(&self, f: &mut fmt::Formatter<W>) -> fmt::Result {
        match self {
            Symbol::Token(token) => write!(f, "{token}"),
            Symbol::Part {
                argument,
                constituent,
            } => write!(f, "<{argument};{constituent}>"),
        }
    }
}
