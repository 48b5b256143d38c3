// Whether a production's constituents are filled, and name every constituent of its arguments.
ghost use Rattle.std.specs.Prelude.{◌≡◌, suc, ◌+◌, map};
ghost use Rattle.grammar.specs.Checks.{all, all_below, any, has_some, is_part, named, names_all};
ghost use Rattle.grammar.specs.Entries.{entries};
ghost use Rattle.grammar.specs.Grammars.{dimension};

use crate::production::Constituent;
use crate::symbol::Symbol;

// Each has a symbol.
pub(crate) fn each_has_some(constituents: &[Constituent]) -> bool
    ensures { result ≡ all has_some (map entries constituents.now) }
{
    constituents
        .iter()
        .all(|constituent| !constituent.items().is_empty())
}

// By hand and not by `==`, since k and l are counts and a part's numbers are bytes.
fn is_part(symbol: Symbol, k: usize, l: usize) -> bool
    ensures { result ≡ is_part k l symbol }
{
    match symbol {
        Symbol::Token(_) => false,
        Symbol::Part {
            argument,
            constituent,
        } => usize::from(argument) == k && usize::from(constituent) == l,
    }
}

fn some_part(symbols: &[Symbol], k: usize, l: usize) -> bool
    ensures { result ≡ any (is_part k l) symbols.now }
{
    symbols.iter().any(|symbol| is_part(*symbol, k, l))
}

fn names(constituents: &[Constituent], k: usize, l: usize) -> bool
    ensures { result ≡ named k l (map entries constituents.now) }
{
    constituents
        .iter()
        .any(|constituent| some_part(constituent.items(), k, l))
}

// Constituents 1 to `dimension` of argument k are named.
fn names_argument(constituents: &[Constituent], k: usize, dimension: u8) -> bool
    ensures { result ≡ all_below dimension (λ j. named k (suc j) (map entries constituents.now)) }
{
    // `as` and not `usize::from`, with which the check finds no proof of the chain.
    (0..dimension).all(|j| names(constituents, k, j as usize + 1))
}

// The dimension of a category, 0 where there is no such category, as the definition has it.
pub(crate) fn dimension_of(dimensions: &[u8], category: u8) -> u8
    ensures { result ≡ dimension dimensions.now category }
{
    dimensions.get(usize::from(category)).copied().unwrap_or(0)
}

// Every constituent of every argument is named.
pub(crate) fn names_each(dimensions: &[u8], arguments: &[u8], constituents: &[Constituent]) -> bool
    ensures { result ≡ names_all dimensions.now arguments.now (map entries constituents.now) }
{
    arguments.iter().enumerate().all(|(i, category)| {
        names_argument(constituents, i + 1, dimension_of(dimensions, *category))
    })
}
