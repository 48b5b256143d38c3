// The production that is open, and what its operands must be.
ghost use Rattle.std.specs.Prelude.{◌≡◌, ◌+◌, ◌<◌, ◌≤◌, [], ◌∷◌, ◌++◌, length, take};
ghost use Rattle.grammar.specs.Checks.{argument_fits, part_fits, production_fits};
ghost use Rattle.grammar.specs.Entries.{entries};
ghost use Rattle.grammar.specs.Held.{production_model};
ghost use Rattle.grammar.specs.Limits.{most_dimension, most_symbols};
ghost use Rattle.grammar.specs.Lists.{all_but_last, last_or};
ghost use Rattle.grammar.specs.Loaders.{bare, with_constituents};

use crate::command::Operands;
use crate::filling::dimension_of;
use crate::limits::{MOST_ARITY, UNUSED};
use crate::production::{Constituent, Production};
use crate::row::Row;
use crate::symbol::Symbol;

// Argument number i, from 0, is a known category, or UNUSED where the arity leaves it so.
fn argument_fits(known: usize, arity: u8, i: u8, argument: u8) -> bool
    ensures { result ≡ argument_fits known arity i argument }
{
    if i < arity {
        usize::from(argument) < known
    } else {
        argument == UNUSED
    }
}

impl Operands {
    // They are as they must be, where so many categories are known.
    pub(crate) fn fit(&self, known: usize) -> bool
        ensures { result ≡ production_fits known self.now }
    {
        usize::from(self.category) < known
            && 0 < self.weight
            && usize::from(self.arity) <= MOST_ARITY
            && argument_fits(known, self.arity, 0, self.first)
            && argument_fits(known, self.arity, 1, self.second)
            && argument_fits(known, self.arity, 2, self.third)
    }

    // The arguments that count.
    fn arguments(&self) -> Row<u8, MOST_ARITY>
        ensures { entries result ≡ take self.now.arity (self.now.first ∷ self.now.second ∷ self.now.third ∷ []) }
    {
        Row::front(
            [self.first, self.second, self.third],
            usize::from(self.arity),
        )
    }
}

impl Production {
    // None of its constituents is open.
    pub(crate) fn new(operands: Operands) -> Production
        ensures { production_model result ≡ bare operands }
    {
        Production {
            category: operands.category,
            weight: operands.weight,
            arguments: operands.arguments(),
            constituents: Row::default(),
        }
    }

    // Opens its next constituent.
    pub(crate) fn open_constituent(&mut self)
        requires { length (entries self.old.constituents) < most_dimension }
        ensures { production_model self.new ≡ with_constituents (production_model self.old) ((production_model self.old).constituents ++ [] ∷ []) }
    {
        self.constituents.push(Constituent::default());
    }

    // Adds a symbol to its last constituent.
    pub(crate) fn add_symbol(&mut self, symbol: Symbol)
        requires some { 1 ≤ length (entries self.old.constituents) }
        requires room { length (last_or [] (production_model self.old).constituents) < most_symbols }
        ensures { production_model self.new ≡ with_constituents (production_model self.old)
            (all_but_last (production_model self.old).constituents ++ (last_or [] (production_model self.old).constituents ++ symbol ∷ []) ∷ []) }
    {
        let last = self.constituents.len() - 1;
        self.constituents.push_at(last, symbol);
    }

    // The operands of a PART.
    pub(crate) fn part_fits(&self, dimensions: &[u8], argument: u8, constituent: u8) -> bool
        ensures { result ≡ part_fits dimensions.now (entries self.now.arguments) argument constituent }
    {
        if argument == 0 || constituent == 0 {
            return false;
        }
        match self.arguments.items().get(usize::from(argument) - 1) {
            Some(&category) => constituent <= dimension_of(dimensions, category),
            None => false,
        }
    }
}
