// The strings of a production's yield, put on the tokens from the last to the first.
ghost use Rattle.std.specs.Prelude.{◌≡◌, ◌+◌, ◌≤◌, true, ◌++◌, map, length, nat_le};
ghost use Rattle.grammar.specs.Entries.{entries};
ghost use Rattle.grammar.specs.Formed.{OneOrTwo};
ghost use Rattle.grammar.specs.Trees.{piece};
ghost use Rattle.replay.specs.Piles.{items};
ghost use Rattle.replay.specs.Replays.{most_tokens, strings_on};
ghost use Rattle.replay.specs.Shapes.{StringPut, StringsPut, laid_out, total};

use crate::shape::{Lengths, Shape, place};
use crate::stack::Tokens;
use grammar::{Row, Symbol};

// Puts xs on the tokens if there is room for all of them, and answers whether there is.
fn push_all(tokens: &mut Tokens, xs: &[u16]) -> bool
    ensures test { result ≡ nat_le (length xs.now + length (items tokens.old)) most_tokens }
    ensures after { result ≡ true → items tokens.new ≡ xs.now ++ items tokens.old }
{
    if tokens.room() < xs.len() {
        return false;
    }
    for i in (0..xs.len()).rev() {
        tokens.push(xs[i]);
    }
    true
}

// Puts what a symbol gives on the tokens, if there is room for it. The arguments' tokens are at the front of `lent`, and `shapes` tells them apart.
fn push_piece(tokens: &mut Tokens, symbol: Symbol, shapes: &[Shape], lent: &[u16]) -> bool
    requires laid { total shapes.now ≤ length lent.now }
    requires most { length lent.now ≤ most_tokens }
    ensures test { result ≡ nat_le (length (piece (strings_on (laid_out shapes.now lent.now)) symbol) + length (items tokens.old)) most_tokens }
    ensures after { result ≡ true → items tokens.new ≡ piece (strings_on (laid_out shapes.now lent.now)) symbol ++ items tokens.old }
{
    match symbol {
        Symbol::Token(token) => push_all(tokens, &[token]),
        Symbol::Part {
            argument,
            constituent,
        } => {
            // A symbol counts both from 1.
            let k = usize::from(argument).saturating_sub(1);
            let l = usize::from(constituent).saturating_sub(1);
            let (start, length) = place(shapes, k, l);
            push_all(tokens, &lent[start..start + length])
        }
    }
}

// Puts the string of a constituent on the tokens, and answers its length; nothing where there is no room for it.
fn push_string(
    tokens: &mut Tokens,
    symbols: &[Symbol],
    shapes: &[Shape],
    lent: &[u16],
) -> Option<usize>
    requires laid { total shapes.now ≤ length lent.now }
    requires most { length lent.now ≤ most_tokens }
    ensures { StringPut (strings_on (laid_out shapes.now lent.now)) symbols.now (items tokens.old) (items tokens.new) result }
{
    let room = tokens.room();
    for i in (0..symbols.len()).rev() {
        if !push_piece(tokens, symbols[i], shapes, lent) {
            return None;
        }
    }
    Some(room - tokens.room())
}

// Puts the strings of all constituents on the tokens, the first topmost, and answers their lengths; nothing where there is no room for them.
pub(crate) fn push_strings(
    tokens: &mut Tokens,
    constituents: &[Row<Symbol, 8>],
    shapes: &[Shape],
    lent: &[u16],
) -> Option<Lengths>
    requires dimension { OneOrTwo (length constituents.now) }
    requires laid { total shapes.now ≤ length lent.now }
    requires most { length lent.now ≤ most_tokens }
    ensures { StringsPut (strings_on (laid_out shapes.now lent.now)) (map entries constituents.now) (items tokens.old) (items tokens.new) result }
{
    if constituents.len() == 1 {
        let length = push_string(tokens, constituents[0].items(), shapes, lent)?;
        return Some(Lengths::One(length));
    }
    let behind = push_string(tokens, constituents[1].items(), shapes, lent)?;
    let before = push_string(tokens, constituents[0].items(), shapes, lent)?;
    Some(Lengths::Two(before, behind))
}
