// The texts that the console prints.
ghost use Rattle.std.specs.Prelude.{◌≡◌, ℕ, List, [], ◌++◌, length, IfOk, if◌then◌else◌, Err, string_bytes, OnOk, nat_eq};
ghost use Rattle.replay.specs.Replays.{replay_of};
ghost use Rattle.console.specs.Lists.{Appends};
ghost use Rattle.console.specs.Texts.{argument_text, category_text, constituent_text, content_text, figure_text, grammar_text, listed, no_pack, pack_text, played_text, production_text, reply_text, room_text, stop_text, symbol_text, token_text, tokens_text};
ghost use Rattle.grammar.specs.Entries.{entries};
ghost use Rattle.grammar.specs.Held.{production_model};
ghost use Rattle.grammar.specs.Model.{model};
ghost use Rattle.grammar.specs.Stops.{told};
ghost use Rattle.line.specs.Runs.{Content, content_of, reply};

use grammar::{Constituent, Grammar, PackStop, Production, Symbol};
use line::{Held, Refusal};
use replay::replay;
use std::alloc::{AllocError, Global};

pub(crate) fn stop_line(heap: Global, stop: &PackStop) -> Result<String, AllocError>
    ensures { IfOk result (λ s. string_bytes s ≡ stop_text (told stop.now)) }
{
    let number = stop.number();
    let figure = stop.figure();
    let layer = stop.layer();
    format!(in heap; "stop {number} figure {figure} layer {layer}\n")
}

pub(crate) fn pack_line(heap: Global, grammar: &Grammar) -> Result<String, AllocError>
    ensures { IfOk result (λ s. string_bytes s ≡ pack_text (model grammar.now)) }
{
    let kind = grammar.kind();
    let categories = grammar.dimensions().len();
    let start = grammar.start();
    let productions = grammar.productions().len();
    format!(in heap;
        "pack kind {kind} categories {categories} start {start} productions {productions}\n"
    )
}

// What stands before entry i of a list: nothing before the first.
fn separator(i: usize, text: &'static str) -> &'static str
    ensures { result.now ≡ (if nat_eq i 0 then [] else text.now) }
{
    if i == 0 { "" } else { text }
}

// Appends the entries of a list, one after another. Each function that appends says what: that relates two states of the text, so no type can say it.
fn push_each<T, F>(out: &mut String, entries: &[T], push: F) -> Result<(), AllocError>
where
    F: Fn(&mut String, usize, &T) -> Result<(), AllocError>,
    requires { F.IsAlwaysCallable push }
    ensures { (spell : ℕ → T → List ℕ) → Appends (F.post push) spell → OnOk result (string_bytes out.new ≡ string_bytes out.old ++ listed spell 0 entries.now) }
{
    for (i, entry) in entries.iter().enumerate() {
        push(out, i, entry)?;
    }
    Ok(())
}

fn push_symbol(out: &mut String, i: usize, symbol: &Symbol) -> Result<(), AllocError>
    ensures { OnOk result (string_bytes out.new ≡ string_bytes out.old ++ symbol_text i symbol.now) }
{
    write!(out, " {symbol}")
}

// A stroke stands between two constituents.
fn push_constituent(out: &mut String, i: usize, constituent: &Constituent) -> Result<(), AllocError>
    ensures { OnOk result (string_bytes out.new ≡ string_bytes out.old ++ constituent_text i (entries constituent.now)) }
{
    out.push_str(separator(i, " /"))?;
    push_each(out, constituent.items(), push_symbol)
}

// A space stands between two arguments.
fn push_argument(out: &mut String, i: usize, argument: &u8) -> Result<(), AllocError>
    ensures { OnOk result (string_bytes out.new ≡ string_bytes out.old ++ argument_text i argument.now) }
{
    let between = separator(i, " ");
    write!(out, "{between}{argument}")
}

fn push_production(out: &mut String, i: usize, production: &Production) -> Result<(), AllocError>
    ensures { OnOk result (string_bytes out.new ≡ string_bytes out.old ++ production_text i (production_model production.now)) }
{
    let category = production.category();
    let weight = production.weight();
    write!(out, "production {i}: {category} <- {weight} [")?;
    push_each(out, production.arguments(), push_argument)?;
    out.push_str("]")?;
    push_each(out, production.constituents(), push_constituent)?;
    writeln!(out)
}

fn push_category(out: &mut String, i: usize, dimension: &u8) -> Result<(), AllocError>
    ensures { OnOk result (string_bytes out.new ≡ string_bytes out.old ++ category_text i dimension.now) }
{
    writeln!(out, "category {i} dimension {dimension}")
}

// The held grammar, a line for each of its parts.
pub(crate) fn grammar_lines(heap: Global, grammar: &Grammar) -> Result<String, AllocError>
    ensures { IfOk result (λ s. string_bytes s ≡ grammar_text (model grammar.now)) }
{
    let kind = grammar.kind();
    let start = grammar.start();
    let mut out = format!(in heap; "kind {kind}\n")?;
    push_each(&mut out, grammar.dimensions(), push_category)?;
    writeln!(out, "start {start}")?;
    push_each(&mut out, grammar.productions(), push_production)?;
    Ok(out)
}

// As for a symbol, but one for both would have to say what any `Display` writes.
fn push_token(out: &mut String, i: usize, token: &u16) -> Result<(), AllocError>
    ensures { OnOk result (string_bytes out.new ≡ string_bytes out.old ++ token_text i token.now) }
{
    write!(out, " {token}")
}

// A word, and the tokens behind it.
pub(crate) fn tokens_line(heap: Global, word: &str, tokens: &[u16]) -> Result<String, AllocError>
    ensures { IfOk result (λ s. string_bytes s ≡ tokens_text word.now tokens.now) }
{
    let mut out = String::from_str(heap, word)?;
    push_each(&mut out, tokens, push_token)?;
    writeln!(out)?;
    Ok(out)
}

pub(crate) fn figure_line(heap: Global, number: u8, figure: usize) -> Result<String, AllocError>
    ensures { IfOk result (λ s. string_bytes s ≡ figure_text number figure) }
{
    format!(in heap; "stop {number} figure {figure}\n")
}

// What is held, as a line or as a phrase.
pub(crate) fn held_line(heap: Global, held: &Held) -> Result<String, AllocError>
    ensures { IfOk result (λ s. string_bytes s ≡ content_text (content_of held.now)) }
{
    match held {
        Held::Open(line) => tokens_line(heap, "line", line.tokens()),
        Held::Sealed(phrase) => tokens_line(heap, "phrase", phrase.tokens()),
    }
}

fn refusal_line(heap: Global, refusal: Refusal) -> Result<String, AllocError>
    ensures { IfOk result (λ s. (k : Content) → string_bytes s ≡ reply_text (reply (Err refusal)) k) }
{
    match refusal {
        Refusal::Stopped(stop) => figure_line(heap, stop.number(), stop.figure()),
        Refusal::IsSealed => String::from_str(heap, "refused: the line is sealed\n"),
        Refusal::NotSealed => String::from_str(heap, "refused: the line is not sealed\n"),
    }
}

// The answer to a call on what is held.
pub(crate) fn reply_line(
    heap: Global,
    answer: Result<(), Refusal>,
    held: &Held,
) -> Result<String, AllocError>
    ensures { IfOk result (λ s. string_bytes s ≡ reply_text (reply answer) (content_of held.now)) }
{
    match answer {
        Ok(()) => held_line(heap, held),
        Err(refusal) => refusal_line(heap, refusal),
    }
}

pub(crate) fn room_line(heap: Global, room: u16) -> Result<String, AllocError>
    ensures { IfOk result (λ s. string_bytes s ≡ room_text room) }
{
    format!(in heap; "room {room}\n")
}

// The phrase that a command list is replayed to, over a lent output.
pub(crate) fn played_line(
    heap: Global,
    grammar: &Grammar,
    commands: &[u8],
    output: &mut [u16],
) -> Result<String, AllocError>
    ensures { IfOk result (λ s. string_bytes s ≡ played_text (replay_of (model grammar.now) commands.now (length output.old))) }
{
    match replay(grammar, commands, output) {
        Ok(length) => tokens_line(heap, "phrase", &output[0..length]),
        Err(stop) => figure_line(heap, stop.number(), stop.figure()),
    }
}

pub(crate) fn no_pack_line(heap: Global) -> Result<String, AllocError>
    ensures { IfOk result (λ s. string_bytes s ≡ no_pack) }
{
    String::from_str(heap, "refused: no pack is loaded\n")
}
