// The lightest weights and the estimates of some packs.
#![tactic(auto)]

mod packs;
mod weighing;

ghost use Rattle.std.specs.Prelude.{◌≡◌, ◌<◌, length, slice_index_or};

use estimate::{Category, Estimate, Larger, Null};
use packs::{DEAD, SAMPLE, STEEP};
use std::io;
use weighing::weigh;
use weight::number::{Joining, Number};
use weight::odds::Multiplying;
use weight::sums::Adding;
use weight::weight::Weight;

fn main(rt: HostRuntime) -> io::Result<()> {
    print::<Adding, _>(rt, "sample, category", &SAMPLE, &Category)?;
    print::<Adding, _>(rt, "sample, null", &SAMPLE, &Null)?;
    print::<Adding, _>(rt, "sample, larger", &SAMPLE, &Larger(Null, Category))?;
    print::<Multiplying, _>(rt, "sample in odds, category", &SAMPLE, &Category)?;
    print::<Adding, _>(rt, "dead, category", &DEAD, &Category)?;
    print::<Multiplying, _>(rt, "dead in odds, category", &DEAD, &Category)?;
    print::<Multiplying, _>(rt, "steep, category", &STEEP, &Category)
}

// The number that the weight at c shows.
fn shown<W: Weight>(row: &[W], c: usize) -> u32
    requires { c < length row.now }
    ensures { (d : W) → result ≡ W.Weight.algebra.shown (W.Weight.exact (slice_index_or row.now c d)) }
{
    row[c].show()
}

// Prints the lightest weights and the estimate of the first three categories, or why there are none.
fn print<J: Joining, E: Estimate<Number<J>>>(
    rt: HostRuntime,
    name: &str,
    pack: &[u8],
    estimate: &E,
) -> io::Result<()> {
    let weights = match weigh::<J, E>(pack, estimate) {
        Ok(weights) => weights,
        Err(refusal) => return println!(rt; "{name}: {refusal}"),
    };
    let a = shown(&weights.lightest, 0);
    let b = shown(&weights.lightest, 1);
    let c = shown(&weights.lightest, 2);
    let x = shown(&weights.estimate, 0);
    let y = shown(&weights.estimate, 1);
    let z = shown(&weights.estimate, 2);
    println!(rt; "{name}: lightest {a} {b} {c}, estimate {x} {y} {z}")
}
