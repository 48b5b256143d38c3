// The weight kinds at their edges, and a third kind whose exact weights are not numbers.
#![tactic(auto)]

mod cases;
mod graded;

use cases::{pair, shown};
use graded::Graded;
use std::io;
use weight::combining::{combine_all, combine3, larger};
use weight::odds::Odds;
use weight::sums::Sums;
use weight::weight::{Weight, WeightNumber};

fn main(rt: HostRuntime) -> io::Result<()> {
    numbers::<Sums>(rt, "sums", 0, 1)?;
    sums(rt)?;
    numbers::<Odds>(rt, "odds", 1, 2)?;
    ceiling::<Odds>(rt, "odds", pair(62500, 64000), pair(62500, 64001))?;
    gradeds(rt)
}

// What a kind makes of a number below its least, of its least, and of the largest.
fn numbers<W: Weight>(
    rt: HostRuntime,
    name: &str,
    below: WeightNumber,
    least: WeightNumber,
) -> io::Result<()> {
    let kind = W::KIND;
    let none = W::none().show();
    let nothing = shown(W::take(below));
    let low = shown(W::take(least));
    let most = shown(W::take(65535));
    println!(rt; "{name} {kind}: none {none}, {below} {nothing}, {least} {low}, 65535 {most}")
}

// A combination at the ceiling, and one above it.
fn ceiling<W: Weight>(
    rt: HostRuntime,
    name: &str,
    at: Option<W>,
    above: Option<W>,
) -> io::Result<()> {
    let full = shown(at);
    let over = shown(above);
    println!(rt; "{name}: the ceiling {full}, above it {over}")
}

fn sums(rt: HostRuntime) -> io::Result<()> {
    let Some(step) = Sums::take(62500) else {
        return Ok(());
    };
    let row = [step; 16001];
    ceiling(rt, "sums", combine_all(&row[0..16000]), combine_all(&row))
}

fn gradeds(rt: HostRuntime) -> io::Result<()> {
    let kind = Graded::KIND;
    let a = Graded::of(1, 2);
    let b = Graded::of(2, 1);
    let c = Graded::of(0, 3);
    let more = larger(larger(a, b), c).show();
    let all = shown(combine3(a, b, c));
    let over = shown(a.combine(Graded::of(65000, 535)));
    println!(rt; "graded {kind}: larger {more}, all {all}, above the ceiling {over}")
}
