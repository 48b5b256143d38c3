// Packs that are taken and packs that are stopped, run through the console.
// A program of its own, since a program has one standard input.
#![tactic(auto)]

use std::io;

fn main(rt: HostRuntime) -> io::Result<()> {
    console::drive(&rt)
}
