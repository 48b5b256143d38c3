// Packs on both sides of each limit, each command at each stage, and lines that ask for nothing, run through the console.
// A program of its own, since a program has one standard input.
#![tactic(auto)]

use std::io;

fn main(rt: HostRuntime) -> io::Result<()> {
    console::drive(&rt)
}
