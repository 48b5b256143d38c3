// Lines that are keyed, rubbed, wiped, sealed and reopened, run through the console.
// A program of its own, since a program has one standard input.
#![tactic(auto)]

use std::io;

fn main(rt: HostRuntime) -> io::Result<()> {
    console::drive(&rt)
}
