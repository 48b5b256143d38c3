// Two agendas over entries of different kinds, and one inside a longer slice.
#![tactic(auto)]

mod entries;
mod uses;

use agenda::{Agenda, Cell, blank};
use entries::{Peak, Task};
use std::cmp::Reverse;
use std::io;
use uses::inside;

fn main(rt: HostRuntime) -> io::Result<()> {
    tasks(rt)?;
    peaks(rt)?;
    longer(rt)
}

fn tasks(rt: HostRuntime) -> io::Result<()> {
    let mut cells = [Cell::new(Task { cost: 0, node: 0 }); 8];
    let mut a = Agenda::new(&mut cells);
    a.offer(Task { cost: 50, node: 5 });
    a.offer(Task { cost: 20, node: 2 });
    a.offer(Task { cost: 30, node: 3 });
    a.offer(Task { cost: 20, node: 7 });
    a.offer(Task { cost: 10, node: 5 });
    a.offer(Task { cost: 99, node: 2 });
    while let Some(Task { cost, node }) = a.pop() {
        println!(rt; "task {node} costs {cost}")?;
    }
    Ok(())
}

fn peaks(rt: HostRuntime) -> io::Result<()> {
    let mut cells = [Cell::new(Peak::new(0, 0)); 4];
    let mut a = Agenda::new(&mut cells);
    a.offer(Peak::new(7, 0));
    a.offer(Peak::new(9, 1));
    a.offer(Peak::new(8, 3));
    a.offer(Peak::new(12, 0));
    while let Some(
        Peak {
            height: Reverse(height),
            place,
        },
    ) = a.pop()
    {
        println!(rt; "peak {place} is {height} high")?;
    }
    Ok(())
}

fn longer(rt: HostRuntime) -> io::Result<()> {
    let mut cells = [Cell::new(Task { cost: 1, node: 1 }); 6];
    let cost = inside(&mut cells);
    println!(rt; "inside the first four: {cost}")?;
    blank(&mut cells, 4, Task { cost: 0, node: 0 });
    Ok(())
}
