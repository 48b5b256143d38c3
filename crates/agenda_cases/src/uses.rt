// An agenda in the front of a longer slice.
ghost use Rattle.std.specs.Prelude.{◌≡◌, ◌≤◌, length, drop};

use crate::entries::Task;
use agenda::{Agenda, Cell};

// The least of two costs, by an agenda in the first four cells.
pub fn inside(cells: &mut [Cell<Task>]) -> u64
    requires { 4 ≤ length cells.old }
    ensures cost { result ≡ 20 }
    ensures rest { drop 4 cells.new ≡ drop 4 cells.old }
{
    let mut a = Agenda::new(cells);
    a.push(Task { cost: 20, node: 3 });
    // A `match`, since the check finds no proof of a closure's answer here.
    match a.pop() {
        Some(t) => t.cost,
        None => 0,
    }
}
