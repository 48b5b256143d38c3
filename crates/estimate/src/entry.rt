// The entries of the category agenda.
ghost use Rattle.std.specs.Prelude.{◌≡◌};
ghost use Rattle.agenda.specs.Orders.{Ordered, before};
ghost use Rattle.estimate.specs.Entries.{cheaper};

use weight::weight::Weight;

pub mod ranking;

// A category and what it costs: the cheapest comes first, and of those the category with the lowest number.
#[derive(Clone, Copy, PartialEq, Eq, PartialOrd, Ord)]
pub struct Entry<W> {
    pub cost: W,
    pub category: usize,
}

// An agenda's first entry is the cheapest, and of those the one with the lowest number.
pub fn order_stands<W: Weight>()
    ensures cheapest { before ⟦<Entry<W> as Ord>⟧.cmp ≡ cheaper W.Weight.algebra W.Weight.exact }
    ensures ordered { Ordered (cheaper W.Weight.algebra W.Weight.exact) }
{}
