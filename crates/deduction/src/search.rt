// Best-first search in a weighted deduction system: what holds between turns, and what a search has found when it ends.
ghost use Rattle.deduction.specs.Theorems.{Starts, Steps, Frontier, FindsBest, TurnsAre, NothingFound, TwoEstimates, EstimatesAreConsistent, Total};

use weight::weight::Weight;

// What holds between turns holds before the first.
pub fn starts_stands<W: Weight>()
    ensures { Starts W.algebra }
{}

// A turn keeps it.
pub fn steps_stands<W: Weight>()
    ensures { Steps W.algebra }
{}

// Every derivation with a key is of a settled item, or some entry is not after it.
pub fn frontier_stands<W: Weight>()
    ensures { Frontier W.algebra }
{}

// Settled derivations are best, and so is the least entry.
pub fn best_stands<W: Weight>()
    ensures { FindsBest W.algebra }
{}

// The turns, when the goal comes first, when nothing is left, and while another comes first.
pub fn turns_stands<W: Weight>()
    ensures { TurnsAre W.algebra }
{}

// Where nothing is left, a goal that is not settled has no derivation within the ceiling.
pub fn nothing_found_stands<W: Weight>()
    ensures { NothingFound W.algebra }
{}

// Two estimates find one answer, and that which is nowhere lower takes no more turns.
pub fn two_estimates_stands<W: Weight>()
    ensures { TwoEstimates W.algebra }
{}

// Which estimates are consistent.
pub fn estimates_stands<W: Weight>()
    ensures { EstimatesAreConsistent W.algebra }
{}

// Of two derivations one is no worse.
pub fn total_stands<W: Weight>()
    ensures { Total W.algebra }
{}
