// Tasks, the cheapest first, and peaks, the highest first.
ghost use Rattle.std.specs.Prelude.{◌≡◌};
ghost use Rattle.agenda.specs.Orders.{Ordered};
ghost use Rattle.agenda_cases.specs.Orders.{cheaper, higher, node_of, place_of, peak, tasks_alike, peaks_alike};

use agenda::Slotted;
use std::cmp::Reverse;

// By cost, and at one cost by node.
#[derive(Clone, Copy, PartialEq, Eq, PartialOrd, Ord)]
pub struct Task {
    pub cost: u64,
    pub node: u32,
}

impl Task {
    // Whether it costs less, or as much at a node before the other's: by `cheaper` this says what the derived order is.
    pub fn is_cheaper(&self, other: &Task) -> bool
        ensures { result ≡ cheaper self.now other.now }
    {
        self < other
    }
}

impl Slotted for Task {
    ghost index = { node_of };

    ghost alike = { tasks_alike };

    fn slot_index(&self) -> usize {
        // From 32 bits to `usize` there is no From.
        self.node as usize
    }
}

// By height from the top, and at one height by place.
#[derive(Clone, Copy, PartialEq, Eq, PartialOrd, Ord)]
pub struct Peak {
    pub height: Reverse<u16>,
    pub place: u8,
}

impl Peak {
    pub fn new(height: u16, place: u8) -> Peak
        ensures { result ≡ peak height place }
    {
        Peak {
            height: Reverse(height),
            place,
        }
    }

    // Whether it is higher, or as high at a place before the other's: by `higher` this says what the derived order is.
    pub fn is_higher(&self, other: &Peak) -> bool
        ensures { result ≡ higher self.now other.now }
    {
        other > self
    }
}

impl Slotted for Peak {
    ghost index = { place_of };

    ghost alike = { peaks_alike };

    fn slot_index(&self) -> usize {
        usize::from(self.place)
    }
}

// The orders of tasks and of peaks are total.
pub fn orders_stand()
    ensures tasks { Ordered cheaper }
    ensures peaks { Ordered higher }
{}
