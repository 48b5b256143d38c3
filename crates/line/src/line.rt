// The two states of what is keyed: a line, which is open, and a phrase, which is sealed.
ghost use Rattle.std.specs.Prelude.{◌≤◌};
ghost use Rattle.arrayvec.specs.ArrayVec.{array_vec_len};
ghost use Rattle.line.specs.Room.{room};

mod calls;

use arrayvec::ArrayVec;

// How many tokens a line holds at most.
pub const LINE_ROOM: usize = 15;

// Neither a line nor a phrase is copied, so that there is one history of each.
#[derive(Drop)]
pub struct Line {
    tokens: ArrayVec<u16, LINE_ROOM>,
    ghost short: { array_vec_len tokens ≤ room },
}

// A phrase is a line out of reach of key, rub and wipe; only `seal` makes one.
#[derive(Drop)]
pub struct Phrase {
    line: Line,
}
