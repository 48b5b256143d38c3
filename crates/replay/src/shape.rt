// The shape of a stacked yield, whose tokens lie elsewhere: its category, and how long each of its strings is.
mod calls;

pub(crate) use calls::{fits, place, total};

#[derive(Clone, Copy)]
pub(crate) enum Lengths {
    One(usize),
    Two(usize, usize),
}

#[derive(Clone, Copy)]
pub(crate) struct Shape {
    pub(crate) category: u8,
    pub(crate) lengths: Lengths,
}
