// Why a command list is not replayed.
mod calls;

// Each case carries its figure; `at` is the offset of the command's first byte.
#[derive(Clone, Copy, PartialEq, Eq, Debug)]
pub enum ReplayStop {
    Uneven { length: usize },
    NoCommand { at: usize },
    NoProduction { at: usize },
    TooFew { at: usize },
    WrongCategory { at: usize },
    TooLong { at: usize },
    NotOne { yields: usize },
    NotStart { category: u8 },
    NoRoom { tokens: usize },
}
