// Why a pack is not taken, and which layer says so.
mod calls;

#[derive(Clone, Copy, PartialEq, Eq, Debug)]
pub enum Layer {
    // The reader of commands.
    Reader,
    // The grammar that the commands build.
    Grammar,
}

// Each case carries its figure: the offset of the command's first byte, or of the PRODUCTION whose production is at fault.
#[derive(Clone, Copy, PartialEq, Eq, Debug)]
pub enum PackStop {
    Incomplete { at: usize },
    Unknown { at: usize },
    Misplaced { at: usize },
    TooMany { at: usize },
    BadOperand { at: usize },
    Unfilled { production: usize },
    Unnamed { production: usize },
    BadStart { at: usize },
    Trailing { at: usize },
}
