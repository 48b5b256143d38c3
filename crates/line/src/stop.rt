// Why a line does not do what it is asked.
mod calls;

// A figure stands in a case only where it varies, and with a line none does.
#[derive(Clone, Copy, PartialEq, Eq, Debug)]
pub enum LineStop {
    // A key on a line that has no room left.
    Full,
    // A rub on a line that holds no token.
    Empty,
}
