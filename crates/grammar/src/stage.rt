// How far a pack has come.
#[derive(Clone, Copy)]
pub enum Stage {
    // Nothing is read.
    Fresh,
    // The kind is read, and some categories.
    Categories,
    // The start is read, and no production is open.
    Between,
    // A production is open, and none of its constituents.
    Head,
    // A constituent is open.
    Body,
}
