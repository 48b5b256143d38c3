// The stack of a replay: the shapes of its yields, and their tokens end to end, the topmost first.
ghost use Rattle.std.specs.Prelude.{◌≡◌, length};
ghost use Rattle.replay.specs.Piles.{items};
ghost use Rattle.replay.specs.Shapes.{total};

use crate::pile::Pile;
use crate::shape::Shape;

mod calls;
mod putting;

// How many tokens the stack may hold, which is a rule of its own beside a line's. Each yield has a token, so it holds no more yields either.
pub(crate) const MOST_TOKENS: usize = 15;

pub(crate) type Tokens = Pile<u16, MOST_TOKENS>;

// The tokens lie in one pile, so that there is room for 15 of all yields and not of each.
#[derive(Drop)]
pub(crate) struct Stack {
    pub(crate) shapes: Pile<Shape, MOST_TOKENS>,
    pub(crate) tokens: Tokens,
    ghost laid: { total (items shapes) ≡ length (items tokens) },
}
