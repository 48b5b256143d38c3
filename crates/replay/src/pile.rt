// A stack of at most N entries in a fixed array, filled from its end: the topmost entry comes first.
// By hand, since with the library's list of fixed room, either end up, a replay took 1.7 to 4 times as long.
ghost use Rattle.std.specs.Prelude.{◌≡◌, ◌≤◌, length, ⊤};

use std::alloc::AllocError;

mod calls;

pub(crate) struct Pile<T, const N: usize> {
    cells: [T; N],
    top: usize,
    ghost long: { length cells ≡ N },
    ghost most: { top ≤ N },
}

impl<T: Copy, const N: usize> Clone for Pile<T, N> {
    ghost is_clone = { λ x y. y ≡ x };

    ghost is_infallible = { λ _. ⊤ };

    fn clone(&self) -> Result<Pile<T, N>, AllocError> {
        Ok(*self)
    }
}

impl<T: Copy, const N: usize> Copy for Pile<T, N> {}
