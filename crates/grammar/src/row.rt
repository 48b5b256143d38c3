// A list of at most N entries in a fixed array. By hand, since the library's list of fixed room is not Copy, and a production is.
ghost use Rattle.std.specs.Prelude.{◌≡◌, ◌≤◌, length, ⊤};

use std::alloc::AllocError;

mod calls;

pub struct Row<T, const N: usize> {
    cells: [T; N],
    count: usize,
    ghost long: { length cells ≡ N },
    ghost most: { count ≤ N },
}

impl<T: Copy, const N: usize> Clone for Row<T, N> {
    ghost is_clone = { λ x y. y ≡ x };

    ghost is_infallible = { λ _. ⊤ };

    fn clone(&self) -> Result<Row<T, N>, AllocError> {
        Ok(*self)
    }
}

impl<T: Copy, const N: usize> Copy for Row<T, N> {}
