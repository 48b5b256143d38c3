// What a pile holds, more entries on it, and fewer.
ghost use Rattle.std.specs.Prelude.{◌≡◌, ◌+◌, ◌<◌, ◌≤◌, [], ◌∷◌, length, drop};
ghost use Rattle.replay.specs.Piles.{items};

use crate::pile::Pile;

impl<T: Copy, const N: usize> Pile<T, N> {
    // No entry; the array is filled with a value that is never read.
    pub(crate) fn new(fill: T) -> Pile<T, N>
        ensures { items result ≡ [] }
    {
        Pile {
            cells: [fill; N],
            top: N,
        }
    }

    pub(crate) fn items(&self) -> &[T]
        ensures { result.now ≡ items self.now }
    {
        let all = &self.cells[..];
        &all[self.top..]
    }

    // How many entries more there is room for.
    pub(crate) fn room(&self) -> usize
        ensures { result + length (items self.now) ≡ N }
    {
        self.top
    }

    pub(crate) fn push(&mut self, x: T)
        requires { length (items self.old) < N }
        ensures { items self.new ≡ x ∷ items self.old }
    {
        self.top -= 1;
        self.cells[self.top] = x;
    }

    // Takes the n topmost entries off.
    pub(crate) fn take_off(&mut self, n: usize)
        requires { n ≤ length (items self.old) }
        ensures { items self.new ≡ drop n (items self.old) }
    {
        self.top += n;
    }
}
