// What a row holds, and the writes to it.
ghost use Rattle.std.specs.Prelude.{◌≡◌, ◌<◌, [], ◌∷◌, ◌++◌, length, map, take, slice_index_or, slice_set};
ghost use Rattle.grammar.specs.Entries.{entries};

use crate::row::Row;

// No entry; the array is filled with a value that is never read.
impl<T: Copy + Default, const N: usize> Default for Row<T, N> {
    ghost is_default = { λ r. entries r ≡ [] };

    fn default() -> Row<T, N> {
        Row {
            cells: [T::default(); N],
            count: 0,
        }
    }
}

impl<T: Copy, const N: usize> Row<T, N> {
    // The first entries of a full array.
    pub(crate) fn front(cells: [T; N], count: usize) -> Row<T, N>
        ensures { entries result ≡ take count cells }
    {
        Row {
            cells,
            count: count.min(N),
        }
    }

    pub(crate) fn push(&mut self, x: T)
        requires { length (entries self.old) < N }
        ensures { entries self.new ≡ entries self.old ++ x ∷ [] }
    {
        self.cells[self.count] = x;
        self.count += 1;
    }

    pub fn len(&self) -> usize
        ensures value { result ≡ length (entries self.now) }
        ensures count { result ≡ self.now.count }
    {
        self.items().len()
    }

    pub fn items(&self) -> &[T]
        ensures { result.now ≡ entries self.now }
    {
        let all = &self.cells[..];
        &all[0..self.count]
    }
}

impl<T: Copy, const M: usize, const N: usize> Row<Row<T, M>, N> {
    // Adds x to the row at i, where it lies.
    pub(crate) fn push_at(&mut self, i: usize, x: T)
        requires inside { i < length (entries self.old) }
        requires room { length (slice_index_or (map entries (entries self.old)) i []) < M }
        ensures { map entries (entries self.new) ≡ slice_set (map entries (entries self.old)) i (slice_index_or (map entries (entries self.old)) i [] ++ x ∷ []) }
    {
        self.cells[i].push(x);
    }
}
