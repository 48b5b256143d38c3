// What an agenda asks of its entries: a total order, in which entries of one rank are one, and an index.
ghost use Rattle.std.specs.Prelude.{◌≡◌, ℕ};
ghost use Rattle.std.specs.declared.cmp.Ordering.TheVariants.{Equal};

// `Ord` says which entry comes first. An agenda holds at most one entry of an index.
pub trait Slotted: Ord + Copy {
    ghost index: { Self → ℕ };

    fn slot_index(&self) -> usize
        ensures { result ≡ index self.now };

    ghost alike: { (x y : Self) → Self.cmp x y ≡ Equal → x ≡ y };
}
