// What a weight kind is: a type that holds exactly the exact weights not above a ceiling.
ghost use Rattle.std.specs.Prelude.{◌≡◌, ℕ};
ghost use Rattle.weight.specs.Algebra.{Algebra, Lawful, Le, Compared, Within, Taken};

// A weight as a pack writes it.
pub type WeightNumber = u16;

pub trait Weight: Copy + Ord {
    // The kind's number in a pack, and the least weight number that it takes.
    const KIND: u8;

    const LEAST: WeightNumber;

    ghost KIND: { ℕ };

    ghost LEAST: { ℕ };

    // The exact weights, with their order and their combination.
    ghost algebra: { Algebra };

    // The exact weight that a value holds.
    ghost exact: { Self → algebra.Exact };

    // The value that holds none.
    ghost nothing: { Self };

    fn none() -> Self
        ensures { result ≡ nothing };

    // The weight of a number, or nothing where it is below the least.
    fn take(n: WeightNumber) -> Option<Self>
        ensures { Taken algebra exact result n };

    // The exact combination, or nothing where that is above the ceiling.
    fn combine(self, other: Self) -> Option<Self>
        ensures { Within algebra exact result (algebra.plus (exact self) (exact other)) };

    fn show(self) -> u32
        ensures { result ≡ algebra.shown (exact self) };

    ghost lawful: { Lawful algebra };

    // The constants are those of the exact weights, and the values are ordered as the exact weights that they hold.
    ghost kind: { KIND ≡ algebra.kind };

    ghost least: { LEAST ≡ algebra.least };

    ghost compared: { (v w : Self) → Compared algebra (exact v) (exact w) (Self.cmp v w) };

    // The values hold the exact weights not above the ceiling, all of them, each once.
    ghost within: { (w : Self) → Le algebra (exact w) algebra.ceiling };

    ghost held: { (e : algebra.Exact) → Le algebra e algebra.ceiling → (w : Self) × (exact w ≡ e) };

    ghost same: { (v w : Self) → exact v ≡ exact w → v ≡ w };

    ghost empty: { exact nothing ≡ algebra.none };
}
