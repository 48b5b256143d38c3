// Rows of weights, one for each category.
ghost use Rattle.std.specs.Prelude.{◌≡◌, length, replicate};

use weight::weight::Weight;

// Makes a row blank.
pub fn blank_row<W: Weight>(row: &mut [W])
    ensures { row.new ≡ replicate (length row.old) W.Weight.nothing }
{
    let nothing = W::none();
    row.fill_with(|| nothing);
}
