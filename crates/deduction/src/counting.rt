// How many there are of a kind, without a test for it: the theorems on numbers.
ghost use Rattle.deduction.specs.Counts.{OneNumber, RisingNumber, Exceeding};

// A kind has one number.
pub fn one_number_stands()
    ensures { OneNumber }
{}

// A part of a kind has no larger number.
pub fn rising_number_stands()
    ensures { RisingNumber }
{}

// There are more than b exactly where the number is above b.
pub fn exceeding_stands()
    ensures { Exceeding }
{}
