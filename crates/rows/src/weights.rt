// Weights for the rows of a list. Assumes nothing; every value of the type keeps its invariant.
ghost use Rattle.std.specs.Prelude.{◌≡◌, length};
ghost use Rattle.rows.specs.Limits.{most_rows, EachWithin};

use crate::bounds::ROWS;

// A whole number for each row that a list can have.
// kept: fixed memory; how many are used is the length of the list that they are held against
#[derive(Clone, Copy, PartialEq, Eq, Debug)]
pub struct Weights {
    pub values: [i32; ROWS],
    ghost places: { length values ≡ most_rows },
    ghost within: { EachWithin values },
}
