// The limits that are found on a side, in the first of the places that are lent. Assumes nothing; every value of the type keeps its invariant.
ghost use Rattle.std.specs.Prelude.{◌≡◌, ◌≤◌, length};
ghost use Rattle.elimination.specs.Table.{room};

use crate::bounding::Bounding;

// At most one limit for each row of a table.
// kept: places that are lent, and no array of its own, which would be copied with each result
#[derive(Drop)]
pub struct Found<'a, S> {
    pub limits: &'a mut [Bounding<S>],
    pub count: usize,
    ghost places: { length limits.now ≡ room },
    ghost few: { count ≤ room },
}
