// How far a reduction came. Assumes nothing; every value keeps its invariant.
ghost use Rattle.std.specs.Prelude.{◌+◌, ◌≤◌, length};
ghost use Rattle.rows.specs.Limits.{most_rows};

use crate::kept::{Kept, Pivot};
use crate::short_list::ShortList;

// The rows that stand, the pivots in the order in which they were found, and the place of the row that is looked at next.
// kept: the lists are lent, since moving them into it would copy their arrays
#[derive(Drop)]
pub struct Reduction<'a> {
    pub rows: &'a mut ShortList<Kept>,
    pub pivots: &'a mut ShortList<Pivot>,
    pub place: usize,
    ghost inside: { place ≤ length rows.now },
    ghost room: { length rows.now + length pivots.now ≤ most_rows },
}
