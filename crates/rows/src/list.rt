// A list of rows in fixed memory. Assumes nothing; every value keeps its invariant.
ghost use Rattle.std.specs.Prelude.{◌≡◌, ◌≤◌, length};
ghost use Rattle.rows.specs.Limits.{most_rows};

use crate::bounds::ROWS;
use crate::row::Row;

// At most sixteen rows.
// kept: fixed memory; and not the generic `ShortList` of the crate `substitution`, since states are copied, and a type that clauses see as a list is `Copy` only where the list gives its array back
#[derive(Clone, Copy)]
pub struct RowList {
    // the first `len` of them are the list
    pub rows: [Row; ROWS],
    pub len: usize,
    ghost short: { len ≤ most_rows },
    ghost places: { length rows ≡ most_rows },
}
