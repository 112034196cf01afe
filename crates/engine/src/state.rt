// What every engine of ours keeps: the count, the rows that it took and the answer. Assumes nothing; every value keeps its invariant.
ghost use Rattle.std.specs.Prelude.{◌≤◌};
ghost use Rattle.rows.specs.Limits.{faders};
ghost use Rattle.rows.specs.Rows.{UsedBelow};
ghost use Rattle.rows.specs.Lists.{items};

use crate::answer::Answer;
use rows::list::RowList;

#[derive(Clone, Copy)]
pub struct State {
    // 0 before the first start
    // kept: 0 is a count, of which the invariants below hold as of any; an Option would put a case into each of them
    pub count: u8,
    pub rows: RowList,
    // none before a decision, and after one that was refused as too large
    pub answer: Option<Answer>,
    ghost few: { count ≤ faders },
    ghost used: { UsedBelow count (items rows) },
}
