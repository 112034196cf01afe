// A plan. Assumes nothing; every value keeps its invariant.
ghost use Rattle.std.specs.Prelude.{◌≡◌, ◌≤◌, length, take};
ghost use Rattle.rows.specs.Limits.{faders, most_rows};
ghost use Rattle.plans.specs.Rules.{UsedBelow};

use crate::rule::Rule;
use rows::bounds::ROWS;

#[derive(Clone, Copy, PartialEq, Eq, Debug)]
pub struct Plan {
    // 0 while no plan is open
    // kept: 0 is a count, of which the invariants below hold as of any; an Option would put a case into each of them
    pub count: u8,
    // the first `len` of them are the plan's, numbered from 0 as they came
    // kept: fixed memory; `rules` lends the part that is used
    pub rules: [Rule; ROWS],
    pub len: u8,
    ghost few: { count ≤ faders },
    ghost short: { len ≤ most_rows },
    ghost places: { length rules ≡ most_rows },
    ghost used: { UsedBelow count (take len rules) },
}
