// A limit on a fader's level: a fraction within G. Assumes nothing; every value of the type keeps its invariant.
ghost use Rattle.std.specs.Prelude.{◌<◌, ◌≤◌};
ghost use Rattle.rows.specs.Limits.{largest, Within};

// The numerator over the denominator, and whether the level may not reach it.
#[derive(Clone, Copy)]
pub struct Limit {
    pub numerator: i32,
    pub denominator: u32,
    pub strict: bool,
    ghost within: { Within numerator },
    ghost positive: { 0 < denominator },
    ghost bounded: { denominator ≤ largest },
}

// A number is beyond G.
#[derive(Clone, Copy, PartialEq, Eq, Debug)]
pub struct Beyond;
