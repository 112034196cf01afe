// A factor that a carried row is multiplied by. Assumes nothing; every value keeps its invariant.
ghost use Rattle.rows.specs.Limits.{Within};

// A whole number within G.
#[derive(Clone, Copy, PartialEq, Eq, Debug)]
pub struct Factor {
    pub value: i32,
    ghost within: { Within value },
}
