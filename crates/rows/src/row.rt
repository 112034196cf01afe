// A row. Assumes nothing; every value of the type keeps its invariant, so no row exists with a number beyond G.
ghost use Rattle.std.specs.Prelude.{◌≡◌, length};
ghost use Rattle.rows.specs.Limits.{faders, Within, EachWithin};

use crate::bounds::FADERS;
use crate::kind::Kind;

// The sum of the coefficients, each times its fader's level, is at most, below or equal to the side.
#[derive(Clone, Copy, PartialEq, Eq, Debug)]
pub struct Row {
    pub kind: Kind,
    pub coefficients: [i32; FADERS],
    pub side: i32,
    ghost places: { length coefficients ≡ faders },
    ghost within: { EachWithin coefficients },
    ghost bounded: { Within side },
}
