// A carried row: the listed rows times its weights, added. Assumes nothing; every value of the type keeps its invariant.
ghost use Rattle.std.specs.Prelude.{◌≡◌, length};
ghost use Rattle.rows.specs.Limits.{faders, most_rows, Within, EachWithin};

use crate::bounds::{FADERS, ROWS};

#[derive(Clone, Copy)]
pub struct Carried {
    pub coefficients: [i32; FADERS],
    pub side: i32,
    pub weights: [i32; ROWS],
    ghost places: { length coefficients ≡ faders },
    ghost within: { EachWithin coefficients },
    ghost bounded: { Within side },
    ghost loads: { length weights ≡ most_rows },
    ghost light: { EachWithin weights },
}
