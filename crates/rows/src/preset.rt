// A preset's numbers. Assumes nothing; every value of the type keeps its invariant.
ghost use Rattle.std.specs.Prelude.{◌≡◌, ◌<◌, ◌≤◌, length};
ghost use Rattle.rows.specs.Limits.{largest, faders, EachWithin};

use crate::bounds::FADERS;

// A level for each fader: its numerator over the one denominator.
#[derive(Clone, Copy, PartialEq, Eq, Debug)]
pub struct Preset {
    pub numerators: [i32; FADERS],
    pub denominator: u32,
    ghost places: { length numerators ≡ faders },
    ghost within: { EachWithin numerators },
    ghost positive: { 0 < denominator },
    ghost bounded: { denominator ≤ largest },
}
