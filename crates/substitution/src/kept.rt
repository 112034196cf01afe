// What the layer works with: rows that stand, and equations that are solved for a fader. Assumes nothing; every value keeps its invariant.
ghost use Rattle.std.specs.Prelude.{◌<◌, pos, slice_index_or, unsigned_abs};

use rows::{Carried, Fader, Kind};

// A carried row with the kind of the listed row that it grew from.
#[derive(Clone, Copy)]
pub struct Kept {
    pub kind: Kind,
    pub row: Carried,
}

// An equation that was set aside, and the fader that it is solved for.
#[derive(Clone, Copy)]
pub struct Pivot {
    pub fader: Fader,
    pub row: Carried,
    ghost solvable: { 0 < unsigned_abs (slice_index_or row.coefficients fader.index (pos 0)) },
}
