// The setting of one fader on the way back. Assumes nothing; every value of the type keeps its invariant.
ghost use Rattle.std.specs.Prelude.{◌≤◌, length};
ghost use Rattle.elimination.specs.Table.{room};

use crate::cell::Cell;
use rows::{Fader, Preset};

// The fader that is set, the levels of the faders above it, and the table in which all faders are eliminated.
#[derive(Clone, Copy)]
pub struct Setting<'a> {
    pub table: &'a [Cell],
    pub fader: Fader,
    pub levels: &'a Preset,
    ghost few: { length table.now ≤ room },
}
