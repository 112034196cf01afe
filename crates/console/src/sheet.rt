// The caller's sheet, on which an answer is set down. Assumes nothing.
ghost use Rattle.std.specs.Prelude.{◌≡◌, []};
ghost use Rattle.console.specs.Asking.{clash_sheet};

use rows::{FADERS, ROWS};

// A preset and weights all 0, or a weight for each rule by its number and a preset part all 0.
// kept: that one part is all 0 is how the caller reads a sheet, a rule of the project
#[derive(Clone, Copy, PartialEq, Eq, Debug)]
pub struct Sheet {
    pub numerators: [i32; FADERS],
    pub denominator: u32,
    pub weights: [i32; ROWS],
}

impl Sheet {
    // All 0.
    pub fn blank() -> Sheet
        ensures { result ≡ clash_sheet [] [] }
    {
        Sheet {
            numerators: [0; FADERS],
            denominator: 0,
            weights: [0; ROWS],
        }
    }
}
