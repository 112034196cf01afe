// The replies of the box, one for each command. Assumes nothing.
use engine::Refusal;
use rows::{FADERS, ROWS};

// kept: in a preset and in a clash all the places of fixed memory, of which so many are the plan's
#[derive(Clone, Copy, PartialEq, Eq, Debug)]
pub enum Reply {
    // the call was carried out, and there is nothing to tell
    Done,
    // levels that meet the sounding rules; so many faders have one
    Preset {
        faders: u8,
        numerators: [i32; FADERS],
        denominator: u32,
    },
    // weights that turn the sounding rules into a falsehood; so many rules have one
    Clash {
        rules: u8,
        weights: [i32; ROWS],
    },
    // 1 at the number of each rule of a minimal infeasible set, and 0 elsewhere
    // kept: numbers and no bools are what the caller's marks hold, a rule of the project
    Blamed([u8; ROWS]),
    Refused(Refusal),
}
