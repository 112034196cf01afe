// The commands of the box: one for each call, with its arguments. Assumes nothing.
use rows::FADERS;

#[derive(Clone, Copy, PartialEq, Eq, Debug)]
pub enum Command {
    // an empty plan with so many faders
    Open(u8),
    // one more rule: the number of its kind, a coefficient for each fader, and the side
    // kept: any byte is read as a kind's number, and the plan refuses one that no kind has
    Add {
        kind: u8,
        coefficients: [i16; FADERS],
        side: i32,
    },
    // the last rule is removed
    Lift,
    // the rule with this number is muted
    Mute(u8),
    // the rule with this number sounds again
    Sound(u8),
    // the sounding rules are decided
    Ask,
    // a minimal infeasible set of the sounding rules is looked for
    Blame,
}
