// Why a call is refused. Assumes nothing.
ghost use Rattle.std.specs.Prelude.{◌≡◌};
ghost use Rattle.engine.specs.declared.refusal.Refusal.TheVariants.{BadKind as IsBadKind};

use crate::fault::Fault;
use rows::kind::UnknownKind;

// One enum for engines and for the calls above them; `number` gives each case its number.
#[derive(Clone, Copy, PartialEq, Eq, Debug)]
pub enum Refusal {
    // the fader count is 0 or above the most
    BadCount,
    // no plan is open; an engine: it was not started
    NoPlan,
    // there is no room for another rule or row
    Full,
    // the kind is above 2
    BadKind,
    // the coefficient of this fader, the lowest such, is out of range or stands at a fader that the desk does not have
    BadCoefficient(u8),
    // the side is out of range
    BadSide,
    // there is no rule to lift
    NoRule,
    // no rule has the number
    NoSuchRule,
    // the rule is muted already
    AlreadyMuted,
    // the rule sounds already
    AlreadySounding,
    // the rows are too large for the engine, which met this fault
    TooLarge(Fault),
    // the rules have a preset, so that none of them is to blame
    Feasible,
    // no command begins with the byte
    UnknownCommand,
    // the bytes end within a command
    CutShort,
    // there are more bytes than the box reads
    TooLong,
    // an engine has no such answer to read
    NoAnswer,
    // the table that a decision works in is too short
    ShortTable,
}

impl From<UnknownKind> for Refusal {
    ghost from_gives = { λ _ r. r ≡ IsBadKind };

    fn from(_unknown: UnknownKind) -> Refusal {
        Refusal::BadKind
    }
}
