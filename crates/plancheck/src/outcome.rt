// What a line comes to. Assumes nothing.
ghost use Rattle.std.specs.Prelude.{◌≡◌};
ghost use Rattle.plancheck.specs.Tallies.{is_blank};

use crate::complaint::Complaint;
use crate::verdict::{ClashVerdict, PresetVerdict};
use plantext::Numbers;

#[derive(Clone, Copy, PartialEq, Eq, Debug)]
pub enum Outcome {
    // it says nothing
    Blank,
    // a desk with so many faders
    Desk(u8),
    // the rule with this number, from 1
    Rule(u8),
    // a preset by its numerators and its denominator
    Preset(Numbers, i64, PresetVerdict),
    // a clash by its weights
    Clash(Numbers, ClashVerdict),
}

// What a line comes to, or why it is bad; a bad line leaves the plan as it was.
pub type Followed = Result<Outcome, Complaint>;

// Whether nothing is to be said of the line.
pub fn is_blank(followed: &Followed) -> bool
    ensures { result ≡ is_blank followed.now }
{
    matches!(followed, Ok(Outcome::Blank))
}
