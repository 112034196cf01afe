// How many answers hold, how many do not, and how many lines are bad. Assumes nothing.
ghost use Rattle.std.specs.Prelude.{◌≡◌, ◌&&◌, ◌==◌};
ghost use Rattle.plancheck.specs.Tallies.{tallied};

use crate::outcome::{Followed, Outcome};
use crate::verdict::{ClashVerdict, PresetVerdict};
use std::fmt;

#[derive(Clone, Copy, PartialEq, Eq, Debug, Default)]
pub struct Tally {
    pub holding: usize,
    pub failing: usize,
    pub bad: usize,
}

impl Tally {
    pub fn new() -> Tally
        ensures { result ≡ record { holding = 0; failing = 0; bad = 0 } }
    {
        Tally::default()
    }

    // Counts one line.
    pub fn count(&mut self, followed: &Followed)
        ensures { self.new ≡ tallied followed.now self.old }
    {
        match followed {
            Ok(Outcome::Blank | Outcome::Desk(_) | Outcome::Rule(_)) => {}
            Ok(
                Outcome::Preset(_, _, PresetVerdict::Holds(_))
                | Outcome::Clash(_, ClashVerdict::Holds(_)),
            ) => self.holding = self.holding.saturating_add(1),
            Ok(
                Outcome::Preset(_, _, PresetVerdict::Unmet(_, _))
                | Outcome::Clash(_, ClashVerdict::Flawed(_, _)),
            ) => self.failing = self.failing.saturating_add(1),
            Err(_) => self.bad = self.bad.saturating_add(1),
        }
    }

    // Whether no line is bad and no answer fails.
    pub fn is_clean(&self) -> bool
        ensures { result ≡ (self.now.failing == 0 && self.now.bad == 0) }
    {
        self.failing == 0 && self.bad == 0
    }
}

impl fmt::Display for Tally {
    fn fmt<W: fmt::Write>(&self, f: &mut fmt::Formatter<W>) -> fmt::Result {
        let holding = self.holding;
        let failing = self.failing;
        let bad = self.bad;
        write!(
            f,
            "answers that hold: {holding}, that do not: {failing}; bad lines: {bad}"
        )
    }
}
