// What is said of a line. Assumes nothing.
use crate::outcome::{Followed, Outcome};
use crate::text::{Listed, RuleAt, ending};
use crate::verdict::PresetText;
use plans::Plan;
use std::fmt;

// A line by its number, from 1, with the plan after it and what it came to.
#[derive(Clone, Copy)]
pub struct Said {
    pub number: usize,
    pub plan: Plan,
    pub followed: Followed,
}

// An outcome with the plan after its line.
#[derive(Clone, Copy)]
struct OutcomeText<'a> {
    plan: &'a Plan,
    outcome: &'a Outcome,
}

impl fmt::Display for OutcomeText<'_> {
    fn fmt<W: fmt::Write>(&self, f: &mut fmt::Formatter<W>) -> fmt::Result {
        let plan = self.plan;
        match self.outcome {
            Outcome::Blank => write!(f, "nothing"),
            Outcome::Desk(count) => {
                let all = ending(*count as usize);
                write!(f, "a desk with {count} fader{all}")
            }
            Outcome::Rule(n) => {
                let place = (*n as usize).saturating_sub(1);
                write!(f, "rule {n}: {}", RuleAt { plan, place })
            }
            Outcome::Preset(numbers, denominator, verdict) => {
                let listed = Listed(numbers);
                let text = PresetText {
                    plan,
                    denominator: *denominator,
                    verdict: *verdict,
                };
                write!(f, "preset {listed}/ {denominator} {text}")
            }
            Outcome::Clash(numbers, verdict) => {
                let listed = Listed(numbers);
                write!(f, "clash {listed}{verdict}")
            }
        }
    }
}

impl fmt::Display for Said {
    fn fmt<W: fmt::Write>(&self, f: &mut fmt::Formatter<W>) -> fmt::Result {
        let number = self.number;
        let plan = &self.plan;
        match &self.followed {
            Ok(outcome) => write!(f, "line {number}: {}", OutcomeText { plan, outcome }),
            Err(complaint) => write!(f, "line {number}: {complaint}"),
        }
    }
}
