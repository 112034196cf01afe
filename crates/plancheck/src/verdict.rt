// What claimed answers are worth, and how that is said. Assumes nothing.
use crate::text::{RuleAt, from_one};
use plans::Plan;
use rows::flaw::ClashFlaw;
use std::fmt;

// kept: a claim that does not hold is an answer and no failure, and as a Result it would stand within the Result of a bad line, `Ok(Err(..))`
#[derive(Clone, Copy, PartialEq, Eq, Debug)]
pub enum PresetVerdict {
    // it meets all rules; this is the greatest number that divides its denominator and all its numerators
    Holds(u64),
    // the first rule that it does not meet, from 0, and that rule's coefficients times the numerators, added
    Unmet(usize, i64),
}

// kept: as for a preset's verdict, a claim that does not hold is an answer and no failure
#[derive(Clone, Copy, PartialEq, Eq, Debug)]
pub enum ClashVerdict {
    // no levels meet the rules; these are the weights times the sides, added
    Holds(i128),
    // why not, and the sum that shows it: of the fader's coefficients, or else of the sides
    Flawed(ClashFlaw, i128),
}

// A preset's verdict with the plan and the denominator that it is on.
#[derive(Clone, Copy)]
pub struct PresetText<'a> {
    pub plan: &'a Plan,
    pub denominator: i64,
    pub verdict: PresetVerdict,
}

impl fmt::Display for PresetText<'_> {
    fn fmt<W: fmt::Write>(&self, f: &mut fmt::Formatter<W>) -> fmt::Result {
        match self.verdict {
            PresetVerdict::Holds(divisor) => {
                match self.plan.len {
                    0 => write!(f, "holds: there is no rule yet")?,
                    1 => write!(f, "holds: it meets the one rule")?,
                    rules => write!(f, "holds: it meets all {rules} rules")?,
                }
                if divisor > 1 {
                    write!(f, "; all its numbers can be divided by {divisor}")?;
                }
                Ok(())
            }
            PresetVerdict::Unmet(place, sum) => {
                let n = from_one(place);
                let rule = RuleAt {
                    plan: self.plan,
                    place,
                };
                let denominator = self.denominator;
                write!(
                    f,
                    "does not hold: rule {n} ({rule}) is not met, its sum is {sum} / {denominator}"
                )
            }
        }
    }
}

// A flaw with the sum that shows it.
#[derive(Clone, Copy)]
struct FlawText {
    flaw: ClashFlaw,
    sum: i128,
}

impl fmt::Display for FlawText {
    fn fmt<W: fmt::Write>(&self, f: &mut fmt::Formatter<W>) -> fmt::Result {
        let sum = self.sum;
        match self.flaw {
            ClashFlaw::TooManyRows => write!(f, "there are more rules than weights"),
            ClashFlaw::Negative(place) => {
                let n = from_one(place);
                write!(
                    f,
                    "the weight of rule {n} is negative, which only a rule with = may have"
                )
            }
            ClashFlaw::Column(fader) => {
                let n = from_one(fader);
                write!(
                    f,
                    "fader {n} does not cancel, its weighted coefficients sum to {sum}"
                )
            }
            ClashFlaw::Total => write!(
                f,
                "the weighted sides sum to {sum}; a clash needs a sum below 0, or 0 with a rule with < among those weighted"
            ),
        }
    }
}

impl fmt::Display for ClashVerdict {
    fn fmt<W: fmt::Write>(&self, f: &mut fmt::Formatter<W>) -> fmt::Result {
        match *self {
            ClashVerdict::Holds(sum) => {
                let sign = if sum == 0 { "<" } else { "<=" };
                write!(
                    f,
                    "holds: the weighted rules sum to 0 {sign} {sum}, so no levels meet them all"
                )
            }
            ClashVerdict::Flawed(flaw, sum) => {
                write!(f, "does not hold: {}", FlawText { flaw, sum })
            }
        }
    }
}
