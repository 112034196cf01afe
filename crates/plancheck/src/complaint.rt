// Why a line is bad, and how that is said. Assumes nothing.
ghost use Rattle.std.specs.Prelude.{◌≡◌};
ghost use Rattle.plancheck.specs.declared.complaint.Complaint.TheVariants.{Unread, Refused};

use crate::text::{ending, from_one};
use engine::refusal::Refusal;
use plantext::Problem;
use std::error::Error;
use std::fmt;

// What the numbers of a line are, of which there has to be one for each fader or for each rule.
#[derive(Clone, Copy, PartialEq, Eq, Debug)]
pub enum Counted {
    // of a rule, one for each fader
    Coefficients,
    // of a preset, one for each fader
    Numerators,
    // of a clash, one for each rule
    Weights,
}

// How many numbers a line has, and how many it should have.
#[derive(Clone, Copy, PartialEq, Eq, Debug)]
pub struct Width {
    pub what: Counted,
    pub found: usize,
    pub wanted: usize,
}

#[derive(Clone, Copy, PartialEq, Eq, Debug)]
pub enum Complaint {
    // the line is no statement
    Unread(Problem),
    // the plan does not take it
    Refused(Refusal),
    // it has too many or too few numbers
    Width(Width),
    // the numerator at this place is out of range
    Numerator(usize),
    // the denominator is out of range
    Denominator,
    // the weight at this place is out of range
    Weight(usize),
}

impl From<Problem> for Complaint {
    ghost from_gives = { λ p e. e ≡ Unread p };

    fn from(problem: Problem) -> Complaint {
        Complaint::Unread(problem)
    }
}

impl From<Refusal> for Complaint {
    ghost from_gives = { λ r e. e ≡ Refused r };

    fn from(refusal: Refusal) -> Complaint {
        Complaint::Refused(refusal)
    }
}

// What a refusal says of a line.
#[derive(Clone, Copy)]
struct RefusalText(Refusal);

impl fmt::Display for RefusalText {
    fn fmt<W: fmt::Write>(&self, f: &mut fmt::Formatter<W>) -> fmt::Result {
        match self.0 {
            Refusal::BadCount => write!(f, "a desk has 1 to 6 faders"),
            Refusal::NoPlan => write!(f, "no desk yet: begin with a line such as `faders 2`"),
            Refusal::Full => write!(f, "the plan is full: it holds 16 rules"),
            Refusal::BadCoefficient(fader) => {
                let n = from_one(fader as usize);
                write!(
                    f,
                    "the coefficient of fader {n} is out of range: it may be from -1000 to 1000"
                )
            }
            Refusal::BadSide => write!(
                f,
                "the side is out of range: it may be from -1000000 to 1000000"
            ),
            _ => write!(f, "the plan does not take this line"),
        }
    }
}

impl fmt::Display for Width {
    fn fmt<W: fmt::Write>(&self, f: &mut fmt::Formatter<W>) -> fmt::Result {
        let (line, thing, owner, each) = match self.what {
            Counted::Coefficients => ("rule", "coefficient", "desk", "fader"),
            Counted::Numerators => ("preset", "level", "desk", "fader"),
            Counted::Weights => ("clash", "weight", "plan", "rule"),
        };
        let found = self.found;
        let wanted = self.wanted;
        let things = ending(found);
        let all = ending(wanted);
        write!(
            f,
            "the {line} has {found} {thing}{things}, and the {owner} has {wanted} {each}{all}"
        )
    }
}

impl fmt::Display for Complaint {
    fn fmt<W: fmt::Write>(&self, f: &mut fmt::Formatter<W>) -> fmt::Result {
        match self {
            Complaint::Unread(why) => write!(f, "{why}"),
            Complaint::Refused(why) => write!(f, "{}", RefusalText(*why)),
            Complaint::Width(width) => write!(f, "{width}"),
            Complaint::Numerator(place) => {
                let n = from_one(*place);
                write!(
                    f,
                    "the level of fader {n} is out of range: its numerator may be from -1073741824 to 1073741824"
                )
            }
            Complaint::Denominator => write!(
                f,
                "the denominator is out of range: it may be from 1 to 1073741824"
            ),
            Complaint::Weight(place) => {
                let n = from_one(*place);
                write!(
                    f,
                    "the weight of rule {n} is out of range: it may be from -1073741824 to 1073741824"
                )
            }
        }
    }
}

impl Error for Complaint {}
