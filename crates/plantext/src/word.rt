// The words of a line. Assumes nothing.
ghost use Rattle.std.specs.Prelude.{◌≡◌};
ghost use Rattle.plantext.specs.Grammar.{problem_at};

use crate::problem::Problem;
use rows::kind::Kind;

#[derive(Clone, Copy, PartialEq, Eq, Debug)]
pub enum Word {
    Faders,
    Preset,
    Clash,
    Compare(Kind),
    Slash,
    // a sign, if any, and one to twelve digits
    Number(i64),
}

// Why bytes are no word.
#[derive(Clone, Copy, PartialEq, Eq, Debug)]
pub enum Misspelling {
    // a number with more digits, which no number of a plan or an answer has
    TooLong,
    // anything else
    Unknown,
}

impl Misspelling {
    // The problem of a line that has it at this place.
    pub fn at(self, place: usize) -> Problem
        ensures { result ≡ problem_at place self }
    {
        match self {
            Misspelling::TooLong => Problem::TooLong(place),
            Misspelling::Unknown => Problem::UnknownWord(place),
        }
    }
}
