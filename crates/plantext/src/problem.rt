// Why a line is no statement, and how that is said. Assumes nothing.
use std::error::Error;
use std::fmt;

#[derive(Clone, Copy, PartialEq, Eq, Debug)]
pub enum Problem {
    // the word at this place, from 0, is not known
    UnknownWord(usize),
    // the number at this place has more than twelve digits
    TooLong(usize),
    // there are more than sixteen numbers in a row
    TooManyNumbers,
    // the words are known, and make no statement
    NoStatement,
}

impl fmt::Display for Problem {
    // People count words from 1.
    fn fmt<W: fmt::Write>(&self, f: &mut fmt::Formatter<W>) -> fmt::Result {
        match self {
            Problem::UnknownWord(place) => {
                let n = place.saturating_add(1);
                write!(
                    f,
                    "word {n} is no number, and none of: faders preset clash <= < = /"
                )
            }
            Problem::TooLong(place) => {
                let n = place.saturating_add(1);
                write!(f, "word {n} is a number with more than twelve digits")
            }
            Problem::TooManyNumbers => write!(f, "more than sixteen numbers in a row"),
            Problem::NoStatement => write!(
                f,
                "expected something like `faders 2`, `1 1 <= 150`, `preset 150 115 / 2` or `clash 0 1 1 1`"
            ),
        }
    }
}

impl Error for Problem {}
