// What a line says. Assumes nothing.
use crate::numbers::Numbers;
use rows::kind::Kind;

#[derive(Clone, Copy, PartialEq, Eq, Debug)]
pub enum Statement {
    // nothing but white space or a comment
    Blank,
    // `faders 2`
    Faders(i64),
    // `1 1 <= 150`: coefficients, comparison, side
    Rule(Numbers, Kind, i64),
    // `preset 150 115 / 2`: numerators, denominator
    Preset(Numbers, i64),
    // `clash 0 1 1 1`: weights
    Clash(Numbers),
}
