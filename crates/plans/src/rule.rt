// A rule of a plan. Assumes nothing.
use rows::row::Row;

#[derive(Clone, Copy, PartialEq, Eq, Debug)]
pub struct Rule {
    pub row: Row,
    // or it is muted
    pub sounds: bool,
}
