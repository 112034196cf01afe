// Why weights are no clash. Assumes nothing.

#[derive(Clone, Copy, PartialEq, Eq, Debug)]
pub enum ClashFlaw {
    // there are more rows than weights
    TooManyRows,
    // the row at this place is an inequality, and its weight is below 0
    Negative(usize),
    // weights times the coefficients of this fader do not add up to 0
    Column(usize),
    // weights times sides add up to a number above 0, or to 0 with no strict row among those of weight above 0
    Total,
}
