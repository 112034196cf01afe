// Why an engine could not decide. Assumes nothing.

// What went wrong.
#[derive(Clone, Copy, PartialEq, Eq, Debug)]
pub enum Cause {
    // a number is beyond G
    NumberBeyond,
    // the table is full
    TableFull,
    // a row is of a form that the engine does not take
    FormNotTaken,
    // a weight is beyond G
    WeightBeyond,
    // what an engine of another maker met, by its own number: 5 to 255
    Other(u8),
}

// The layer that it arose in, counted upward from 0, its cause and the place it names.
#[derive(Clone, Copy, PartialEq, Eq, Debug)]
pub struct Fault {
    pub layer: u8,
    pub cause: Cause,
    pub index: u8,
}
