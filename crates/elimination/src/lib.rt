// The engine that works by Fourier-Motzkin elimination, in a lent table of carried rows. It sees the crates `engine`, `rows` and `integers`.
#![tactic(auto)]

mod bests;
mod bounding;
pub mod cell;
mod choosing;
pub mod eliminating;
mod filling;
mod found;
mod lent;
mod levels;
pub mod limit;
mod limits;
mod pairing;
mod raising;
pub mod rightness;
mod setting;
pub mod side;
pub mod table;
#[cfg(test)]
mod tests;
mod tighter;
mod values;

pub use cell::Cell;
pub use eliminating::{Elimination, FourierMotzkin};
pub use table::ROOM;
