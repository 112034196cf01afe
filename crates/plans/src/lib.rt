// The plan of a desk and the calls that edit it. It sees what rows and refusals are, and no engine's working.
#![tactic(auto)]

pub mod plan;
pub mod plans;
pub mod ranges;
pub mod row_of_rule;
pub mod rule;
pub mod sounding;
#[cfg(test)]
mod tests;

pub use plan::Plan;
pub use ranges::{COEFFICIENT, SIDE};
pub use rows::RowList;
pub use rule::Rule;
