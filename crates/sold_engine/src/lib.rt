// The engine as it is sold, substitution over elimination: what its verdict is, and that small plans are never too large for it.
// It sees the crates `elimination`, `engine`, `integers`, `rows` and `substitution`.
#![tactic(auto)]

pub mod samples;
pub mod small;
pub mod sold;
#[cfg(test)]
mod tests;

pub use sold::{SoldEngine, new_engine, new_table};
