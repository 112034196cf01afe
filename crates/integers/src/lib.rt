// Exact arithmetic on whole numbers, and the choice of the first best. The lowest crate: it sees only the standard library.
// The proofs folder holds the algebra that the crates above use: ring laws, a ring solver, certificates for orders, bounds.
#![tactic(auto)]

pub mod choice;
pub mod divisors;
pub mod fractions;
pub mod reducing;
#[cfg(test)]
mod tests;
pub mod widening;

pub use choice::{Better, first_best};
pub use divisors::{common_divisor, gcd};
pub use fractions::Fraction;
pub use widening::product;
