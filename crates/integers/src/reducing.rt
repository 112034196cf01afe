// How a fraction is brought to lowest terms, and that these are the smallest. Assumes nothing.
ghost use Rattle.std.specs.Prelude.{◌≡◌, pos, ◌≤ℤ◌, ◌<ℤ◌, MatchOption};
ghost use Rattle.integers.specs.Fractions.{lowest_numerator, lowest_denominator, Reduced, Smallest};

use crate::divisors::gcd;
use crate::fractions::Fraction;

impl Fraction {
    // The fraction in lowest terms; none where the denominator is not positive.
    pub fn new(numerator: i64, denominator: i64) -> Option<Fraction>
        ensures value { MatchOption result (denominator ≤ℤ pos 0) (λ f. (pos 0 <ℤ denominator) × (f.numerator ≡ lowest_numerator numerator denominator) × (f.denominator ≡ lowest_denominator numerator denominator)) }
        ensures reduced { MatchOption result (denominator ≤ℤ pos 0) (λ f. Reduced numerator denominator f.numerator f.denominator) }
    {
        if denominator <= 0 {
            return None;
        }
        let shared = gcd(numerator.unsigned_abs(), denominator.unsigned_abs()) as i64;
        Some(Fraction {
            numerator: numerator / shared,
            denominator: denominator / shared,
        })
    }
}

// States that no other terms of the same fractions are smaller than the lowest; it computes nothing.
pub fn lowest_terms_are_smallest()
    ensures { Smallest }
{}
