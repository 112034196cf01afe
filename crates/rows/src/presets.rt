// Whether a preset meets rows, and whether its denominator is the least. Assumes nothing.
ghost use Rattle.std.specs.Prelude.{◌≡◌, ◌*◌, ◌≤◌, true, pos, ◌*ℤ◌, Decides, MatchOption};
ghost use Rattle.integers.specs.Vectors.{dot};
ghost use Rattle.integers.specs.Divisors.{IsGcdAll};
ghost use Rattle.integers.specs.Fractions.{Least};
ghost use Rattle.rows.specs.Rows.{constraint, constraints, Meets, MeetsAll, FirstUnmet, Feasible};
ghost use Rattle.rows.specs.Presets.{WellFormed};

use crate::bounds::FADERS;
use crate::kind::Kind;
use crate::preset::Preset;
use crate::row::Row;
use integers::{common_divisor, product};

// The same numbers in the wider type.
fn widened(numbers: &[i32; FADERS]) -> [i64; FADERS]
    ensures { result ≡ numbers.now }
{
    numbers.map(i64::from)
}

impl Preset {
    // The row's coefficients times the numerators, added. Six products within G times G fit i64, and so does one more.
    pub fn sum(&self, row: &Row) -> i64
        ensures { result ≡ dot row.now.coefficients self.now.numerators }
    {
        let mut sum = 0;
        for (coefficient, numerator) in row.coefficients.iter().zip(&self.numerators) {
            sum += product(*coefficient, *numerator);
        }
        sum
    }

    // The row's side times the denominator.
    pub fn scaled_side(&self, row: &Row) -> i64
        ensures { result ≡ row.now.side *ℤ pos self.now.denominator }
    {
        row.side as i64 * self.denominator as i64
    }

    // The greatest number that divides the denominator and every numerator: 1 where the denominator is the least.
    pub fn shared_divisor(&self) -> u64
        ensures greatest { IsGcdAll self.now.denominator self.now.numerators result }
        ensures least { (result ≡ 1 → Least self.now.numerators self.now.denominator) × (Least self.now.numerators self.now.denominator → result ≡ 1) }
    {
        common_divisor(u64::from(self.denominator), &widened(&self.numerators))
    }

    // Whether it is a preset for a desk with so many faders: in lowest terms, and 0 at the faders that the desk does not have.
    pub fn is_well_formed(&self, count: usize) -> bool
        ensures { Decides result (WellFormed count self.now.numerators self.now.denominator) }
    {
        self.numerators.iter().skip(count).all(|n| *n == 0) && self.shared_divisor() == 1
    }

    // Whether the levels meet the row.
    pub fn meets(&self, row: &Row) -> bool
        ensures { Decides result (Meets self.now.numerators self.now.denominator (constraint row.now)) }
    {
        let sum = self.sum(row);
        let side = self.scaled_side(row);
        match row.kind {
            Kind::AtMost => sum <= side,
            Kind::Below => sum < side,
            Kind::Equal => sum == side,
        }
    }

    // The place of the first row that the levels do not meet; none where they meet all.
    pub fn first_unmet(&self, rows: &[Row]) -> Option<usize>
        ensures { MatchOption result (MeetsAll self.now.numerators self.now.denominator (constraints rows.now)) (λ i. FirstUnmet self.now.numerators self.now.denominator (constraints rows.now) i) }
    {
        let unmet = rows.iter().position(|row| !self.meets(row))?;
        Some(unmet)
    }

    // Whether the levels meet all rows; then some levels do.
    pub fn meets_all(&self, rows: &[Row]) -> bool
        ensures meets { Decides result (MeetsAll self.now.numerators self.now.denominator (constraints rows.now)) }
        ensures feasible { result ≡ true → Feasible (constraints rows.now) }
    {
        self.first_unmet(rows).is_none()
    }
}
