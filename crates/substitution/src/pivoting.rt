// One equation put to use: the fader that it is solved for, that fader cancelled in the other rows, and what it says without one. Assumes nothing.
ghost use Rattle.std.specs.Prelude.{◌≡◌, ◌/◌, ◌<◌, ◌≤◌, length, take, pos, negsuc, IfSome, MatchResult, Some, None, slice_index_or, unsigned_abs};
ghost use Rattle.std.specs.Option.{option_map};
ghost use Rattle.integers.specs.Divisors.{gcd_of};
ghost use Rattle.integers.specs.Vectors.{scale};
ghost use Rattle.rows.specs.Limits.{most_rows};
ghost use Rattle.rows.specs.Carrying.{numbers_of};
ghost use Rattle.engine.specs.Verdicts.{number_beyond};
ghost use Rattle.substitution.specs.Reduction.{first_fader, pivot_factor, cancel_one, cancel_all, contradiction};
ghost use Rattle.substitution.specs.Holding.{kept_of, kepts, index_of};

use crate::kept::{Kept, Pivot};
use crate::short_list::ShortList;
use engine::{Cause, Fault};
use rows::{Carried, Factor, Fader, ROWS, Weights, combine, parts};

// The lowest fader with a coefficient other than 0.
pub fn first_fader(row: &Carried) -> Option<Fader>
    ensures value { option_map index_of result ≡ first_fader 0 row.now.coefficients }
    ensures solvable { IfSome result (λ f. 0 < unsigned_abs (slice_index_or row.now.coefficients f.index (pos 0))) }
{
    let place = row.coefficients.iter().position(|a| *a != 0)?;
    Some(Fader { index: place as u8 })
}

// By what the pivot row is multiplied to cancel a row's coefficient a against its own, b: the part of a without the common divisor, with the sign that b asks for.
fn pivot_factor(a: i32, b: i32, part: Factor) -> Factor
    requires some { 0 < unsigned_abs a }
    requires part { part.value ≡ pos (unsigned_abs a / gcd_of (unsigned_abs a) (unsigned_abs b)) }
    ensures { result.value ≡ pivot_factor a b (gcd_of (unsigned_abs a) (unsigned_abs b)) }
{
    if (a < 0) == (b > 0) {
        part
    } else {
        Factor { value: -part.value }
    }
}

impl Pivot {
    // The row with the pivot's fader cancelled; none where a number is beyond G.
    fn cancel(&self, kept: &Kept) -> Option<Kept>
        ensures { option_map kept_of result ≡ cancel_one self.now.fader.index (numbers_of self.now.row) (kept_of kept.now) }
    {
        let place = self.fader.place();
        let a = kept.row.coefficients[place];
        if a == 0 {
            return Some(*kept);
        }
        let b = self.row.coefficients[place];
        let (part, own) = parts(a, b);
        let other = pivot_factor(a, b, part);
        let row = combine(own, &kept.row, other, &self.row)?;
        Some(Kept {
            kind: kept.kind,
            row,
        })
    }

    // The same for each of the rows, in place; where a number is beyond G, the fault names the fader.
    fn cancel_each(&self, rows: &mut [Kept]) -> Result<(), Fault>
        ensures { MatchResult result (λ _. cancel_all self.now.fader.index (numbers_of self.now.row) (kepts rows.old) ≡ Some (kepts rows.new)) (λ f. (cancel_all self.now.fader.index (numbers_of self.now.row) (kepts rows.old) ≡ None) × (f ≡ number_beyond self.now.fader.index)) }
    {
        for kept in rows.iter_mut() {
            *kept = self
                .cancel(kept)
                .ok_or(Fault::new(Cause::NumberBeyond, self.fader.index))?;
        }
        Ok(())
    }

    // The same for the first rows of an array.
    fn cancel_first(&self, rows: &mut [Kept; ROWS], held: usize) -> Result<(), Fault>
        requires { held ≤ most_rows }
        ensures places { length rows.new ≡ most_rows }
        ensures value { MatchResult result (λ _. cancel_all self.now.fader.index (numbers_of self.now.row) (kepts (take held rows.old)) ≡ Some (kepts (take held rows.new))) (λ f. (cancel_all self.now.fader.index (numbers_of self.now.row) (kepts (take held rows.old)) ≡ None) × (f ≡ number_beyond self.now.fader.index)) }
    {
        self.cancel_each(&mut rows[..held])
    }

    // The same for the rows of a list.
    // kept: the array is lent whole, since a proof knows nothing of a write through a part of an array in a field.
    pub fn cancel_all(&self, rows: &mut ShortList<Kept>) -> Result<(), Fault>
        ensures len { length rows.new ≡ length rows.old }
        ensures value { MatchResult result (λ _. cancel_all self.now.fader.index (numbers_of self.now.row) (kepts rows.old) ≡ Some (kepts rows.new)) (λ f. (cancel_all self.now.fader.index (numbers_of self.now.row) (kepts rows.old) ≡ None) × (f ≡ number_beyond self.now.fader.index)) }
    {
        let held = rows.len;
        self.cancel_first(&mut rows.items, held)
    }
}

// The weights of a row, each times -1.
// kept: `map` asks that every i32 can be negated; that each weight is within G does not reach its closure.
fn negated(row: &Carried) -> [i32; ROWS]
    ensures { result ≡ scale (negsuc 0) row.now.weights }
{
    let mut values = row.weights;
    for value in values.iter_mut() {
        *value = -*value;
    }
    values
}

// The weights that make the equation 0 = side a clash: the row's, negated where the side is above 0.
pub fn contradiction(row: &Carried) -> Weights
    ensures { result.values ≡ contradiction (numbers_of row.now) }
{
    let values = if row.side > 0 {
        negated(row)
    } else {
        row.weights
    };
    Weights { values }
}
