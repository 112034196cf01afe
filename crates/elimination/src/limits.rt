// The limit that a row sets for one fader at given levels of the faders above it.
// Assumes, where a function requires it, that the fader stands in the row.
ghost use Rattle.std.specs.Prelude.{◌≡◌, ◌*◌, ◌^◌, ◌<◌};
ghost use Rattle.std.specs.Option.{option_map};
ghost use Rattle.std.specs.Result.{result_ok};
ghost use Rattle.elimination.specs.Lines.{line};
ghost use Rattle.elimination.specs.Table.{size};
ghost use Rattle.elimination.specs.Levels.{lowest};
ghost use Rattle.elimination.specs.Limiting.{limit_of, levels_of};
ghost use Rattle.elimination.specs.Tightest.{limit_by};

use crate::cell::Cell;
use crate::limit::{Beyond, Limit};
use crate::setting::Setting;
use crate::side::Side;
use integers::Fraction;
use rows::narrow;

// The fraction in lowest terms, unless a number is then beyond G.
pub fn lowest(numerator: i64, denominator: u64, strict: bool) -> Result<Limit, Beyond>
    requires { (0 < denominator) × (denominator < 2 ^ 63) }
    ensures { option_map limit_of (result_ok result) ≡ lowest numerator denominator strict }
{
    // there is one, since the denominator is positive
    let fraction = Fraction::new(numerator, denominator as i64).unwrap();
    let above = narrow(fraction.numerator).ok_or(Beyond)?;
    let below = narrow(fraction.denominator).ok_or(Beyond)?;
    Ok(Limit {
        numerator: above,
        denominator: below as u32,
        strict,
    })
}

impl Setting<'_> {
    // The size of the fader's coefficient, times the denominator.
    fn divisor(&self, cell: &Cell) -> u64
        requires { 0 < size self.now.fader.index (line cell.now) }
        ensures value { result ≡ size self.now.fader.index (line cell.now) * self.now.levels.now.denominator }
        ensures range { (0 < result) × (result < 2 ^ 63) }
    {
        cell.row.coefficients[self.fader.place()].unsigned_abs() as u64
            * self.levels.denominator as u64
    }

    // The limit on a side, unless a number is beyond G.
    pub fn limit_on<S: Side>(&self, cell: &Cell) -> Result<Limit, Beyond>
        requires { 0 < size self.now.fader.index (line cell.now) }
        ensures { option_map limit_of (result_ok result) ≡ limit_by S.turned self.now.fader.index (levels_of self.now.levels.now) (line cell.now) }
    {
        lowest(
            S::turned(self.levels.remaining(&cell.row)),
            self.divisor(cell),
            cell.strict,
        )
    }
}
