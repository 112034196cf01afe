// How two limits are compared: across, so that no fraction is formed. Assumes nothing.
ghost use Rattle.std.specs.Prelude.{◌≡◌, not, ◌&&◌, ◌||◌, pos, ◌*ℤ◌, int_lt};

use crate::limit::Limit;
use integers::product;

// The numerator of one limit times the denominator of another.
pub fn across(x: &Limit, y: &Limit) -> i64
    ensures { result ≡ x.now.numerator *ℤ pos y.now.denominator }
{
    product(x.numerator, y.denominator as i32)
}

// Whether the first number comes before the second, or is equal to it and only the first is strict.
pub fn precedes(first: i64, second: i64, strict: bool, other: bool) -> bool
    ensures { result ≡ (int_lt first second || (not (int_lt second first) && (strict && not other))) }
{
    first < second || (first <= second && strict && !other)
}
