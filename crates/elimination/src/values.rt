// The level that is chosen between the limits of a fader. Assumes nothing.
ghost use Rattle.std.specs.Prelude.{◌≡◌, if◌then◌else◌, Some};
ghost use Rattle.std.specs.Option.{option_map};
ghost use Rattle.std.specs.Result.{result_ok};
ghost use Rattle.elimination.specs.Levels.{value};
ghost use Rattle.elimination.specs.Limiting.{limit_of};

use crate::limit::{Beyond, Limit};
use crate::limits::lowest;
use crate::side::{Above, Below, Side};
use crate::tighter::across;

// The numerator of a limit, and that of the value 1 beyond where the limit may not be reached.
fn nearest<S: Side>(limit: &Limit) -> i64
    ensures { result ≡ (if limit.now.strict then S.beyond (limit_of limit.now) else limit.now.numerator) }
{
    if limit.strict {
        S::beyond(limit)
    } else {
        limit.numerator as i64
    }
}

// Half the sum of two limits, unless a number is beyond G.
fn middle(l: &Limit, u: &Limit) -> Result<Limit, Beyond>
    ensures { option_map limit_of (result_ok result) ≡ value (Some (limit_of l.now)) (Some (limit_of u.now)) }
{
    lowest(
        across(l, u) + across(u, l),
        2 * (l.denominator as u64 * u.denominator as u64),
        false,
    )
}

// The value between the best limits, unless a number is beyond G.
pub fn value(lower: Option<Limit>, upper: Option<Limit>) -> Result<Limit, Beyond>
    ensures { option_map limit_of (result_ok result) ≡ value (option_map limit_of lower) (option_map limit_of upper) }
{
    match (lower, upper) {
        (None, None) => lowest(0, 1, false),
        (None, Some(u)) => lowest(nearest::<Above>(&u), u.denominator as u64, false),
        (Some(l), None) => lowest(nearest::<Below>(&l), l.denominator as u64, false),
        (Some(l), Some(u)) => middle(&l, &u),
    }
}
