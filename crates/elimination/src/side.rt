// The two sides from which a row limits a fader's level. Assumes nothing.
ghost use Rattle.std.specs.Prelude.{◌≡◌, ◌^◌, ◌<◌, true, Bool, ℤ, pos, ◌+ℤ◌, ◌-ℤ◌, neg_ℤ, unsigned_abs};
ghost use Rattle.elimination.specs.Table.{is_positive, is_negative};
ghost use Rattle.elimination.specs.Levels.{better_upper, better_lower};
ghost use Rattle.elimination.specs.Levels.{Limit as Bound};
ghost use Rattle.elimination.specs.Limiting.{limit_of};
ghost use Rattle.elimination.specs.Blending.{positive_is, negative_is};
ghost use Rattle.elimination.specs.Orders.{Total, Chain};
ghost use Rattle.elimination.specs.Ranking.{uppers_total, uppers_chain, lowers_total, lowers_chain};

use crate::limit::Limit;
use crate::tighter::{across, precedes};

// A side: which rows limit the fader there, by which limits, and which of two limits is the tighter.
pub trait Side: Copy {
    // Whether a row with this coefficient of the fader limits it on this side.
    ghost limits: { ℤ → Bool };

    // The numerator of the limit, made of what the row's side leaves for the fader.
    ghost turned: { ℤ → ℤ };

    // The numerator of the value 1 beyond a limit, on the side where the limit is met.
    ghost beyond: { Bound → ℤ };

    // Whether the first limit is better than the second.
    ghost tighter: { Bound → Bound → Bool };

    fn limits(coefficient: i32) -> bool
        ensures { result ≡ limits coefficient };

    fn turned(remaining: i64) -> i64
        requires { unsigned_abs remaining < 2 ^ 63 }
        ensures { result ≡ turned remaining };

    fn beyond(limit: &Limit) -> i64
        ensures { result ≡ beyond (limit_of limit.now) };

    fn tighter(first: &Limit, second: &Limit) -> bool
        ensures { result ≡ tighter (limit_of first.now) (limit_of second.now) };

    // A coefficient of 0 limits nothing.
    ghost sized: { (z : ℤ) → limits z ≡ true → 0 < unsigned_abs z };

    // Of any two limits, one is not worse than the other.
    ghost total: { Total tighter };

    // Not worse than not worse is not worse.
    ghost chain: { Chain tighter };
}

// From above: the smaller of two limits is the better.
#[derive(Clone, Copy)]
pub struct Above;

// From below: the larger of two limits is the better.
#[derive(Clone, Copy)]
pub struct Below;

impl Side for Above {
    ghost limits = { is_positive };

    ghost turned = { λ z. z };

    ghost beyond = { λ u. u.numerator -ℤ pos u.denominator };

    ghost tighter = { better_upper };

    ghost sized = { λ z h. (positive_is z h).0 };

    ghost total = { uppers_total };

    ghost chain = { uppers_chain };

    fn limits(coefficient: i32) -> bool {
        coefficient > 0
    }

    fn turned(remaining: i64) -> i64 {
        remaining
    }

    fn beyond(limit: &Limit) -> i64 {
        limit.numerator as i64 - limit.denominator as i64
    }

    fn tighter(first: &Limit, second: &Limit) -> bool {
        precedes(
            across(first, second),
            across(second, first),
            first.strict,
            second.strict,
        )
    }
}

impl Side for Below {
    ghost limits = { is_negative };

    ghost turned = { neg_ℤ };

    ghost beyond = { λ l. l.numerator +ℤ pos l.denominator };

    ghost tighter = { better_lower };

    ghost sized = { λ z h. (negative_is z h).0 };

    ghost total = { lowers_total };

    ghost chain = { lowers_chain };

    fn limits(coefficient: i32) -> bool {
        coefficient < 0
    }

    fn turned(remaining: i64) -> i64 {
        -remaining
    }

    fn beyond(limit: &Limit) -> i64 {
        limit.numerator as i64 + limit.denominator as i64
    }

    fn tighter(first: &Limit, second: &Limit) -> bool {
        precedes(
            across(second, first),
            across(first, second),
            first.strict,
            second.strict,
        )
    }
}
