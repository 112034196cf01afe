// Examples of what the crate does.
ghost use Rattle.std.specs.Prelude.{not, nat_lt};
ghost use Rattle.std.proofs.Common.{rules};

use crate::choice::{Better, first_best};
use crate::divisors::{common_divisor, gcd};
use crate::fractions::Fraction;

// A smaller cost is better.
#[derive(Clone, Copy)]
struct Cost {
    value: u32,
}

impl Better for Cost {
    ghost not_worse = { λ x y. not (nat_lt y.value x.value) };

    ghost total = { Prim.search rules };

    ghost chain = { Prim.search rules };

    fn better(&self, other: &Cost) -> bool {
        self.value < other.value
    }
}

#[test]
fn divisors(rt: HostRuntime) {
    assert_eq!(rt; gcd(12, 18), 6);
    assert_eq!(rt; gcd(7, 0), 7);
    assert_eq!(rt; gcd(0, 0), 0);
    assert_eq!(rt; gcd(0, 5), 5);
    assert_eq!(rt; common_divisor(12, &[18, -27]), 3);
    assert_eq!(rt; common_divisor(0, &[]), 0);
}

// The terms of the fraction in lowest terms.
fn lowest(numerator: i64, denominator: i64) -> Option<(i64, i64)> {
    Fraction::new(numerator, denominator).map(|f| (f.numerator, f.denominator))
}

#[test]
fn lowest_terms(rt: HostRuntime) {
    assert_eq!(rt; lowest(-6, 4), Some((-3, 2)));
    assert_eq!(rt; lowest(0, 7), Some((0, 1)));
    assert_eq!(rt; lowest(i64::MIN, 2), Some((-4611686018427387904, 1)));
    assert_eq!(rt; lowest(5, 0), None);
    assert_eq!(rt; lowest(5, -1), None);
}

#[test]
fn first_of_equals(rt: HostRuntime) {
    let costs = [
        Cost { value: 5 },
        Cost { value: 2 },
        Cost { value: 9 },
        Cost { value: 2 },
    ];
    assert_eq!(rt; first_best(&costs), Some(1));
    assert_eq!(rt; first_best(&costs[..1]), Some(0));
    assert_eq!(rt; first_best(&costs[..0]), None);
}
