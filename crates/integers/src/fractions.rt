// A fraction in lowest terms. Assumes nothing; every value of the type keeps its invariant.
ghost use Rattle.std.specs.Prelude.{pos, ◌<ℤ◌};
ghost use Rattle.integers.specs.Fractions.{Lowest};

// A numerator over a positive denominator that share no divisor above 1.
#[derive(Clone, Copy)]
pub struct Fraction {
    pub numerator: i64,
    pub denominator: i64,
    ghost positive: { pos 0 <ℤ denominator },
    ghost lowest: { Lowest numerator denominator },
}
