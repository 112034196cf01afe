// The greatest common divisor of two numbers and of many. Assumes nothing.
ghost use Rattle.std.specs.Prelude.{◌≡◌};
ghost use Rattle.integers.specs.Divisors.{gcd_of, gcd_all, IsGcd, IsGcdAll};

// Euclid's rule, by recursion on the second number, which falls at each call.
pub fn gcd(a: u64, b: u64) -> u64
    ensures value { result ≡ gcd_of a b }
    ensures greatest { IsGcd a b result }
{
    if b == 0 { a } else { gcd(b, a % b) }
}

// The common divisor of `first` and of the sizes of `values`.
pub fn common_divisor(first: u64, values: &[i64]) -> u64
    ensures value { result ≡ gcd_all first values.now }
    ensures greatest { IsGcdAll first values.now result }
{
    let mut g = first;
    for v in values {
        g = gcd(g, v.unsigned_abs());
    }
    g
}
