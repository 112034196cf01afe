// Products of two numbers, in the next wider type. Assumes nothing.
ghost use Rattle.std.specs.Prelude.{◌≡◌, ◌*ℤ◌};

// The product, which always fits.
pub fn product(a: i32, b: i32) -> i64
    ensures { result ≡ a *ℤ b }
{
    a as i64 * b as i64
}
