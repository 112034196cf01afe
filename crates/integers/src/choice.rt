// The first best of a list, for any type with a total order. Assumes nothing.
ghost use Rattle.std.specs.Prelude.{◌≡◌, Bool, true, false, length, MatchOption};
ghost use Rattle.integers.specs.Choice.{beats, FirstBest};

// Things of which any two compare.
pub trait Better {
    // The first is not worse than the second.
    ghost not_worse: { Self → Self → Bool };

    // Whether the first is better: the second is worse than it.
    fn better(&self, other: &Self) -> bool
        ensures { result ≡ beats not_worse self.now other.now };

    // Of any two, one is not worse than the other.
    ghost total: { (x y : Self) → not_worse x y ≡ false → not_worse y x ≡ true };

    // Not worse than not worse is not worse.
    ghost chain: { (x y z : Self) → not_worse x y ≡ true → not_worse y z ≡ true → not_worse x z ≡ true };
}

// The place of the best, the first among equals; none where the list is empty.
pub fn first_best<T: Better>(items: &[T]) -> Option<usize>
    ensures { MatchOption result (length items.now ≡ 0) (λ b. FirstBest T.not_worse items.now b) }
{
    if items.is_empty() {
        return None;
    }
    let mut best = 0;
    // kept: `for (i, item) in items.iter().enumerate().skip(1)` would still read `items[best]` by its place
    for i in 1..items.len() {
        if items[i].better(&items[best]) {
            best = i;
        }
    }
    Some(best)
}
