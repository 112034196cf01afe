// The levels of the engine below, completed by the pivots from the last one back. Assumes nothing.
ghost use Rattle.std.specs.Prelude.{◌≡◌, ◌^◌, ◌<◌, [], pos, neg_ℤ, if◌then◌else◌, int_lt, slice_set, unsigned_abs};
ghost use Rattle.std.specs.Option.{option_map};
ghost use Rattle.rows.specs.Presets.{terms_of};
ghost use Rattle.substitution.specs.Lifting.{completed, all_completed};
ghost use Rattle.substitution.specs.Holding.{pivot_of, latest_first, level_verdict};

use crate::kept::Pivot;
use engine::{Cause, Fault};
use rows::{Fader, Preset};

// The levels with one fader at 0.
fn without(levels: &Preset, fader: Fader) -> Preset
    ensures { terms_of result ≡ (slice_set levels.now.numerators fader.index (pos 0), levels.now.denominator) }
{
    let mut numerators = levels.numerators;
    numerators[fader.place()] = 0;
    Preset {
        numerators,
        denominator: levels.denominator,
    }
}

// The number, turned where the coefficient is below 0.
fn turned(number: i64, coefficient: i32) -> i64
    requires { unsigned_abs number < 2 ^ 63 }
    ensures { result ≡ (if int_lt (pos 0) coefficient then number else neg_ℤ number) }
{
    if coefficient > 0 { number } else { -number }
}

impl Pivot {
    // The levels with the pivot's fader solved from the others, over the least denominator; none where a number is beyond G.
    pub fn complete(&self, levels: &Preset) -> Option<Preset>
        ensures { option_map terms_of result ≡ completed (pivot_of self.now) levels.now.numerators levels.now.denominator }
    {
        let place = self.fader.place();
        let coefficient = self.row.coefficients[place];
        let left = without(levels, self.fader).remaining(&self.row);
        let size = coefficient.unsigned_abs();
        let mut numerators = levels.scaled(size);
        numerators[place] = turned(left, coefficient);
        Preset::least(&numerators, size as u64 * levels.denominator as u64)
    }
}

// The levels completed by all pivots; where a number is beyond G, the fault names the fader.
pub fn complete_all(pivots: &[Pivot], below: &Preset) -> Result<Preset, Fault>
    ensures { level_verdict result ≡ all_completed (latest_first pivots.now []) below.now.numerators below.now.denominator }
{
    let mut levels = *below;
    // kept: by places, since over `pivots.iter().rev()` another order is another iterator, and is refused as that, not for the levels
    for i in (0..pivots.len()).rev() {
        let pivot = pivots[i];
        levels = pivot
            .complete(&levels)
            .ok_or(Fault::new(Cause::NumberBeyond, pivot.fader.index))?;
    }
    Ok(levels)
}
