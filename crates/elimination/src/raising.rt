// The levels with one fader set. Assumes nothing.
ghost use Rattle.std.specs.Prelude.{◌≡◌};
ghost use Rattle.std.specs.Option.{option_map};
ghost use Rattle.std.specs.Result.{result_ok};
ghost use Rattle.elimination.specs.Levels.{with_level};
ghost use Rattle.elimination.specs.Limiting.{limit_of, levels_of};

use crate::limit::{Beyond, Limit};
use crate::setting::Setting;
use integers::product;
use rows::Preset;

impl Setting<'_> {
    // The fader at the value, over the product of the denominators and then over the least, unless a number is beyond G.
    pub fn with_level(&self, v: &Limit) -> Result<Preset, Beyond>
        ensures { option_map levels_of (result_ok result) ≡ with_level self.now.fader.index (levels_of self.now.levels.now) (limit_of v.now) }
    {
        let mut numerators = self.levels.scaled(v.denominator);
        numerators[self.fader.place()] = product(v.numerator, self.levels.denominator as i32);
        Preset::least(
            &numerators,
            self.levels.denominator as u64 * v.denominator as u64,
        )
        .ok_or(Beyond)
    }
}
