// A guard over lent rules: the rules that it muted sound again at its end, on every way out. Assumes nothing.
ghost use Rattle.std.specs.Prelude.{◌≡◌, ◌<◌, not, length, slice_set};
ghost use Rattle.rows.specs.Limits.{most_rows};
ghost use Rattle.console.specs.Marks.{marked, restored, Markable};

use plans::Rule;
use rows::ROWS;

pub struct Guard<'a> {
    pub rules: &'a mut [Rule],
    // which of them it muted
    // kept: a mark beside each rule, in fixed memory, since a rule that is lent has no place for it
    pub muted: [bool; ROWS],
}

impl Drop for Guard<'_> {
    fn drop(self)
        ensures { self.exit.0.now ≡ restored self.entry.muted self.entry.rules.now }
    {
        let Guard { rules, muted } = self;
        for (i, rule) in rules.iter_mut().enumerate() {
            if i < ROWS && muted[i] {
                rule.sounds = true;
            }
        }
    }
}

impl Guard<'_> {
    // The rules as they stand.
    pub fn rules(&self) -> &[Rule]
        ensures { result.now ≡ self.now.rules.now }
    {
        self.rules
    }

    // Mutes a rule that sounds, or has one that it muted sound again.
    pub fn mark(&mut self, i: usize, sounds: bool)
        requires within { (i < length self.old.rules.now) × (i < most_rows) }
        requires other { Markable self.old.muted self.old.rules.now i sounds }
        ensures same { self.new.rules.ghost_name ≡ self.old.rules.ghost_name }
        ensures marks { self.new.rules.now ≡ marked self.old.rules.now i sounds }
        ensures muted { self.new.muted ≡ slice_set self.old.muted i (not sounds) }
        ensures back { restored self.new.muted self.new.rules.now ≡ restored self.old.muted self.old.rules.now }
    {
        self.rules[i].sounds = sounds;
        self.muted[i] = !sounds;
    }
}
