// An answer to a list of rows. Assumes nothing.
ghost use Rattle.std.specs.Prelude.{◌≡◌};
ghost use Rattle.engine.specs.States.{holds_clash};

use rows::preset::Preset;
use rows::weights::Weights;

#[derive(Clone, Copy, PartialEq, Eq, Debug)]
pub enum Answer {
    // levels that meet the rows
    Preset(Preset),
    // weights that are a clash of the rows
    Clash(Weights),
}

impl Answer {
    pub fn is_clash(&self) -> bool
        ensures { result ≡ holds_clash self.now }
    {
        matches!(self, Answer::Clash(_))
    }
}
