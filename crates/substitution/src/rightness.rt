// That the layer's verdicts are right where those of the engine below are. Assumes nothing.
ghost use Rattle.substitution.specs.Sound.{SoundOver};

// States that over any engine whose verdicts are right, so are the layer's. It computes nothing.
pub fn verdict_is_right_over_any()
    ensures { SoundOver }
{}
