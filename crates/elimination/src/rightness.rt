// That the working's verdict is right. Assumes nothing.
ghost use Rattle.elimination.specs.Sound.{Sound};

// States that every verdict of the working is right: a preset is well formed and meets the rows, a clash is one. It computes nothing.
pub fn verdict_is_right()
    ensures { Sound }
{}
