// That the box replies to the sample runs as written. Assumes nothing.
ghost use Rattle.preset_box.specs.SampleRuns.{SamplesReplied};

// States the replies to each sample run. It computes nothing.
pub fn sample_runs_are_replied()
    ensures { SamplesReplied }
{}
