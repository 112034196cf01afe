// That the engine as sold decides the sample plans as written. Assumes nothing.
ghost use Rattle.sold_engine.specs.SamplePlans.{SamplesDecided};

// States the verdict on each sample plan. It computes nothing.
pub fn sample_plans_are_decided()
    ensures { SamplesDecided }
{}
