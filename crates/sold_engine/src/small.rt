// That the engine as sold takes every small plan. Assumes nothing.
ghost use Rattle.sold_engine.specs.SmallPlans.{SmallPlansTaken};

// States that the verdict on a small plan is never a fault. It computes nothing.
pub fn small_plans_are_taken()
    ensures { SmallPlansTaken }
{}
