// Worked examples: each refusal of the editing calls, the ends of the ranges, and that a refused call leaves the plan.
use crate::plan::Plan;
use engine::refusal::Refusal;
use rows::bounds::ROWS;
use rows::kind::Kind;
use std::test::Fail;

// 0 where the call was taken.
fn number(reply: Result<(), Refusal>) -> u8 {
    reply.err().map_or(0, |refusal| refusal.number())
}

// A desk with two faders, and the rule that the first is below 40.
fn desk() -> Result<Plan, Fail> {
    let mut plan = Plan::new();
    plan.open(2)?;
    plan.add(1, &[1, 0, 0, 0, 0, 0], 40)?;
    Ok(plan)
}

#[test]
fn no_plan(rt: HostRuntime) {
    let mut plan = Plan::new();
    assert!(rt; number(plan.open(0)) == 1);
    assert!(rt; number(plan.open(7)) == 1);
    assert!(rt; number(plan.add(9, &[0; 6], 0)) == 2);
    assert!(rt; number(plan.lift()) == 2);
    assert!(rt; number(plan.mute(0)) == 2);
    assert!(rt; number(plan.sound(0)) == 2);
    assert!(rt; plan == Plan::new());
    assert!(rt; number(plan.open(6)) == 0);
}

#[test]
fn refused(rt: HostRuntime) -> Result<(), Fail> {
    let mut plan = desk()?;
    let before = plan;
    assert!(rt; number(plan.open(7)) == 1);
    assert!(rt; number(plan.add(3, &[1_001; 6], 1_000_001)) == 4);
    assert_eq!(rt;
        plan.add(0, &[0, -1_001, 1, 0, 0, 0], 1_000_001),
        Err(Refusal::BadCoefficient(1))
    );
    assert_eq!(rt;
        plan.add(0, &[0, 0, 1, 1_001, 0, 0], 1_000_001),
        Err(Refusal::BadCoefficient(2))
    );
    assert!(rt; number(plan.add(0, &[0; 6], 1_000_001)) == 6);
    assert!(rt; number(plan.mute(1)) == 8);
    assert!(rt; number(plan.sound(1)) == 8);
    assert!(rt; number(plan.sound(0)) == 10);
    assert!(rt; plan == before);
    Ok(())
}

#[test]
fn ranges(rt: HostRuntime) -> Result<(), Fail> {
    let mut plan = desk()?;
    plan.add(2, &[1_000, -1_000, 0, 0, 0, 0], 1_000_000)?;
    plan.add(0, &[0; 6], -1_000_000)?;
    assert_eq!(rt;
        plan.add(0, &[1_001, 0, 0, 0, 0, 0], 0),
        Err(Refusal::BadCoefficient(0))
    );
    assert_eq!(rt; plan.add(0, &[0; 6], 1_000_001), Err(Refusal::BadSide));
    assert_eq!(rt; plan.add(0, &[0; 6], -1_000_001), Err(Refusal::BadSide));
    assert!(rt;
        plan.len == 3
            && plan.rules[1].row.kind == Kind::Equal
            && plan.rules[1].row.side == 1_000_000
    );
    Ok(())
}

#[test]
fn full(rt: HostRuntime) -> Result<(), Fail> {
    let mut plan = desk()?;
    for _ in 1..ROWS {
        plan.add(0, &[0; 6], 0)?;
    }
    assert!(rt; number(plan.add(9, &[0; 6], 0)) == 3);
    for _ in 0..ROWS {
        plan.lift()?;
    }
    assert!(rt; number(plan.lift()) == 7);
    Ok(())
}

#[test]
fn marks(rt: HostRuntime) -> Result<(), Fail> {
    let mut plan = desk()?;
    let before = plan;
    plan.mute(0)?;
    assert!(rt; !plan.rules[0].sounds);
    assert_eq!(rt; plan.mute(0), Err(Refusal::AlreadyMuted));
    plan.sound(0)?;
    assert_eq!(rt; plan.sound(0), Err(Refusal::AlreadySounding));
    assert!(rt; plan == before);
    Ok(())
}
