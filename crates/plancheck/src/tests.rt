// Answers that do not hold, bad lines, and what is said of each. Assumes nothing.
use crate::follow::follow;
use crate::words::Said;
use plans::Plan;
use std::alloc::{AllocError, Global};
use std::test::Fail;

// Whether a line is followed by these words.
fn says(heap: Global, plan: &mut Plan, line: &[u8], words: &str) -> Result<bool, AllocError> {
    let followed = follow(plan, line);
    let said = Said {
        number: 7,
        plan: *plan,
        followed,
    };
    let text = said.to_string(heap)?;
    Ok(text.as_str() == words)
}

#[test]
fn answers_that_fail(rt: HostRuntime) -> Result<(), Fail> {
    let heap = rt.alloc();
    let mut plan = Plan::new();
    assert!(rt; says(heap, &mut plan, b"faders 1", "line 7: a desk with 1 fader")?);
    assert!(rt; says(heap, &mut plan, b"1 <= 40", "line 7: rule 1: 1 <= 40")?);
    assert!(rt;
        says(
            heap,
            &mut plan,
            b"preset 4 / 2",
            "line 7: preset 4 / 2 holds: it meets the one rule; all its numbers can be divided by 2",
        )?
    );
    assert!(rt;
        says(
            heap,
            &mut plan,
            b"preset 81 / 2",
            "line 7: preset 81 / 2 does not hold: rule 1 (1 <= 40) is not met, its sum is 81 / 2",
        )?
    );
    assert!(rt;
        says(
            heap,
            &mut plan,
            b"clash 1",
            "line 7: clash 1 does not hold: fader 1 does not cancel, its weighted coefficients sum to 1",
        )?
    );
    Ok(())
}

#[test]
fn bad_lines(rt: HostRuntime) -> Result<(), Fail> {
    let heap = rt.alloc();
    let mut plan = Plan::new();
    assert!(rt;
        says(
            heap,
            &mut plan,
            b"1 <= 40",
            "line 7: no desk yet: begin with a line such as `faders 2`",
        )?
    );
    assert!(rt;
        says(
            heap,
            &mut plan,
            b"faders 7",
            "line 7: a desk has 1 to 6 faders",
        )?
    );
    assert!(rt; says(heap, &mut plan, b"faders 2", "line 7: a desk with 2 faders")?);
    assert!(rt;
        says(
            heap,
            &mut plan,
            b"1 <= 40",
            "line 7: the rule has 1 coefficient, and the desk has 2 faders",
        )?
    );
    Ok(())
}
