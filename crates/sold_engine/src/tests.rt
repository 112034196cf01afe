// Plans with equations and without, decided by the engine as sold.
// kept: the small functions below stand in the tests of `elimination` too, since no crate can call the tests of another
use crate::sold::{SoldEngine, new_engine, new_table};
use engine::{Cause, Engine, Fault, Refusal};
use rows::{Kind, Row};
use std::process::Abort;
use std::test::Fail;
use substitution::{Substituting, Substitution};

fn row(kind: Kind, a: i32, b: i32, c: i32, side: i32) -> Result<Row, Fail> {
    Row::new(kind, [a, b, c, 0, 0, 0], side).ok_or_else(|| Fail::new("a number beyond G"))
}

fn taken(reply: Result<(), Refusal>) -> Result<(), Fail> {
    reply.map_err(|_| Fail::new("refused"))
}

// The engine with its answer to the rows, or the fault.
fn decide(engine: &mut SoldEngine, count: u8, rows: &[Row]) -> Result<Option<Fault>, Fail> {
    taken(engine.start(count))?;
    for row in rows {
        taken(engine.take(row))?;
    }
    let mut table = new_table();
    match engine.decide(&mut table) {
        Ok(()) => Ok(None),
        Err(Refusal::TooLarge(fault)) => Ok(Some(fault)),
        Err(_) => Err(Fail::new("refused")),
    }
}

fn number(reply: Result<i32, Refusal>) -> Result<i32, Fail> {
    reply.map_err(|_| Fail::new("no such answer"))
}

fn check_preset(
    rt: &impl Abort,
    engine: &SoldEngine,
    numerators: [i32; 3],
    denominator: u32,
) -> Result<(), Fail> {
    for (k, numerator) in numerators.iter().enumerate() {
        assert_eq!(rt; number(engine.numerator(k as u8))?, *numerator);
    }
    let found = engine.denominator().map_err(|_| Fail::new("no preset"))?;
    assert_eq!(rt; found, denominator);
    Ok(())
}

fn check_weights(rt: &impl Abort, engine: &SoldEngine, weights: &[i32]) -> Result<(), Fail> {
    assert!(rt; weights.len() < 17);
    for (i, weight) in weights.iter().enumerate() {
        assert_eq!(rt; number(engine.weight(i as u8))?, *weight);
    }
    assert!(rt; engine.weight(weights.len() as u8).is_err());
    Ok(())
}

#[test]
fn completed_levels(rt: HostRuntime) -> Result<(), Fail> {
    let mut engine = new_engine();
    let rows = [
        row(Kind::AtMost, 1, 0, 1, 90)?,
        row(Kind::Equal, 2, 1, 0, 100)?,
        row(Kind::Equal, 1, -1, 0, 5)?,
        row(Kind::Below, 0, 0, -1, -10)?,
    ];
    assert_eq!(rt; decide(&mut engine, 3, &rows)?, None);
    check_preset(&rt, &engine, [70, 60, 65], 2)?;
    // three pivots
    let sums = [
        row(Kind::Equal, 1, 1, 0, 10)?,
        row(Kind::Equal, 0, 1, 1, 8)?,
        row(Kind::Equal, 1, 0, 1, 6)?,
    ];
    assert_eq!(rt; decide(&mut engine, 3, &sums)?, None);
    check_preset(&rt, &engine, [4, 6, 2], 1)
}

#[test]
fn lifted_weights(rt: HostRuntime) -> Result<(), Fail> {
    let mut engine = new_engine();
    let rows = [
        row(Kind::AtMost, 1, 0, 1, 90)?,
        row(Kind::Equal, 2, 1, 0, 100)?,
        row(Kind::Equal, 1, -1, 0, 5)?,
        row(Kind::Below, 0, 0, -1, -60)?,
    ];
    assert_eq!(rt; decide(&mut engine, 3, &rows)?, None);
    check_weights(&rt, &engine, &[6, -2, -2, 6])
}

#[test]
fn equations_that_contradict(rt: HostRuntime) -> Result<(), Fail> {
    let mut engine = new_engine();
    let first = row(Kind::Equal, 1, -1, 0, 5)?;
    assert_eq!(rt;
        decide(&mut engine, 2, &[first, row(Kind::Equal, 2, -2, 0, 12)?])?,
        None
    );
    check_weights(&rt, &engine, &[2, -1])?;
    assert_eq!(rt;
        decide(&mut engine, 2, &[first, row(Kind::Equal, 2, -2, 0, 8)?])?,
        None
    );
    check_weights(&rt, &engine, &[-2, 1])?;
    assert_eq!(rt;
        decide(&mut engine, 2, &[first, row(Kind::Equal, 2, -2, 0, 10)?])?,
        None
    );
    check_preset(&rt, &engine, [5, 0, 0], 1)
}

#[test]
fn sample_plans(rt: HostRuntime) -> Result<(), Fail> {
    let mut engine = new_engine();
    let evening = [
        row(Kind::AtMost, 1, 1, 0, 150)?,
        row(Kind::Below, -1, 1, 0, 0)?,
        row(Kind::AtMost, 0, -1, 0, -40)?,
        row(Kind::AtMost, 1, 0, 0, 40)?,
    ];
    assert_eq!(rt; decide(&mut engine, 2, &evening[..3])?, None);
    check_preset(&rt, &engine, [150, 115, 0], 2)?;
    assert_eq!(rt; decide(&mut engine, 2, &evening)?, None);
    check_weights(&rt, &engine, &[0, 1, 1, 1])?;
    assert_eq!(rt; decide(&mut engine, 3, &[])?, None);
    check_preset(&rt, &engine, [0, 0, 0], 1)?;
    assert_eq!(rt;
        decide(&mut engine, 1, &[row(Kind::Equal, 3, 0, 0, 100)?])?,
        None
    );
    check_preset(&rt, &engine, [100, 0, 0], 3)?;
    let one_and_two = [row(Kind::Equal, 1, 0, 0, 1)?, row(Kind::Equal, 1, 0, 0, 2)?];
    assert_eq!(rt; decide(&mut engine, 1, &one_and_two)?, None);
    check_weights(&rt, &engine, &[1, -1])?;
    let at_least = row(Kind::AtMost, -1, 0, 0, 0)?;
    assert_eq!(rt;
        decide(&mut engine, 1, &[row(Kind::Below, 1, 0, 0, 0)?, at_least])?,
        None
    );
    check_weights(&rt, &engine, &[1, 1])?;
    assert_eq!(rt;
        decide(&mut engine, 1, &[row(Kind::AtMost, 1, 0, 0, 0)?, at_least])?,
        None
    );
    check_preset(&rt, &engine, [0, 0, 0], 1)?;
    assert_eq!(rt;
        decide(&mut engine, 1, &[row(Kind::Below, 1, 0, 0, 5)?])?,
        None
    );
    check_preset(&rt, &engine, [4, 0, 0], 1)?;
    assert_eq!(rt;
        decide(&mut engine, 1, &[row(Kind::Below, 0, 0, 0, 0)?])?,
        None
    );
    check_weights(&rt, &engine, &[1])
}

#[test]
fn faults_of_the_layer(rt: HostRuntime) -> Result<(), Fail> {
    let mut engine = new_engine();
    let wide = [
        row(Kind::AtMost, 30_001, 40_000, 0, 0)?,
        row(Kind::Equal, 40_000, 1, 0, 0)?,
    ];
    assert_eq!(rt;
        decide(&mut engine, 2, &wide)?,
        Some(Fault::new(Cause::NumberBeyond, 0))
    );
    assert!(rt; engine.denominator().is_err());
    let heavy = [
        row(Kind::Equal, 32_768, 0, 0, 0)?,
        row(Kind::AtMost, 1, 1, 0, 0)?,
        row(Kind::Below, 0, -32_769, 0, 0)?,
    ];
    assert_eq!(rt;
        decide(&mut engine, 2, &heavy)?,
        Some(Fault::new(Cause::WeightBeyond, 1))
    );
    let fine = [
        row(Kind::Equal, 100_000, 1, 0, 1)?,
        row(Kind::Equal, 0, 100_000, 1, 1)?,
        row(Kind::AtMost, 0, 0, 1, 0)?,
    ];
    assert_eq!(rt;
        decide(&mut engine, 3, &fine)?,
        Some(Fault::new(Cause::NumberBeyond, 0))
    );
    Ok(())
}

#[test]
fn faults_from_below(rt: HostRuntime) -> Result<(), Fail> {
    let a = row(Kind::AtMost, 1, 2, 0, 0)?;
    let b = row(Kind::AtMost, 1, -2, 0, 0)?;
    let c = row(Kind::AtMost, -1, 1, 0, 0)?;
    let rows = [a, a, a, a, b, b, b, b, c, c, c, c, c, c, c, c];
    let mut engine = new_engine();
    assert_eq!(rt;
        decide(&mut engine, 2, &rows)?,
        Some(Fault {
            layer: 1,
            ..Fault::new(Cause::TableFull, 1)
        })
    );
    assert!(rt; engine.denominator().is_err());
    let mut table = new_table();
    assert_eq!(rt; engine.decide(&mut table[1..]), Err(Refusal::ShortTable));
    Ok(())
}

#[test]
fn two_layers(rt: HostRuntime) -> Result<(), Fail> {
    let a = row(Kind::AtMost, 1, 2, 0, 0)?;
    let b = row(Kind::AtMost, 1, -2, 0, 0)?;
    let c = row(Kind::AtMost, -1, 1, 0, 0)?;
    let rows = [a, a, a, a, b, b, b, b, c, c, c, c, c, c, c, c];
    let mut engine = Substitution::new(Substituting {
        below: new_engine(),
    });
    taken(engine.start(2))?;
    for row in &rows {
        taken(engine.take(row))?;
    }
    let mut table = new_table();
    match engine.decide(&mut table) {
        Err(Refusal::TooLarge(fault)) => {
            assert_eq!(rt; fault.layer, 2);
            Ok(())
        },
        _ => Err(Fail::new("no fault")),
    }
}
