// Plans of one and two faders, and one that fills the table.
use crate::cell::Cell;
use crate::eliminating::{Elimination, FourierMotzkin};
use crate::table::ROOM;
use engine::{Cause, Engine, Fault, Refusal};
use rows::{Kind, Row};
use std::process::Abort;
use std::test::Fail;

fn row(kind: Kind, a: i32, b: i32, side: i32) -> Result<Row, Fail> {
    Ok(Row::new(kind, [a, b, 0, 0, 0, 0], side).ok_or("a number beyond G")?)
}

fn taken(reply: Result<(), Refusal>) -> Result<(), Fail> {
    reply.map_err(|_| Fail::new("refused"))
}

// The engine with its answer to the rows, or the fault.
fn decide(engine: &mut Elimination, count: u8, rows: &[Row]) -> Result<Option<Fault>, Fail> {
    taken(engine.start(count))?;
    for row in rows {
        taken(engine.take(row))?;
    }
    let mut table = [Cell::blank(); ROOM];
    match engine.decide(&mut table) {
        Ok(()) => Ok(None),
        Err(Refusal::TooLarge(fault)) => Ok(Some(fault)),
        Err(_) => Err(Fail::new("refused")),
    }
}

fn number(reply: Result<i32, Refusal>) -> Result<i32, Fail> {
    reply.map_err(|_| Fail::new("no such answer"))
}

fn check_preset(
    rt: &impl Abort,
    engine: &Elimination,
    a: i32,
    b: i32,
    denominator: u32,
) -> Result<(), Fail> {
    assert_eq!(rt; number(engine.numerator(0))?, a);
    assert_eq!(rt; number(engine.numerator(1))?, b);
    assert_eq!(rt;
        engine.denominator().map_err(|_| Fail::new("no preset"))?,
        denominator
    );
    Ok(())
}

#[test]
fn one_fader(rt: HostRuntime) -> Result<(), Fail> {
    let mut engine = Elimination::new(FourierMotzkin);
    let above = row(Kind::AtMost, -1, 0, 0)?;
    assert_eq!(rt;
        decide(&mut engine, 1, &[row(Kind::Below, 1, 0, 0)?, above])?,
        None
    );
    assert_eq!(rt; number(engine.weight(0))?, 1);
    assert_eq!(rt; number(engine.weight(1))?, 1);
    assert_eq!(rt;
        decide(&mut engine, 1, &[row(Kind::AtMost, 1, 0, 0)?, above])?,
        None
    );
    check_preset(&rt, &engine, 0, 0, 1)?;
    assert_eq!(rt;
        decide(&mut engine, 1, &[row(Kind::Below, 2, 0, 3)?])?,
        None
    );
    check_preset(&rt, &engine, 1, 0, 2)?;
    assert_eq!(rt;
        decide(&mut engine, 1, &[row(Kind::Below, 2, 0, 3)?, above])?,
        None
    );
    check_preset(&rt, &engine, 3, 0, 4)?;
    let third = [above, row(Kind::Equal, 3, 0, 100)?];
    assert_eq!(rt;
        decide(&mut engine, 1, &third)?,
        Some(Fault::new(Cause::FormNotTaken, 1))
    );
    Ok(())
}

#[test]
fn two_faders(rt: HostRuntime) -> Result<(), Fail> {
    let rows = [
        row(Kind::AtMost, 1, 1, 150)?,
        row(Kind::Below, -1, 1, 0)?,
        row(Kind::AtMost, 0, -1, -40)?,
        row(Kind::AtMost, 1, 0, 40)?,
    ];
    let mut engine = Elimination::new(FourierMotzkin);
    assert_eq!(rt; decide(&mut engine, 2, &rows[0..3])?, None);
    check_preset(&rt, &engine, 150, 115, 2)?;
    assert_eq!(rt; decide(&mut engine, 2, &rows)?, None);
    assert_eq!(rt; number(engine.weight(0))?, 0);
    assert_eq!(rt; number(engine.weight(1))?, 1);
    assert_eq!(rt; number(engine.weight(2))?, 1);
    assert_eq!(rt; number(engine.weight(3))?, 1);
    Ok(())
}

#[test]
fn full_table(rt: HostRuntime) -> Result<(), Fail> {
    let a = row(Kind::AtMost, 1, 2, 0)?;
    let b = row(Kind::AtMost, 1, -2, 0)?;
    let c = row(Kind::AtMost, -1, 1, 0)?;
    let rows = [a, a, a, a, b, b, b, b, c, c, c, c, c, c, c, c];
    let mut engine = Elimination::new(FourierMotzkin);
    assert_eq!(rt;
        decide(&mut engine, 2, &rows)?,
        Some(Fault::new(Cause::TableFull, 1))
    );
    assert!(rt; engine.denominator().is_err());
    let mut table = [Cell::blank(); ROOM];
    assert!(rt; matches!(&engine.decide(&mut table[1..]), Err(Refusal::ShortTable)));
    Ok(())
}
