// Worked examples: one fader, and the plan of two faders with both kinds of answer.
use crate::clashes::{clash_flaw, is_clash};
use crate::fader::Fader;
use crate::flaw::ClashFlaw;
use crate::kind::{Kind, UnknownKind};
use crate::preset::Preset;
use crate::row::Row;
use crate::weights::Weights;
use std::test::Fail;

fn row(kind: Kind, a: i32, b: i32, side: i32) -> Result<Row, Fail> {
    Row::new(kind, [a, b, 0, 0, 0, 0], side).ok_or_else(|| Fail::new("a number beyond G"))
}

fn preset(a: i32, b: i32, denominator: u32) -> Result<Preset, Fail> {
    Preset::new([a, b, 0, 0, 0, 0], denominator).ok_or_else(|| Fail::new("no preset"))
}

fn weights(a: i32, b: i32, c: i32, d: i32) -> Result<Weights, Fail> {
    Weights::new([a, b, c, d, 0, 0, 0, 0, 0, 0, 0, 0, 0, 0, 0, 0]).ok_or_else(|| Fail::new(
        "a weight beyond G",
    ))
}

#[test]
fn one_fader(rt: HostRuntime) -> Result<(), Fail> {
    let third = [row(Kind::Equal, 3, 0, 100)?];
    assert!(rt; preset(100, 0, 3)?.meets_all(&third));
    assert!(rt; !preset(33, 0, 1)?.meets_all(&third));
    let none = [row(Kind::Below, 1, 0, 0)?, row(Kind::AtMost, -1, 0, 0)?];
    assert!(rt; is_clash(&weights(1, 1, 0, 0)?, &none));
    assert!(rt; !preset(0, 0, 1)?.meets_all(&none));
    let zero = [row(Kind::AtMost, 1, 0, 0)?, row(Kind::AtMost, -1, 0, 0)?];
    assert!(rt; !is_clash(&weights(1, 1, 0, 0)?, &zero));
    assert!(rt; preset(0, 0, 1)?.meets_all(&zero));
    Ok(())
}

#[test]
fn two_faders(rt: HostRuntime) -> Result<(), Fail> {
    let rows = [
        row(Kind::AtMost, 1, 1, 150)?,
        row(Kind::Below, -1, 1, 0)?,
        row(Kind::AtMost, 0, -1, -40)?,
        row(Kind::AtMost, 1, 0, 40)?,
    ];
    let levels = preset(150, 115, 2)?;
    assert!(rt; levels.is_well_formed(2));
    assert!(rt; levels.meets_all(&rows[0..3]));
    assert_eq!(rt; levels.first_unmet(&rows), Some(3));
    assert!(rt; !preset(300, 230, 4)?.is_well_formed(2));
    assert!(rt; !preset(150, 115, 2)?.is_well_formed(1));
    assert!(rt; is_clash(&weights(0, 1, 1, 1)?, &rows));
    assert_eq!(rt;
        clash_flaw(&weights(0, 1, -1, 1)?, &rows),
        Some(ClashFlaw::Negative(2))
    );
    assert_eq!(rt;
        clash_flaw(&weights(1, 1, 1, 1)?, &rows),
        Some(ClashFlaw::Column(0))
    );
    assert_eq!(rt;
        clash_flaw(&weights(0, 0, 0, 0)?, &rows),
        Some(ClashFlaw::Total)
    );
    Ok(())
}

#[test]
fn bounds(rt: HostRuntime) {
    assert!(rt; Row::new(Kind::AtMost, [0, 0, 0, 0, 0, 1_073_741_824], -1_073_741_824).is_some());
    assert!(rt; Row::new(Kind::AtMost, [0, 0, 0, 0, 0, 1_073_741_825], 0).is_none());
    assert!(rt; Row::new(Kind::AtMost, [0; 6], -1_073_741_825).is_none());
    assert!(rt; Preset::new([0; 6], 0).is_none());
    assert!(rt; Preset::new([0; 6], 1_073_741_825).is_none());
    assert!(rt; Weights::new([-1_073_741_825; 16]).is_none());
}

#[test]
fn kinds_and_faders(rt: HostRuntime) {
    assert_eq!(rt; Kind::try_from(1u8), Ok(Kind::Below));
    assert_eq!(rt; Kind::try_from(3u8), Err(UnknownKind));
    assert_eq!(rt; u8::from(Kind::Equal), 2);
    assert!(rt; Fader::new(5).is_some_and(|f| f.place() == 5));
    assert!(rt; Fader::new(6).is_none());
}
