// Lines as a plan has them, and lines that are refused. Assumes nothing.
use crate::{Numbers, Problem, Statement, read_line};
use rows::kind::Kind;
use std::test::Fail;

// The numbers of a list.
fn numbers(list: &[i64]) -> Result<Numbers, Problem> {
    let mut numbers = Numbers::new();
    for z in list {
        numbers.push(*z)?;
    }
    Ok(numbers)
}

#[test]
fn reads_rules(rt: HostRuntime) -> Result<(), Fail> {
    assert_eq!(rt;
        read_line(b"1 1 <= 150"),
        Ok(Statement::Rule(numbers(&[1, 1])?, Kind::AtMost, 150))
    );
    assert_eq!(rt;
        read_line(b"-1 1 < 0"),
        Ok(Statement::Rule(numbers(&[-1, 1])?, Kind::Below, 0))
    );
    assert_eq!(rt;
        read_line(b"3 = 100"),
        Ok(Statement::Rule(numbers(&[3])?, Kind::Equal, 100))
    );
    Ok(())
}

#[test]
fn reads_other_statements(rt: HostRuntime) -> Result<(), Fail> {
    assert_eq!(rt; read_line(b"faders 2"), Ok(Statement::Faders(2)));
    assert_eq!(rt;
        read_line(b"preset 150 115 / 2"),
        Ok(Statement::Preset(numbers(&[150, 115])?, 2))
    );
    assert_eq!(rt;
        read_line(b"clash 0 1 1 1"),
        Ok(Statement::Clash(numbers(&[0, 1, 1, 1])?))
    );
    assert_eq!(rt; read_line(b"  # nothing"), Ok(Statement::Blank));
    assert_eq!(rt; read_line(b""), Ok(Statement::Blank));
    Ok(())
}

#[test]
fn refuses(rt: HostRuntime) {
    assert_eq!(rt; read_line(b"1 x <= 3"), Err(Problem::UnknownWord(1)));
    assert_eq!(rt; read_line(b"1 <= 9999999999999"), Err(Problem::TooLong(2)));
    assert_eq!(rt; read_line(b"1 1 <="), Err(Problem::NoStatement));
    assert_eq!(rt;
        read_line(b"clash 1 1 1 1 1 1 1 1 1 1 1 1 1 1 1 1 1"),
        Err(Problem::TooManyNumbers)
    );
}

#[test]
fn holds_numbers(rt: HostRuntime) -> Result<(), Fail> {
    let held = numbers(&[7, -2])?;
    assert_eq!(rt; held.as_slice(), [7, -2].as_slice());
    assert_eq!(rt; &held.places()[1..3], [-2, 0].as_slice());
    Ok(())
}
