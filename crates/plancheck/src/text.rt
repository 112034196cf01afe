// The text of places, numbers and rules, in the form that a plan is written in. Assumes nothing.
ghost use Rattle.std.specs.Prelude.{◌≡◌};
ghost use Rattle.plancheck.specs.Tallies.{more};
ghost use Rattle.plancheck.specs.Texts.{ending};

use plans::Plan;
use plantext::Numbers;
use rows::kind::Kind;
use std::fmt;

// People count from 1.
pub fn from_one(place: usize) -> usize
    ensures { result ≡ more place }
{
    place.saturating_add(1)
}

// The end of a word for so many things.
pub fn ending(n: usize) -> &'static str
    ensures { result.now ≡ ending n }
{
    if n == 1 { "" } else { "s" }
}

// The sign of a comparison.
fn sign(kind: Kind) -> &'static str {
    match kind {
        Kind::AtMost => "<=",
        Kind::Below => "<",
        Kind::Equal => "=",
    }
}

// The numbers of a statement, each followed by a space.
#[derive(Clone, Copy)]
pub struct Listed<'a>(pub &'a Numbers);

impl fmt::Display for Listed<'_> {
    fn fmt<W: fmt::Write>(&self, f: &mut fmt::Formatter<W>) -> fmt::Result {
        for z in self.0.as_slice() {
            write!(f, "{z} ")?;
        }
        Ok(())
    }
}

// The rule of a plan at a place, from 0; nothing where no rule has it.
#[derive(Clone, Copy)]
pub struct RuleAt<'a> {
    pub plan: &'a Plan,
    pub place: usize,
}

impl fmt::Display for RuleAt<'_> {
    fn fmt<W: fmt::Write>(&self, f: &mut fmt::Formatter<W>) -> fmt::Result {
        let Some(rule) = self.plan.rules.get(self.place) else {
            return Ok(());
        };
        let row = &rule.row;
        for a in row.coefficients.iter().take(self.plan.count as usize) {
            write!(f, "{a} ")?;
        }
        write!(f, "{} {}", sign(row.kind), row.side)
    }
}
