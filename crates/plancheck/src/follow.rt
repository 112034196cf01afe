// One line of the text followed: the plan is changed, or an answer checked. Assumes nothing.
ghost use Rattle.std.specs.Prelude.{◌≡◌, MatchResult};
ghost use Rattle.plans.specs.Plans.{plan_view};
ghost use Rattle.plantext.specs.Grammar.{statement_of};
ghost use Rattle.plancheck.specs.Follows.{Told, Came};

use crate::claims::{check_clash, check_preset};
use crate::edits::{add_rule, open_desk};
use crate::outcome::{Followed, Outcome};
use plans::Plan;
use plantext::{Statement, read_line};

// What a statement comes to; a bad one leaves the plan.
fn follow_statement(plan: &mut Plan, statement: Statement) -> Followed
    ensures { MatchResult result (λ o. Told statement (plan_view plan.old) o (plan_view plan.new)) (λ _. plan_view plan.new ≡ plan_view plan.old) }
{
    match statement {
        Statement::Blank => Ok(Outcome::Blank),
        Statement::Faders(faders) => Ok(Outcome::Desk(open_desk(plan, faders)?)),
        Statement::Rule(numbers, kind, side) => {
            let number = add_rule(plan, &numbers, kind, side)?;
            Ok(Outcome::Rule(number))
        }
        Statement::Preset(numbers, denominator) => {
            let verdict = check_preset(plan, &numbers, denominator)?;
            Ok(Outcome::Preset(numbers, denominator, verdict))
        }
        Statement::Clash(numbers) => {
            let verdict = check_clash(plan, &numbers)?;
            Ok(Outcome::Clash(numbers, verdict))
        }
    }
}

// What a line comes to.
pub fn follow(plan: &mut Plan, line: &[u8]) -> Followed
    ensures { Came (statement_of line.now) (plan_view plan.old) result (plan_view plan.new) }
{
    let statement = read_line(line)?;
    follow_statement(plan, statement)
}
