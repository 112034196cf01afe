// The statements that change the plan. A refused one leaves it as it stood. Assumes nothing.
ghost use Rattle.std.specs.Prelude.{◌≡◌, take, pos, IfOk};
ghost use Rattle.rows.specs.Kinds.{number_of};
ghost use Rattle.rows.specs.Limits.{faders as desk_places};
ghost use Rattle.engine.specs.Interface.{Does};
ghost use Rattle.plans.specs.Plans.{plan_view};
ghost use Rattle.plans.specs.Edits.{after_add};
ghost use Rattle.plantext.specs.Padding.{padded};
ghost use Rattle.plancheck.specs.Edits.{Opens, numbers_refusal, RuleAdded};

use crate::complaint::{Complaint, Counted};
use crate::numbers::{coefficients, first_six};
use crate::width::check_width;
use engine::refusal::Refusal;
use plans::Plan;
use plantext::Numbers;
use rows::bounds::narrow;
use rows::kind::Kind;

// A new desk with so many faders.
pub fn open_desk(plan: &mut Plan, faders: i64) -> Result<u8, Refusal>
    ensures opens { Opens faders (plan_view plan.old) result (plan_view plan.new) }
    ensures count { IfOk result (λ n. pos n ≡ faders) }
{
    let count = u8::try_from(faders).map_err(|_| Refusal::BadCount)?;
    plan.open(count)?;
    Ok(count)
}

// A rule whose coefficients are one for each fader.
fn add_numbers(plan: &mut Plan, numbers: &Numbers, kind: Kind, side: i64) -> Result<(), Refusal>
    ensures { Does (numbers_refusal (number_of kind) (take desk_places (padded numbers.now)) side (plan_view plan.old)) (after_add (number_of kind) (take desk_places (padded numbers.now)) side (plan_view plan.old)) (plan_view plan.old) result (plan_view plan.new) }
{
    let values = first_six(numbers);
    let coefficients = coefficients(&values).map_err(Refusal::BadCoefficient)?;
    let side = narrow(side).ok_or(Refusal::BadSide)?;
    plan.add(u8::from(kind), &coefficients, side)
}

// One more rule; the reply is its number, from 1.
pub fn add_rule(plan: &mut Plan, numbers: &Numbers, kind: Kind, side: i64) -> Result<u8, Complaint>
    ensures { RuleAdded numbers.now kind side (plan_view plan.old) result (plan_view plan.new) }
{
    check_width(plan, numbers, Counted::Coefficients, plan.count as usize)?;
    add_numbers(plan, numbers, kind, side)?;
    Ok(plan.len)
}
