// One command of the box: what it does to the plan, and its reply. Assumes nothing.
ghost use Rattle.std.specs.Prelude.{◌≡◌, length};
ghost use Rattle.plans.specs.Plans.{plan_view};
ghost use Rattle.console.specs.declared.command.Command.TheVariants.{Ask, Blame as BlameCommand};
ghost use Rattle.console.specs.Asking.{table_refusal};
ghost use Rattle.console.specs.Replies.{reply_view};
ghost use Rattle.console.specs.Runs.{next};
ghost use Rattle.console.specs.Law.{Replied, result_reply};
ghost use Rattle.console.specs.Exact.{reply_of};

use crate::asking::ask;
use crate::blaming::blame;
use crate::command::Command;
use crate::reply::Reply;
use crate::sheet::Sheet;
use engine::{Engine, Refusal};
use plans::Plan;
use rows::ROWS;

// The reply to a call that only edits the plan.
impl From<Result<(), Refusal>> for Reply {
    ghost from_gives = { λ res reply. reply_view reply ≡ result_reply res };

    fn from(res: Result<(), Refusal>) -> Reply {
        match res {
            Ok(()) => Reply::Done,
            Err(refusal) => Reply::Refused(refusal),
        }
    }
}

fn reply_to_ask<E: Engine>(plan: &Plan, engine: &mut E, table: &mut [E::Cell]) -> Reply
    ensures reply { Replied E.Engine.verdict (table_refusal E.Engine.cells (length table.old)) (plan_view plan.now) Ask (reply_view result) }
    ensures exact { reply_view result ≡ reply_of E.Engine.verdict (table_refusal E.Engine.cells (length table.old)) (plan_view plan.now) Ask }
{
    let mut sheet = Sheet::blank();
    if let Err(refusal) = ask(plan, engine, table, &mut sheet) {
        return Reply::Refused(refusal);
    }
    if sheet.denominator == 0 {
        return Reply::Clash {
            rules: plan.len,
            weights: sheet.weights,
        };
    }
    Reply::Preset {
        faders: plan.count,
        numerators: sheet.numerators,
        denominator: sheet.denominator,
    }
}

fn reply_to_blame<E: Engine>(plan: &mut Plan, engine: &mut E, table: &mut [E::Cell]) -> Reply
    ensures plan { plan_view plan.new ≡ plan_view plan.old }
    ensures reply { Replied E.Engine.verdict (table_refusal E.Engine.cells (length table.old)) (plan_view plan.old) BlameCommand (reply_view result) }
    ensures exact { reply_view result ≡ reply_of E.Engine.verdict (table_refusal E.Engine.cells (length table.old)) (plan_view plan.old) BlameCommand }
{
    let mut marks = [0; ROWS];
    // kept: `map_or_else(Reply::Refused, |()| Reply::Blamed(marks))` has the cases in the other order, and says no more
    match blame(plan, engine, table, &mut marks) {
        Ok(()) => Reply::Blamed(marks),
        Err(refusal) => Reply::Refused(refusal),
    }
}

// Carries out one command.
pub fn perform<E: Engine>(
    plan: &mut Plan,
    command: Command,
    engine: &mut E,
    table: &mut [E::Cell],
) -> Reply
    ensures plan { plan_view plan.new ≡ next command (plan_view plan.old) }
    ensures reply { Replied E.Engine.verdict (table_refusal E.Engine.cells (length table.old)) (plan_view plan.old) command (reply_view result) }
    ensures exact { reply_view result ≡ reply_of E.Engine.verdict (table_refusal E.Engine.cells (length table.old)) (plan_view plan.old) command }
{
    match command {
        Command::Open(count) => Reply::from(plan.open(count)),
        Command::Add {
            kind,
            coefficients,
            side,
        } => Reply::from(plan.add(kind, &coefficients, side)),
        Command::Lift => Reply::from(plan.lift()),
        Command::Mute(number) => Reply::from(plan.mute(number)),
        Command::Sound(number) => Reply::from(plan.sound(number)),
        Command::Ask => reply_to_ask(plan, engine, table),
        Command::Blame => reply_to_blame(plan, engine, table),
    }
}
