// A run of commands on a new box. Assumes nothing.
ghost use Rattle.std.specs.Prelude.{◌≡◌, min, length, take, drop, None};
ghost use Rattle.plans.specs.Plans.{no_plan};
ghost use Rattle.console.specs.Replies.{reply_views};
ghost use Rattle.console.specs.Law.{RunLaw};
ghost use Rattle.console.specs.Exact.{replies as replies_of};
ghost use Rattle.sold_engine.specs.Sold.{sold_verdict};
ghost use Rattle.preset_box.specs.SmallRuns.{SmallLaw};

use console::{Command, Reply};
use sold_engine::{new_engine, new_table};

// Carries out the commands in order, as many as there is room for replies, and says how many.
pub fn play(commands: &[Command], replies: &mut [Reply]) -> usize
    ensures count { result ≡ min (length commands.now) (length replies.old) }
    ensures rest { drop result replies.new ≡ drop result replies.old }
    ensures law { RunLaw sold_verdict None (take result commands.now) (reply_views (take result replies.new)) }
    ensures small { SmallLaw (take result commands.now) (reply_views (take result replies.new)) }
    ensures exact { reply_views (take result replies.new) ≡ replies_of sold_verdict None no_plan (take result commands.now) }
{
    let mut engine = new_engine();
    let mut table = new_table();
    console::play(commands, &mut engine, &mut table, replies)
}
