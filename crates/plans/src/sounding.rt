// The rules of a plan, and the rows of those that sound, in their order. Assumes nothing.
ghost use Rattle.std.specs.Prelude.{◌≡◌, length, take};
ghost use Rattle.rows.specs.Lists.{items};
ghost use Rattle.rows.specs.Rows.{constraints};
ghost use Rattle.plans.specs.Plans.{plan_view};
ghost use Rattle.plans.specs.Sounding.{sounding_rows};

use crate::plan::Plan;
use crate::rule::Rule;
use rows::RowList;

impl Plan {
    // The rules, by their numbers.
    pub fn rules(&self) -> &[Rule]
        ensures value { result.now ≡ take self.now.len self.now.rules }
        ensures count { length result.now ≡ self.now.len }
    {
        &self.rules[..self.len as usize]
    }

    // What an engine is given, and what an answer is held against.
    pub fn sounding(&self) -> RowList
        ensures { constraints (items result) ≡ sounding_rows (plan_view self.now).rules }
    {
        let mut rows = RowList::new();
        for rule in self.rules() {
            if rule.sounds {
                rows.push(rule.row);
            }
        }
        rows
    }
}
