// The best limit of one fader on one side, over the rows of a table that are set aside for it.
// Assumes, where a function requires it, that as many places are lent as a table has rows at most, that no limit is found yet, and that there is a place for one limit more.
ghost use Rattle.std.specs.Prelude.{◌≡◌, ◌+◌, ◌<◌, false, [], ◌∷◌, ◌++◌, length, pos};
ghost use Rattle.std.specs.Option.{option_map};
ghost use Rattle.std.specs.Result.{result_ok};
ghost use Rattle.elimination.specs.Lines.{line};
ghost use Rattle.elimination.specs.Table.{room};
ghost use Rattle.elimination.specs.Levels.{first_best};
ghost use Rattle.elimination.specs.Limiting.{limit_of};
ghost use Rattle.elimination.specs.Tightest.{bounds_by, limits_by, best_by, found_limits};

use crate::bounding::Bounding;
use crate::cell::Cell;
use crate::found::Found;
use crate::limit::{Beyond, Limit};
use crate::setting::Setting;
use crate::side::Side;
use crate::table::ROOM;
use integers::first_best;

// What stands where no limit is written: 0, which may be reached.
fn blank() -> Limit
    ensures { limit_of result ≡ record { numerator = pos 0; denominator = 1; strict = false } }
{
    Limit {
        numerator: 0,
        denominator: 1,
        strict: false,
    }
}

impl<'a, S: Side> Found<'a, S> {
    // None yet, in the places that are lent.
    fn new(limits: &'a mut [Bounding<S>]) -> Found<'a, S>
        requires { length limits.old ≡ room }
        ensures none { found_limits result ≡ [] }
        ensures count { result.count ≡ 0 }
    {
        Found { limits, count: 0 }
    }

    // One more, after the others.
    fn push(&mut self, limit: Limit)
        requires { self.old.count < room }
        ensures limits { found_limits self.new ≡ found_limits self.old ++ limit_of limit ∷ [] }
        ensures count { self.new.count ≡ self.old.count + 1 }
    {
        let n = self.count;
        self.limits[n] = Bounding::new(limit);
        self.count = n + 1;
    }

    // The best of them, if there is any.
    fn best(&self) -> Option<Limit>
        ensures { option_map limit_of result ≡ first_best S.tighter (found_limits self.now) }
    {
        let i = first_best(&self.limits[..self.count])?;
        Some(self.limits[i].limit)
    }
}

impl Setting<'_> {
    // Whether the row is set aside for the fader and limits it on the side.
    fn bounds<S: Side>(&self, cell: &Cell) -> bool
        ensures { result ≡ bounds_by S.limits self.now.fader.index (line cell.now) }
    {
        cell.aside == Some(self.fader.index) && S::limits(cell.row.coefficients[self.fader.place()])
    }

    // Finds the limits, in table order, unless one is beyond G.
    fn find_limits<S: Side>(&self, found: &mut Found<'_, S>) -> Result<(), Beyond>
        requires { found.old.count ≡ 0 }
        ensures { option_map (λ _. found_limits found.new) (result_ok result) ≡ limits_by S.limits S.turned self.now.fader.index self.now.levels.now self.now.table.now }
    {
        for cell in self.table {
            if self.bounds::<S>(cell) {
                found.push(self.limit_on::<S>(cell)?);
            }
        }
        Ok(())
    }

    // The best limit, if there is any, unless one is beyond G.
    pub fn best_limit<S: Side>(&self) -> Result<Option<Limit>, Beyond>
        ensures { option_map (option_map limit_of) (result_ok result) ≡ best_by S.limits S.turned S.tighter self.now.fader.index self.now.levels.now self.now.table.now }
    {
        let mut limits = [Bounding::new(blank()); ROOM];
        let mut found = Found::new(&mut limits);
        self.find_limits::<S>(&mut found)?;
        Ok(found.best())
    }
}
