// The equations of a list substituted away, one row after another. Assumes nothing.
ghost use Rattle.std.specs.Prelude.{◌≡◌, ◌+◌, ◌<◌, length};
ghost use Rattle.substitution.specs.Outcomes.{ahead, ahead_after, finished, OnwardAfter, FewLeft};

use crate::kept::{Kept, Pivot};
use crate::pivoting::{contradiction, first_fader};
use crate::reduction::Reduction;
use crate::stop::Stop;
use rows::Kind;

impl Reduction<'_> {
    // Looks at one row. An equation is taken out: one without coefficients is dropped or is a contradiction, and any other is solved for its lowest fader, which is cancelled in the rows that stay.
    fn look(&mut self) -> Result<(), Stop>
        requires { self.old.place < length self.old.rows.now }
        ensures value { ahead_after self.new result ≡ ahead self.old }
        ensures onward { OnwardAfter self.old self.new result }
    {
        if self.rows.as_slice()[self.place].kind != Kind::Equal {
            self.place += 1;
            return Ok(());
        }
        let row = self.rows.remove(self.place).row;
        let Some(fader) = first_fader(&row) else {
            if row.side != 0 {
                return Err(Stop::Clash(contradiction(&row)));
            }
            return Ok(());
        };
        let pivot = Pivot { fader, row };
        pivot.cancel_all(self.rows)?;
        self.pivots.push(pivot);
        Ok(())
    }

    // Substitutes the equations among the rows away. The rows that are left stand in their order, and the pivots in the order in which they were found.
    pub fn reduce(&mut self) -> Result<(), Stop>
        ensures value { finished self.new result ≡ ahead self.old }
        ensures few { FewLeft self.new result (length self.old.rows.now + length self.old.pivots.now) }
    {
        // kept: the place moves on only past a row that stays, so that no range or iterator gives it.
        while self.place < self.rows.as_slice().len() {
            self.look()?;
        }
        Ok(())
    }

    // The rows that are left.
    pub fn left(&self) -> &[Kept]
        ensures { result.now ≡ self.now.rows.now }
    {
        self.rows.as_slice()
    }

    // The pivots, in the order in which they were found.
    pub fn solved(&self) -> &[Pivot]
        ensures { result.now ≡ self.now.pivots.now }
    {
        self.pivots.as_slice()
    }
}
