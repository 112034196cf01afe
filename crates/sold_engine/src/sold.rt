// The engine as it is sold, and the table that it works in. Assumes nothing.
ghost use Rattle.std.specs.Prelude.{◌≡◌, [], length};
ghost use Rattle.engine.specs.States.{state_view};
ghost use Rattle.engine.specs.Interface.{none};
ghost use Rattle.elimination.specs.Table.{room};

use elimination::{Cell, Elimination, FourierMotzkin, ROOM};
use substitution::{Substituting, Substitution};

// Equations are substituted away, and the rest is eliminated.
pub type SoldEngine = Substitution<Elimination>;

// Not started.
pub fn new_engine() -> SoldEngine
    ensures { state_view result.state ≡ record { count = 0; rows = []; answer = none } }
{
    let below = Elimination::new(FourierMotzkin);
    Substitution::new(Substituting { below })
}

// As many places as a decision needs.
pub fn new_table() -> [Cell; ROOM]
    ensures { length result ≡ room }
{
    [Cell::blank(); ROOM]
}
