// The false row that gives the clash: of the fewest weights other than 0, the first among equals. Assumes nothing.
ghost use Rattle.std.specs.Prelude.{◌≡◌, ◌≤◌};
ghost use Rattle.std.specs.Option.{option_map};
ghost use Rattle.elimination.specs.Working.{is_false, support, chosen_false};
ghost use Rattle.elimination.specs.Choosing.{rank, not_worse};
ghost use Rattle.elimination.specs.Lines.{line, lines};
ghost use Rattle.std.proofs.Common.{rules};

use crate::cell::Cell;
use integers::{Better, first_best};
use rows::ROWS;

impl Cell {
    // Whether it stands and no levels meet it, once all faders are eliminated.
    pub fn is_false(&self) -> bool
        ensures { result ≡ is_false (line self.now) }
    {
        self.aside.is_none() && (self.row.side < 0 || (self.strict && self.row.side <= 0))
    }

    // How many weights are other than 0.
    fn support(&self) -> usize
        ensures count { result ≡ support (line self.now) }
        ensures bound { result ≤ 16 }
    {
        self.row.weights.iter().filter(|w| **w != 0).count()
    }

    fn rank(&self) -> usize
        ensures { result ≡ rank (line self.now) }
    {
        if self.is_false() {
            self.support()
        } else {
            ROWS + 1
        }
    }
}

// A false row with fewer weights other than 0 is better, and any false row is better than another row.
// This is no `Ord` of the standard library: rows of equal rank are equal in this order, and differ by `==`.
impl Better for Cell {
    ghost not_worse = { not_worse };

    ghost total = { Prim.search rules };

    ghost chain = { Prim.search rules };

    fn better(&self, other: &Cell) -> bool {
        self.rank() < other.rank()
    }
}

// The chosen false row of a table, if it has one.
pub fn choose_false(table: &[Cell]) -> Option<Cell>
    ensures { option_map line result ≡ chosen_false (lines table.now) }
{
    let i = first_best(table)?;
    Some(table[i]).filter(Cell::is_false)
}
