// The list of rows written into the table, and the form that is not taken.
// Assumes, where a function requires it, that the table has room for the rows.
ghost use Rattle.std.specs.Prelude.{◌≡◌, ◌≤◌, length, take};
ghost use Rattle.rows.specs.Rows.{constraints};
ghost use Rattle.elimination.specs.Table.{room};
ghost use Rattle.elimination.specs.Working.{first_equation, carried};
ghost use Rattle.elimination.specs.Lines.{lines};
ghost use Rattle.elimination.specs.Appends.{held_lines};

use crate::cell::Cell;
use crate::lent::Table;
use rows::{Kind, Row};

// The place of the first equation.
pub fn first_equation(rows: &[Row]) -> Option<usize>
    ensures { result ≡ first_equation 0 (constraints rows.now) }
{
    rows.iter().position(|row| row.kind == Kind::Equal)
}

// The rows of the list fill the first places.
#[tactic(auto, using(crate::proofs::Filled::filled_more))]
fn fill(cells: &mut [Cell], rows: &[Row])
    requires { length rows.now ≤ length cells.old }
    ensures { lines (take (length rows.now) cells.new) ≡ carried 0 (constraints rows.now) }
{
    for (i, row) in rows.iter().enumerate() {
        cells[i] = Cell::listed(row, i);
    }
}

impl<'a> Table<'a> {
    // The table that holds the rows of the list.
    pub fn filled(cells: &'a mut [Cell], rows: &[Row]) -> Table<'a>
        requires { (length rows.now ≤ room) × (room ≤ length cells.old) }
        ensures { held_lines result ≡ carried 0 (constraints rows.now) }
    {
        fill(cells, rows);
        Table {
            cells,
            held: rows.len(),
        }
    }

    // The rows that it holds.
    pub fn rows(&self) -> &[Cell]
        ensures { lines result.now ≡ held_lines self.now }
    {
        &self.cells[..self.held]
    }
}
