// What is read off one place of the table, and the sum of two. Assumes nothing.
ghost use Rattle.std.specs.Prelude.{◌≡◌, true, false, ◌&&◌, replicate, pos, MatchOption};
ghost use Rattle.rows.specs.declared.kind.Kind.TheVariants.{AtMost};
ghost use Rattle.rows.specs.Limits.{faders};
ghost use Rattle.rows.specs.Rows.{constraint};
ghost use Rattle.elimination.specs.Table.{coefficient, stands, is_positive, is_negative, combined, fits, set_aside};
ghost use Rattle.elimination.specs.Working.{listed_line};
ghost use Rattle.elimination.specs.Lines.{line};

use crate::cell::Cell;
use crate::side::Side;
use rows::{Carried, Fader, Kind, Row, combine, parts};

// The rows that a table has to have room for.
pub const ROOM: usize = 256;

impl Cell {
    // A row of zeros, to make a table of.
    pub fn blank() -> Cell
        ensures { line result ≡ listed_line 0 (record { kind = AtMost; coefficients = replicate faders (pos 0); side = pos 0 }) }
    {
        Cell::listed(&Row::zero(), 0)
    }

    // The row at a place of the list, with weight 1 on itself.
    pub fn listed(row: &Row, place: usize) -> Cell
        ensures { line result ≡ listed_line place (constraint row.now) }
    {
        Cell {
            row: Carried::listed(row, place),
            strict: row.kind == Kind::Below,
            aside: None,
        }
    }

    // The same row, set aside for a fader if it stands and has it.
    pub fn retired(self, fader: Fader) -> Cell
        ensures { line result ≡ set_aside fader.index (line self) }
    {
        let has = self.row.coefficients[fader.place()] != 0;
        Cell {
            aside: self.aside.or(has.then_some(fader.index)),
            ..self
        }
    }

    // Whether it stands and limits the fader on a side.
    pub fn stands_on<S: Side>(&self, fader: Fader) -> bool
        ensures { result ≡ (stands (line self.now) && S.limits (coefficient (line self.now) fader.index)) }
    {
        self.aside.is_none() && S::limits(self.row.coefficients[fader.place()])
    }
}

// The least sum of multiples of both rows in which the fader cancels; none where a number is beyond G.
pub fn sum_of(upper: &Cell, lower: &Cell, fader: Fader) -> Option<Cell>
    requires { (is_positive (coefficient (line upper.now) fader.index) ≡ true) × (is_negative (coefficient (line lower.now) fader.index) ≡ true) }
    ensures { MatchOption result (fits (combined fader.index (line upper.now) (line lower.now)) ≡ false) (λ c. (fits (combined fader.index (line upper.now) (line lower.now)) ≡ true) × (line c ≡ combined fader.index (line upper.now) (line lower.now))) }
{
    let k = fader.place();
    let (n, m) = parts(upper.row.coefficients[k], lower.row.coefficients[k]);
    let row = combine(m, &upper.row, n, &lower.row)?;
    Some(Cell {
        row,
        strict: upper.strict | lower.strict,
        aside: None,
    })
}
