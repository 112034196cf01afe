// An engine by its meaning: whatever shows these contracts is an engine, and code above is proved against them alone. Assumes nothing.
ghost use Rattle.std.specs.Prelude.{◌≡◌, ℕ, List, length};
ghost use Rattle.rows.specs.Rows.{Constraint, constraint};
ghost use Rattle.engine.specs.Verdicts.{Verdict, Valid, Right};
ghost use Rattle.engine.specs.Interface.{View, Started, Took, Decided, numerator_reply, denominator_reply, weight_reply};
ghost use Rattle.engine.specs.Exactness.{DecidesExactly};

use crate::refusal::Refusal;
use rows::row::Row;

pub trait Engine {
    // One place of the table that a decision works in. What stands there before and after a decision says nothing.
    type Cell;

    // What the engine holds: the count, the rows and the answer.
    ghost view: { Self → View };

    // What it says of a list of rows: a function of the count and the list alone.
    ghost verdict: { ℕ → List Constraint → Verdict };

    // How many places a decision needs.
    ghost cells: { ℕ };

    // How many places of the table a decision needs.
    fn table_size() -> usize
        ensures { result ≡ cells };

    // Sets the count, and empties the list and the answer.
    fn start(&mut self, count: u8) -> Result<(), Refusal>
        ensures { Started count (view self.old) result (view self.new) };

    // Appends a row, and empties the answer.
    fn take(&mut self, row: &Row) -> Result<(), Refusal>
        ensures { Took (constraint row.now) (view self.old) result (view self.new) };

    // The answer becomes the verdict; count and list stay.
    fn decide(&mut self, table: &mut [Self::Cell]) -> Result<(), Refusal>
        ensures { Decided verdict cells (length table.old) (view self.old) result (view self.new) };

    fn numerator(&self, fader: u8) -> Result<i32, Refusal>
        ensures { result ≡ numerator_reply fader (view self.now).answer };

    fn denominator(&self) -> Result<u32, Refusal>
        ensures { result ≡ denominator_reply (view self.now).answer };

    fn weight(&self, row: u8) -> Result<i32, Refusal>
        ensures { result ≡ weight_reply row (view self.now) };

    // A preset is well formed and meets every row, and a clash is one.
    ghost sound: { (count : ℕ) (rows : List Constraint) → Valid count rows → Right count rows (verdict count rows) };
}

// States of any engine that its verdict, where it is no fault, is a clash exactly when no levels meet the rows, and otherwise a preset
// that meets them; it computes nothing.
pub fn decides_exactly<E: Engine>(_engine: &E)
    ensures { DecidesExactly E.Engine.verdict }
{}
