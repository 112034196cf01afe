// An engine by its working: what it says of the rows that a state keeps. Everything else is the same for each such engine. Assumes nothing.
ghost use Rattle.std.specs.Prelude.{◌≡◌, ℕ, ◌<◌, ◌≤◌, List, [], length};
ghost use Rattle.rows.specs.Rows.{Constraint};
ghost use Rattle.engine.specs.Interface.{none};
ghost use Rattle.engine.specs.States.{state_view, state_rows, Says};
ghost use Rattle.engine.specs.Verdicts.{Verdict, Valid, Right};

use crate::answer::Answer;
use crate::fault::Fault;
use crate::interface::Engine;
use crate::refusal::Refusal;
use crate::state::State;
use rows::row::Row;

// How rows are decided.
pub trait Working {
    // One place of the table that it works in.
    type Cell;

    // What it says of a list of rows.
    ghost verdict: { ℕ → List Constraint → Verdict };

    // How many places it needs.
    ghost cells: { ℕ };

    // How many places it needs.
    fn table_size() -> usize
        ensures { result ≡ cells };

    // What it says of the rows of a state, worked out in the table.
    fn work_out(&mut self, state: &State, table: &mut [Self::Cell]) -> Result<Answer, Fault>
        requires started { 0 < state.now.count }
        requires room { cells ≤ length table.old }
        ensures { Says state.now.rows.len (verdict state.now.count (state_rows state.now)) result };

    // A preset is well formed and meets every row, and a clash is one.
    ghost sound: { (count : ℕ) (rows : List Constraint) → Valid count rows → Right count rows (verdict count rows) };
}

// An engine that keeps its rows in a state, and decides them by a working.
#[derive(Clone, Copy, Drop)]
pub struct WorkingEngine<W> {
    pub state: State,
    pub working: W,
}

impl<W> WorkingEngine<W> {
    // Not started.
    pub fn new(working: W) -> WorkingEngine<W>
        ensures state { state_view result.state ≡ record { count = 0; rows = []; answer = none } }
        ensures working { result.working ≡ working }
    {
        WorkingEngine {
            state: State::new(),
            working,
        }
    }
}

impl<W: Working> Engine for WorkingEngine<W> {
    type Cell = W::Cell;

    ghost view = { λ e. state_view e.state };

    ghost verdict = { W.Working.verdict };

    ghost cells = { W.Working.cells };

    ghost sound = { W.Working.sound };

    fn table_size() -> usize {
        W::table_size()
    }

    fn start(&mut self, count: u8) -> Result<(), Refusal> {
        self.state.start(count)
    }

    fn take(&mut self, row: &Row) -> Result<(), Refusal> {
        self.state.take(row)
    }

    fn decide(&mut self, table: &mut [W::Cell]) -> Result<(), Refusal> {
        self.state.ready(table.len(), W::table_size())?;
        let found = self.working.work_out(&self.state, table);
        self.state.settle(found.map(Some))
    }

    fn numerator(&self, fader: u8) -> Result<i32, Refusal> {
        self.state.numerator(fader)
    }

    fn denominator(&self) -> Result<u32, Refusal> {
        self.state.denominator()
    }

    fn weight(&self, row: u8) -> Result<i32, Refusal> {
        self.state.weight(row)
    }
}
