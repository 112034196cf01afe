// The layer as an engine over any engine, by its working. Assumes nothing.
ghost use Rattle.std.specs.Prelude.{◌≡◌, ◌<◌, ◌≤◌, [], length};
ghost use Rattle.engine.specs.Interface.{none};
ghost use Rattle.engine.specs.States.{state_view, state_rows, Says};
ghost use Rattle.substitution.specs.Working.{substitution_verdict};
ghost use Rattle.substitution.specs.Soundness.{sound_over};

use crate::below::decide_left;
use crate::filling::standing;
use crate::kept::Pivot;
use crate::reduction::Reduction;
use crate::short_list::ShortList;
use crate::stop::Stop;
use engine::{Answer, Engine, Fault, State, Working, WorkingEngine};

// Equations substituted away, and the rest decided by the engine below.
#[derive(Drop)]
pub struct Substituting<E> {
    pub below: E,
}

// The engine that keeps its rows and works so.
pub type Substitution<E> = WorkingEngine<Substituting<E>>;

impl<E: Engine> Working for Substituting<E> {
    type Cell = E::Cell;

    ghost verdict = { substitution_verdict E.Engine.verdict };

    ghost cells = { E.Engine.cells };

    ghost sound = { sound_over E.Engine.verdict E.Engine.sound };

    fn table_size() -> usize {
        E::table_size()
    }

    fn work_out(&mut self, state: &State, table: &mut [E::Cell]) -> Result<Answer, Fault> {
        let rows = state.rows.as_slice();
        let mut held = standing(rows);
        let mut pivots = ShortList::new(Pivot::blank());
        let mut reduction = Reduction {
            rows: &mut held,
            pivots: &mut pivots,
            place: 0,
        };
        match reduction.reduce() {
            Ok(()) => decide_left(
                &mut self.below,
                state.count,
                reduction.left(),
                reduction.solved(),
                rows.len(),
                table,
            ),
            Err(Stop::Clash(weights)) => Ok(Answer::Clash(weights)),
            Err(Stop::Beyond(fault)) => Err(fault),
        }
    }
}
