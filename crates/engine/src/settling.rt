// What every decision of an engine does with its state, before and after its working. Assumes nothing.
ghost use Rattle.std.specs.Prelude.{◌≡◌, Some, None, MatchResult};
ghost use Rattle.engine.specs.Interface.{decide_refusal};
ghost use Rattle.engine.specs.States.{state_view, Settled};

use crate::answer::Answer;
use crate::fault::Fault;
use crate::refusal::Refusal;
use crate::state::State;

impl State {
    // Whether a decision can begin: the table has the places that it needs, and the engine was started.
    pub fn ready(&self, held: usize, needed: usize) -> Result<(), Refusal>
        ensures { MatchResult result (λ _. decide_refusal needed held (state_view self.now) ≡ None) (λ e. decide_refusal needed held (state_view self.now) ≡ Some e) }
    {
        if held < needed {
            return Err(Refusal::ShortTable);
        }
        if self.count == 0 {
            return Err(Refusal::NoPlan);
        }
        Ok(())
    }

    // What was found of the rows becomes the answer, also where that is none; a fault empties it.
    pub fn settle(&mut self, found: Result<Option<Answer>, Fault>) -> Result<(), Refusal>
        ensures { Settled found (state_view self.old) result (state_view self.new) }
    {
        match found {
            Ok(answer) => {
                self.answer = answer;
                Ok(())
            }
            Err(fault) => {
                self.answer = None;
                Err(Refusal::TooLarge(fault))
            }
        }
    }
}
