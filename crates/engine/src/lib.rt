// The interface of an engine by its meaning, the refusals and faults, and the state that our engines share. It sees the crates `rows` and
// `integers`, and no engine.
#![tactic(auto)]

pub mod answer;
mod deciding;
pub mod fault;
pub mod interface;
pub mod numbering;
pub mod refusal;
pub mod settling;
pub mod state;
pub mod states;
pub mod working;

pub use answer::Answer;
pub use deciding::{decide_held, decide_rows};
pub use fault::{Cause, Fault};
pub use interface::Engine;
pub use refusal::Refusal;
pub use state::State;
pub use working::{Working, WorkingEngine};
