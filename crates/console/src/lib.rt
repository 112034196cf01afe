// The calls that decide a plan, over any engine: Ask and Blame, and runs of commands. It sees the crates `engine`, `integers`, `plans` and
// `rows`, and of an engine nothing but its interface.
#![tactic(auto)]

mod asking;
mod blaming;
pub mod command;
mod guard;
mod performing;
mod playing;
pub mod reply;
pub mod sheet;

pub use asking::ask;
pub use blaming::blame;
pub use command::Command;
pub use performing::perform;
pub use playing::play;
pub use reply::Reply;
pub use sheet::Sheet;
