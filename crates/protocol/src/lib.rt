// The bytes of commands, and the lines of replies. It sees the types `Command` and `Reply` of the crate `console`, and no plan and no engine.
#![tactic(auto)]

pub mod bytes;
pub mod line;
pub mod lines;
#[cfg(test)]
mod tests;
pub mod writing;

pub use bytes::{MOST_BYTES, Reading, read_command, read_commands, reads_back};
pub use line::{Line, MOST_LINE};
pub use lines::write_line;
