// The box as it is sold: runs of commands over the engine as sold. It sees the crates `console`, `elimination`, `engine`, `plans`, `rows`,
// `sold_engine` and `substitution`.
#![tactic(auto)]

pub mod playing;
pub mod samples;
#[cfg(test)]
mod tests;

pub use playing::play;
