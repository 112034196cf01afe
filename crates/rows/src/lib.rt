// What rows, presets and clashes are, checkers of both kinds of answer, and the arithmetic of carried rows. It sees the crate `integers`.
#![tactic(auto)]

pub mod appending;
pub mod bounds;
pub mod carried;
pub mod clashes;
pub mod combining;
pub mod factor;
pub mod fader;
pub mod flaw;
pub mod kind;
pub mod list;
pub mod lowest;
pub mod making;
pub mod preset;
pub mod presets;
pub mod remains;
pub mod row;
#[cfg(test)]
mod tests;
pub mod unused;
pub mod weights;

pub use bounds::{FADERS, G, ROWS, narrow, within};
pub use carried::Carried;
pub use clashes::{clash_flaw, column, is_clash, total};
pub use combining::{combine, parts};
pub use factor::Factor;
pub use fader::Fader;
pub use flaw::ClashFlaw;
pub use kind::{Kind, UnknownKind};
pub use list::RowList;
pub use preset::Preset;
pub use row::Row;
pub use weights::Weights;
