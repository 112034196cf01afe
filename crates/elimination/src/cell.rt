// One place of the table: a carried row that is an inequality. Assumes nothing.
use rows::Carried;

#[derive(Clone, Copy)]
pub struct Cell {
    pub row: Carried,
    // below its side, and not only at most
    pub strict: bool,
    // the fader that it is set aside for; none while it stands.
    // kept: a number and no `Fader`, which would ask more of a table that is lent, whose rows may hold any
    pub aside: Option<u8>,
}
