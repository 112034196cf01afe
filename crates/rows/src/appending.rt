// How a list of rows is made and read. Assumes nothing but room for a row that is appended.
ghost use Rattle.std.specs.Prelude.{◌≡◌, ◌+◌, ◌<◌, [], ◌∷◌, ◌++◌, length};
ghost use Rattle.rows.specs.Limits.{most_rows};
ghost use Rattle.rows.specs.Lists.{items};

use crate::bounds::ROWS;
use crate::list::RowList;
use crate::row::Row;

impl RowList {
    // No row.
    pub fn new() -> RowList
        ensures { items result ≡ [] }
    {
        RowList {
            rows: [Row::zero(); ROWS],
            len: 0,
        }
    }

    // The rows, in order.
    pub fn as_slice(&self) -> &[Row]
        ensures value { result.now ≡ items self.now }
        ensures count { length result.now ≡ self.now.len }
    {
        &self.rows[..self.len]
    }

    // No row again.
    pub fn clear(&mut self)
        ensures { items self.new ≡ [] }
    {
        self.len = 0;
    }

    // One row more at the end.
    pub fn push(&mut self, row: Row)
        requires { self.old.len < most_rows }
        ensures value { items self.new ≡ items self.old ++ row ∷ [] }
        ensures count { self.new.len ≡ self.old.len + 1 }
    {
        self.rows[self.len] = row;
        self.len += 1;
    }
}
