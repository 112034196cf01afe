// A line of text in a fixed array. Assumes nothing; every value keeps its invariant.
ghost use Rattle.std.specs.Prelude.{◌≡◌, ◌≤◌, length};
ghost use Rattle.protocol.specs.Lines.{most_line};

// The bytes of the longest line: CLASH, sixteen weights of a space, a minus sign and ten digits, and the newline.
pub const MOST_LINE: usize = 198;

// kept: fixed memory, and not the text of a Display: `write!` into an array can fail, and the writing of a line cannot
#[derive(Clone, Copy)]
pub struct Line {
    // the first `len` of them are the line
    pub bytes: [u8; MOST_LINE],
    pub len: usize,
    ghost short: { len ≤ most_line },
    ghost places: { length bytes ≡ most_line },
}
