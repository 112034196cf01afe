// Cuts a text into lines, and a line into words. Assumes nothing.
ghost use Rattle.std.specs.Prelude.{◌≡◌, ◌<◌, [], ◌∷◌, length, IfSome, MatchOption};
ghost use Rattle.std.specs.Iterator.{YieldsFirstRef, item_count};
ghost use Rattle.plantext.specs.Cuts.{white, before_comment, words, lines};

// Starts a comment, which goes to the end of its line.
const COMMENT: u8 = b'#';

// Ends a line.
const LINE_FEED: u8 = b'\n';

fn is_white(b: u8) -> bool
    ensures { result ≡ white b }
{
    matches!(b, b' ' | b'\t' | b'\r')
}

// The line without its comment.
pub fn uncommented(line: &[u8]) -> &[u8]
    ensures { result.now ≡ before_comment line.now }
{
    let end = line
        .iter()
        .position(|b| *b == COMMENT)
        .unwrap_or(line.len());
    &line[..end]
}

// The first word of a text, and the text after it.
pub fn first_word(text: &[u8]) -> Option<(&[u8], &[u8])>
    ensures cut { MatchOption result (words text.now ≡ []) (λ p. words text.now ≡ p.0.now ∷ words p.1.now) }
    ensures shorter { IfSome result (λ p. length p.1.now < length text.now) }
{
    let start = text.iter().position(|b| !is_white(*b))?;
    let word = &text[start..];
    let end = word.iter().position(|b| is_white(*b)).unwrap_or(word.len());
    Some(word.split_at(end))
}

// The first line of a text, without its line feed, and the text after it. The last line may have no line feed.
pub fn first_line(text: &[u8]) -> Option<(&[u8], &[u8])>
    ensures cut { MatchOption result (lines text.now ≡ []) (λ p. lines text.now ≡ p.0.now ∷ lines p.1.now) }
    ensures shorter { IfSome result (λ p. length p.1.now < length text.now) }
{
    if text.is_empty() {
        return None;
    }
    match text.iter().position(|b| *b == LINE_FEED) {
        Some(i) => Some((&text[..i], &text[i + 1..])),
        None => Some((text, &[])),
    }
}

// The lines of a text, one by one.
#[derive(Clone, Copy)]
pub struct Lines<'a>(pub &'a [u8]);

impl<'a> Iterator for Lines<'a> {
    type Item = &'a [u8];

    ghost next_gives = { YieldsFirstRef (λ s. lines s.0.now) };

    ghost remaining = { item_count (λ s. lines s.0.now) };

    fn next(&mut self) -> Option<&'a [u8]> {
        let (line, rest) = first_line(self.0)?;
        self.0 = rest;
        Some(line)
    }
}
