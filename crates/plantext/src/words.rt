// Takes words and numbers off the front of a text. Assumes nothing.
ghost use Rattle.std.specs.Prelude.{◌≡◌, ◌<◌, [], ◌∷◌, length, IfSome, MatchOption};
ghost use Rattle.std.specs.Iterator.{YieldsFirst, item_count};
ghost use Rattle.plantext.specs.Grammar.{words_of, front_numbers, after_numbers, held, one_number};

use crate::cut::first_word;
use crate::numbers::Numbers;
use crate::problem::Problem;
use crate::spelling::read_word;
use crate::word::{Misspelling, Word};

// The first word of a text, and the text after it.
pub fn next_word(text: &[u8]) -> Option<(Result<Word, Misspelling>, &[u8])>
    ensures word { MatchOption result (words_of text.now ≡ []) (λ p. words_of text.now ≡ p.0 ∷ words_of p.1.now) }
    ensures shorter { IfSome result (λ p. length p.1.now < length text.now) }
{
    let (bytes, rest) = first_word(text)?;
    Some((read_word(bytes), rest))
}

// The words of a text, one by one.
#[derive(Clone, Copy)]
pub struct Words<'a>(pub &'a [u8]);

impl<'a> Iterator for Words<'a> {
    type Item = Result<Word, Misspelling>;

    ghost next_gives = { YieldsFirst (λ s. words_of s.0.now) };

    ghost remaining = { item_count (λ s. words_of s.0.now) };

    fn next(&mut self) -> Option<Result<Word, Misspelling>> {
        let (word, rest) = next_word(self.0)?;
        self.0 = rest;
        Some(word)
    }
}

// The numbers at the front of a text, and the text after them.
pub fn front_numbers(text: &[u8]) -> (Result<Numbers, Problem>, &[u8])
    ensures numbers { result.0 ≡ held (front_numbers (words_of text.now)) }
    ensures rest { words_of result.1.now ≡ after_numbers (words_of text.now) }
{
    let mut numbers = Numbers::new();
    let mut pushed = Ok(());
    let mut rest = text;
    while let Some((Ok(Word::Number(n)), after)) = next_word(rest) {
        pushed = pushed.and(numbers.push(n));
        rest = after;
    }
    (pushed.map(|()| numbers), rest)
}

// A text that is one number.
pub fn one_number(text: &[u8]) -> Result<i64, Problem>
    ensures { result ≡ one_number (words_of text.now) }
{
    let Some((Ok(Word::Number(n)), rest)) = next_word(text) else {
        return Err(Problem::NoStatement);
    };
    match next_word(rest) {
        None => Ok(n),
        Some(_) => Err(Problem::NoStatement),
    }
}
