// Reads a line. Assumes nothing.
ghost use Rattle.std.specs.Prelude.{◌≡◌};
ghost use Rattle.plantext.specs.Grammar.{words_of, all_known, front_numbers, after_numbers, rule, preset, clash, statement, statement_of};
ghost use Rattle.plantext.specs.Writes.{ReadsBack};

use crate::cut::uncommented;
use crate::problem::Problem;
use crate::statement::Statement;
use crate::word::Word;
use crate::words::{Words, front_numbers, next_word, one_number};

// Whether all words of a text are known.
fn check_words(text: &[u8]) -> Result<(), Problem>
    ensures { result ≡ all_known 0 (words_of text.now) }
{
    for (place, word) in Words(text).enumerate() {
        word.map_err(|misspelling| misspelling.at(place))?;
    }
    Ok(())
}

// A rule: coefficients, a comparison and the side.
fn read_rule(text: &[u8]) -> Result<Statement, Problem>
    ensures { result ≡ rule (front_numbers (words_of text.now)) (after_numbers (words_of text.now)) }
{
    let (coefficients, rest) = front_numbers(text);
    let Some((Ok(Word::Compare(kind)), rest)) = next_word(rest) else {
        return Err(Problem::NoStatement);
    };
    let side = one_number(rest)?;
    Ok(Statement::Rule(coefficients?, kind, side))
}

// A preset after its first word: numerators, a slash and the denominator.
fn read_preset(text: &[u8]) -> Result<Statement, Problem>
    ensures { result ≡ preset (front_numbers (words_of text.now)) (after_numbers (words_of text.now)) }
{
    let (numerators, rest) = front_numbers(text);
    let Some((Ok(Word::Slash), rest)) = next_word(rest) else {
        return Err(Problem::NoStatement);
    };
    let denominator = one_number(rest)?;
    Ok(Statement::Preset(numerators?, denominator))
}

// A clash after its first word: weights.
fn read_clash(text: &[u8]) -> Result<Statement, Problem>
    ensures { result ≡ clash (front_numbers (words_of text.now)) (after_numbers (words_of text.now)) }
{
    let (weights, rest) = front_numbers(text);
    match next_word(rest) {
        None => Ok(Statement::Clash(weights?)),
        Some(_) => Err(Problem::NoStatement),
    }
}

// A text whose words are all known.
fn read_statement(text: &[u8]) -> Result<Statement, Problem>
    ensures { result ≡ statement (words_of text.now) }
{
    match next_word(text) {
        None => Ok(Statement::Blank),
        Some((Ok(Word::Faders), rest)) => Ok(Statement::Faders(one_number(rest)?)),
        Some((Ok(Word::Preset), rest)) => read_preset(rest),
        Some((Ok(Word::Clash), rest)) => read_clash(rest),
        Some(_) => read_rule(text),
    }
}

// What a line says.
pub fn read_line(line: &[u8]) -> Result<Statement, Problem>
    ensures { result ≡ statement_of line.now }
{
    let text = uncommented(line);
    check_words(text)?;
    read_statement(text)
}

// A statement whose numbers have at most twelve digits is what its own text says.
pub fn reads_back()
    ensures { ReadsBack }
{}
