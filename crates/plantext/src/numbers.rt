// The numbers in a row of a statement. Assumes nothing.
ghost use Rattle.std.specs.Prelude.{◌≡◌, ◌<◌, ◌≤◌, [], ◌∷◌, ◌++◌, length, MatchResult};
ghost use Rattle.plantext.specs.declared.problem.Problem.TheVariants.{TooManyNumbers};
ghost use Rattle.plantext.specs.Padding.{padded};

use crate::problem::Problem;
use std::marker::Model;

// The most numbers in a row that a statement holds.
pub const MOST_NUMBERS: usize = 16;

// At most sixteen numbers, in order; the places after them hold zeros.
// kept: a buffer with a length beside it, behind methods that show a list, since reading a line could not run out of memory before
#[derive(Clone, Copy, PartialEq, Eq, Debug)]
pub struct Numbers {
    values: [i64; MOST_NUMBERS],
    len: usize,
}

impl Model for Numbers {
    ghost use Rattle.std.specs.Prelude.{List, ℤ};

    ghost Value = { List ℤ };

    ghost use Rattle.plantext.specs.Held.{listed, Held, held_so, held_again};

    ghost view = { listed };

    ghost inverse = { held_so };

    ghost invariant = { Held };

    ghost inverse_ok = { held_again };
}

impl Numbers {
    pub fn new() -> Numbers
        ensures { result ≡ [] }
    {
        Numbers {
            values: [0; MOST_NUMBERS],
            len: 0,
        }
    }

    pub fn as_slice(&self) -> &[i64]
        ensures { result.now ≡ self.now }
    {
        let (numbers, _) = self.values.split_at(self.len);
        numbers
    }

    // Sixteen places: the numbers, and zeros after them.
    pub fn places(&self) -> &[i64; MOST_NUMBERS]
        ensures { result.now ≡ padded self.now }
    {
        &self.values
    }

    // One more number at the end.
    pub fn push(&mut self, value: i64) -> Result<(), Problem>
        ensures { MatchResult result (λ _. (length self.old < 16) × (self.new ≡ self.old ++ value ∷ [])) (λ e. (e ≡ TooManyNumbers) × (16 ≤ length self.old) × (self.new ≡ self.old)) }
    {
        if self.len >= MOST_NUMBERS {
            return Err(Problem::TooManyNumbers);
        }
        self.values[self.len] = value;
        self.len += 1;
        Ok(())
    }
}
