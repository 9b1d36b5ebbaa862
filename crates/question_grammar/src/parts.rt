//! What stands between the dots of a word.
ghost use Rattle.std.specs.Prelude.{◌≡◌, ◌<◌, ◌==◌, [], ◌∷◌, length, IfSome, MatchOption};
ghost use Rattle.std.specs.List.{position};
ghost use Rattle.question_grammar.specs.Parts.{parts_of_word};

use std::marker::Model;

// The byte between parts.
const DOT: u8 = b'.';

/// The parts of a word between its dots that aren't read yet. Contracts see these.
#[derive(Drop)]
pub struct Parts<'a> {
    rest: Option<&'a [u8]>,
}

impl<'a> Model for Parts<'a> {
    ghost use Rattle.std.specs.Prelude.{List, ℕ, []};
    ghost use Rattle.std.specs.Option.{option_map_or};
    ghost use Rattle.question_grammar.specs.Parts.{parts_of_word};

    ghost Value = { List (List ℕ) };

    ghost view = { λ p. option_map_or (λ w. parts_of_word w.now) p.rest [] };
}

impl<'a> Parts<'a> {
    /// Returns all parts of a word: itself, if it has no dot.
    pub fn new(word: &'a [u8]) -> Parts<'a>
        ensures { result ≡ parts_of_word word.now }
    {
        Parts { rest: Some(word) }
    }

    /// Reads the next part, which may be empty.
    pub fn next_part(&mut self) -> Option<&'a [u8]>
        ensures { MatchOption result (self.old ≡ []) (λ part. self.old ≡ part.now ∷ self.new) }
    {
        let rest = self.rest?;
        match first_dot(rest) {
            Some(dot) => {
                self.rest = Some(&rest[dot + 1..]);
                Some(&rest[..dot])
            }
            None => {
                self.rest = None;
                Some(rest)
            }
        }
    }
}

// Returns the place of the first dot.
fn first_dot(word: &[u8]) -> Option<usize>
    ensures place { result ≡ position (λ b. b == 46) word.now }
    ensures within { IfSome result (λ n. n < length word.now) }
{
    word.iter().position(|b| *b == DOT)
}
