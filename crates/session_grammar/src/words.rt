//! The words of a line.
ghost use Rattle.std.specs.Prelude.{◌≡◌, ◌+◌, ◌<◌, ◌≤◌, ◌==◌, not, [], ◌∷◌, length, drop, IfSome, MatchOption};
ghost use Rattle.std.specs.List.{position};
ghost use Rattle.std.specs.Str.{bytes_eq};
ghost use Rattle.session_grammar.specs.Grammar.{words_of_line};
ghost use Rattle.session_grammar.specs.Reads.{word_size, IsFront, IsRestOf};

use std::marker::Model;

/// The byte between words.
pub const SPACE: u8 = b' ';

/// The words of a text that aren't read yet: its longest runs of bytes other than space. It only goes on and has no copy, so
/// no word is read twice. Contracts see the text that is left.
#[derive(Drop)]
pub struct Words<'a> {
    rest: &'a [u8],
}

/// Returns what the row with this word gives, or what stands last if no row has the word.
#[macro_export]
macro_rules! by_word {
    ($word:expr; $($name:literal => $line:expr,)* _ => $else:expr) => {{
        $(if $crate::words::is_word($word, $name) {
            return $line;
        })*
        $else
    }};
}

/// Tells whether a word is this one.
pub fn is_word(word: &[u8], name: &[u8]) -> bool
    ensures { result ≡ bytes_eq word.now name.now }
{
    word == name
}

// Returns the place at which the first word begins.
fn word_start(text: &[u8]) -> Option<usize>
    ensures value { result ≡ position (λ b. not (b == 32)) text.now }
    ensures within { IfSome result (λ n. n < length text.now) }
{
    text.iter().position(|b| *b != SPACE)
}

/// Returns the size of the word that the text begins with.
pub fn word_size(text: &[u8]) -> usize
    ensures value { result ≡ word_size text.now }
    ensures within { result ≤ length text.now }
{
    first_space(text).unwrap_or(text.len())
}

// Returns the place of the first space.
fn first_space(text: &[u8]) -> Option<usize>
    ensures { result ≡ position (λ b. b == 32) text.now }
{
    text.iter().position(|b| *b == SPACE)
}

impl<'a> Model for Words<'a> {
    ghost use Rattle.std.specs.Prelude.{List, ℕ};

    ghost Value = { List ℕ };

    ghost view = { λ w. w.rest.now };
}

impl<'a> Words<'a> {
    /// Returns all words of a text.
    pub fn new(text: &'a [u8]) -> Words<'a>
        ensures { result ≡ text.now }
    {
        Words { rest: text }
    }

    /// Returns the text that isn't read yet.
    pub fn rest(&self) -> &'a [u8]
        ensures { result.now ≡ self.now }
    {
        self.rest
    }

    /// Skips spaces, and returns the text that is left from its first word on, or None if no word is left.
    pub fn front(&mut self) -> Option<&'a [u8]>
        ensures front { MatchOption result (words_of_line self.old ≡ [])
            (λ t. IsFront (words_of_line self.old) self.new t.now) }
        ensures rest { IsRestOf self.old self.new }
    {
        let start = word_start(self.rest)?;
        self.rest = &self.rest[start..];
        Some(self.rest)
    }

    /// Skips `size` bytes and the separator after them, if any.
    pub fn pass(&mut self, size: usize)
        requires { size ≤ length self.old }
        ensures next { self.new ≡ drop (size + 1) self.old }
        ensures rest { IsRestOf self.old self.new }
        ensures shorter { length self.new + size ≤ length self.old }
    {
        self.rest = self.rest.get(size + 1..).unwrap_or(&[]);
    }

    /// Reads the next word.
    pub fn next_word(&mut self) -> Option<&'a [u8]>
        ensures next { MatchOption result (words_of_line self.old ≡ [])
            (λ w. words_of_line self.old ≡ w.now ∷ words_of_line self.new) }
        ensures shorter { length self.new ≤ length self.old }
    {
        let text = self.front()?;
        let size = word_size(text);
        self.pass(size);
        Some(&text[..size])
    }
}
