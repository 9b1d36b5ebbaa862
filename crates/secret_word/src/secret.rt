//! Secret words.
ghost use Rattle.std.specs.Prelude.{◌≡◌, ◌↔◌, ◌≤◌, ℕ, List, drop, length, slice_index, IsTrue, MatchOption};
ghost use Rattle.secret_word.specs.Words.{IsBehindWord, IsSecret, IsTextOf};

use crate::ends::{line_end, without_cr, without_end};
use std::marker::Model;

/// The fewest bytes of a secret word.
pub const WORD_LEAST: usize = 16;

/// The most bytes of a secret word.
pub const WORD_LIMIT: usize = 64;

/// A secret word: 16 to 64 ASCII letters and digits. Contracts see its bytes.
#[derive(Clone, Copy)]
pub struct Secret {
    // The word, and zeros behind it.
    pub(crate) bytes: [u8; WORD_LIMIT],
    pub(crate) size: usize,
}

impl Model for Secret {
    ghost use Rattle.std.specs.Prelude.{List, ℕ, length, take};
    ghost use Rattle.secret_word.specs.Words.{IsWordRoom, room_of};
    ghost use Rattle.secret_word.specs.WordRooms.{room_back, size_back};

    ghost Value = { List ℕ };

    ghost view = { λ s. take s.size s.bytes };

    ghost invariant = { λ s. IsWordRoom s.size s.bytes };

    ghost inverse = { λ word. record { bytes = room_of word; size = length word } };

    ghost inverse_ok = { λ s h i. record {
      bytes = room_back s.size s.bytes h i;
      size = size_back s.size s.bytes h i;
    } };
}

// Tells whether these bytes are 16 to 64 ASCII letters and digits.
fn is_secret(word: &[u8]) -> bool
    ensures { IsTrue result ↔ IsSecret word.now }
{
    WORD_LEAST <= word.len()
        && word.len() <= WORD_LIMIT
        && word.iter().all(|b| b.is_ascii_alphanumeric())
}

// Returns the byte at a place, or 0 behind the end.
fn byte_at(line: &[u8], place: usize) -> u8
    ensures { result ≡ slice_index line.now place }
{
    if place < line.len() { line[place] } else { 0 }
}

// Returns the secret word that these bytes are.
fn secret_of(word: &[u8]) -> Secret
    requires { IsSecret word.now }
    ensures { result ≡ word.now }
{
    let size = word.len();
    let mut bytes = [0; WORD_LIMIT];
    bytes[..size].copy_from_slice(word);
    Secret { bytes, size }
}

impl Secret {
    /// Returns the word of a text: 16 to 64 ASCII letters and digits, and perhaps one LF or CR LF behind them. Returns None if the
    /// text is anything else.
    pub fn of_text(text: &[u8]) -> Option<Secret>
        ensures { MatchOption result
            ((word : List ℕ) → IsSecret word → IsTextOf word text.now → ⊥)
            (λ s. IsSecret s × IsTextOf s text.now) }
    {
        let word = without_end(text);
        if is_secret(word) {
            Some(secret_of(word))
        } else {
            None
        }
    }

    /// Tells whether a line, without its end, is the word. The number of steps depends on nothing but whether places are within the
    /// line: at each of 64 places the difference to the word's byte is added to those before, and looked at after the last.
    pub fn is_word(&self, line: &[u8]) -> bool
        ensures { IsTrue result ↔ (line.now ≡ self.now) }
    {
        let mut difference = line.len() ^ self.size;
        for place in 0..WORD_LIMIT {
            difference |= (byte_at(line, place) ^ self.bytes[place]) as usize;
        }
        difference == 0
    }

    /// Returns the size of the first line of these bytes, with the LF or CR LF that ends it, if it is the word, or None. Takes as
    /// many steps for each first line of one length.
    pub fn line_size(&self, bytes: &[u8]) -> Option<usize>
        ensures { MatchOption result
            ((rest : List ℕ) → IsBehindWord self.now bytes.now rest → ⊥)
            (λ n. (n ≤ length bytes.now) × IsBehindWord self.now bytes.now (drop n bytes.now)) }
    {
        // The contract needs the invariant of the secret.
        let _size = self.size;
        let Some(end) = line_end(bytes) else {
            return None;
        };
        if self.is_word(without_cr(&bytes[..end])) {
            Some(end + 1)
        } else {
            None
        }
    }
}
