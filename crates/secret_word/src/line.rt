//! The line of a secret word.
ghost use Rattle.std.specs.Prelude.{◌≡◌, ◌∷◌, ◌++◌, []};

use crate::ends::LF;
use crate::secret::{Secret, WORD_LIMIT};
use std::marker::Model;

// The most bytes of the line.
const ROOM: usize = WORD_LIMIT + 1;

/// The line of a secret word: what a client sends first. Contracts see its bytes.
#[derive(Drop)]
pub struct SecretLine {
    bytes: [u8; ROOM],
    size: usize,
}

impl Model for SecretLine {
    ghost use Rattle.std.specs.Prelude.{◌≤◌, List, ℕ, length, take};

    ghost Value = { List ℕ };

    ghost view = { λ l. take l.size l.bytes };

    ghost invariant = { λ l. l.size ≤ length l.bytes };
}

impl SecretLine {
    /// Returns the bytes of the line.
    pub fn as_bytes(&self) -> &[u8]
        ensures { result.now ≡ self.now }
    {
        &self.bytes[..self.size]
    }
}

impl Secret {
    /// Returns the line of the word: its bytes and an LF.
    pub fn line(&self) -> SecretLine
        ensures { result ≡ self.now ++ 10 ∷ [] }
    {
        let size = self.size;
        let mut bytes = [0; ROOM];
        bytes[..size].copy_from_slice(&self.bytes[..size]);
        bytes[size] = LF;
        SecretLine {
            bytes,
            size: size + 1,
        }
    }
}
