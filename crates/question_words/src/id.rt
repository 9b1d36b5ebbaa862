//! Ids, as lines have them.
ghost use Rattle.std.specs.Prelude.{◌≡◌, option_and_then};
ghost use Rattle.question_words.specs.Appends.{Appends};
ghost use Rattle.question_words.specs.Ids.{and_id, and_reference, hex_digit, hex_from, id_of_word, with_hex};

use crate::rows::push_words;
use session_grammar::words::is_word;
use std::alloc::AllocError;

// The number of bytes of an id in a line.
const ID_SIZE: usize = 10;

/// Returns the id that a word is.
#[tactic(auto, unfolding(crate::specs::Ids::id_of_word))]
pub fn id_of(word: &[u8]) -> Option<u64>
    ensures { result ≡ id_of_word word.now }
{
    if word.len() != ID_SIZE || !is_word(&word[..2], b"0x") {
        return None;
    }
    hex_value(&word[2..])
}

// Returns the value of lower-case hexadecimal digits, or None if it comes to 2^64 or a byte is no digit.
fn hex_value(digits: &[u8]) -> Option<u64>
    ensures { result ≡ hex_from 0 digits.now }
{
    let mut value = 0;
    for b in digits {
        value = with_digit(value, *b)?;
    }
    Some(value)
}

// Returns a number with one more digit, or None if `b` is none or the number comes to 2^64.
fn with_digit(value: u64, b: u8) -> Option<u64>
    ensures { result ≡ option_and_then (λ d. with_hex value d) (hex_digit b) }
{
    let digit = hex_digit(b)?;
    with_hex(value, digit)
}

// Returns the value of a lower-case hexadecimal digit.
fn hex_digit(b: u8) -> Option<u64>
    ensures { result ≡ hex_digit b }
{
    if b.is_ascii_digit() {
        return Some(u64::from(b - b'0'));
    }
    if b'a' <= b && b <= b'f' {
        return Some(u64::from(b - b'a') + 10);
    }
    None
}

// Returns a number with one more digit, or None if it comes to 2^64.
fn with_hex(value: u64, digit: u64) -> Option<u64>
    ensures { result ≡ with_hex value digit }
{
    value.checked_mul(16)?.checked_add(digit)
}

/// Appends a space and an id. Fails if an allocation fails.
pub fn push_id(text: &mut Vec<u8>, id: u64) -> Result<(), AllocError>
    ensures { Appends (and_id id) text.old.items text.new.items result }
{
    let mut digits = [0u8; 8];
    push_words(text, b" 0x")?;
    if hex::encode_to_slice(&id.to_be_bytes()[4..], &mut digits).is_err() {
        unreachable!()
    }
    push_words(text, &digits)
}

/// Appends a space, and an id or `null`. Fails if an allocation fails.
pub fn push_reference(text: &mut Vec<u8>, id: u64) -> Result<(), AllocError>
    ensures { Appends (and_reference id) text.old.items text.new.items result }
{
    if id == 0 {
        push_words(text, b" null")
    } else {
        push_id(text, id)
    }
}
