//! The ends of lines.
ghost use Rattle.std.specs.Prelude.{◌≡◌, ℕ, List, MatchOption};
ghost use Rattle.secret_word.specs.Words.{IsSecret, IsTextOf};
ghost use Rattle.secret_word.specs.Ends.{IsFirstEnd, IsWithout, NoLf};

use memchr::memchr;

/// The byte that ends a line.
pub(crate) const LF: u8 = b'\n';

// The byte that may stand before it.
const CR: u8 = b'\r';

/// Returns a line without a CR at its end.
pub(crate) fn without_cr(line: &[u8]) -> &[u8]
    ensures { IsWithout 13 line.now result.now }
{
    without(line, CR)
}

// Returns a text without this byte at its end.
fn without(text: &[u8], end: u8) -> &[u8]
    ensures { IsWithout end text.now result.now }
{
    match text.split_last() {
        Some((last, rest)) => { if *last == end { rest } else { text } }
        None => text,
    }
}

/// Returns a text without one LF or CR LF at its end.
pub(crate) fn without_end(text: &[u8]) -> &[u8]
    ensures text { IsTextOf result.now text.now }
    ensures only { (word : List ℕ) → IsSecret word → IsTextOf word text.now → word ≡ result.now }
{
    let line = without(text, LF);
    if line.len() == text.len() {
        text
    } else {
        without_cr(line)
    }
}

/// Returns the place of the first LF, or None.
pub(crate) fn line_end(bytes: &[u8]) -> Option<usize>
    ensures { MatchOption result (NoLf bytes.now) (λ n. IsFirstEnd n bytes.now) }
{
    memchr(LF, bytes)
}
