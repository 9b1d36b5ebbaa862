//! The keyword of a line, as it is shown.
ghost use Rattle.std.specs.Prelude.{◌≤◌, All, length};

// The most letters of a word that is shown. Each keyword has fewer.
const LETTERS: usize = 15;

// Returns the first word of a line, if it may be a keyword: if it has small letters alone, and not too many. Nothing else that was
// read is shown, so no line can move the cursor.
pub(crate) fn keyword_of(line: &[u8]) -> &[u8]
    ensures short { length result.now ≤ 15 }
    ensures letters { All (λ b. (97 ≤ b) × (b ≤ 122)) result.now }
{
    let word = first_word(line);
    if word.len() <= LETTERS && word.iter().all(|byte| byte.is_ascii_lowercase()) {
        word
    } else {
        b""
    }
}

// Returns the bytes of a line before the first space or LF, but for spaces at its beginning.
fn first_word(line: &[u8]) -> &[u8] {
    let line = line.trim_ascii_start();
    match line.iter().position(|byte| byte.is_ascii_whitespace()) {
        Some(end) => &line[..end],
        None => line,
    }
}
