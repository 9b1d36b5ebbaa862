//! The words of the command line.
ghost use Rattle.std.specs.Prelude.{◌≡◌, IfOk, map, string_bytes};
ghost use Rattle.heapdbg_options.specs.Refusals.{is_help, is_version};
ghost use Rattle.heapdbg_options.specs.CommandLine.{texts};

use std::alloc::{AllocError, Global};

/// Returns the words as text. Fails if an allocation fails.
pub fn borrow_words<'a>(alloc: Global, words: &'a [String]) -> Result<Vec<&'a str>, AllocError>
    ensures { IfOk result (λ line. texts line.items ≡ map string_bytes words.now) }
{
    let mut line = Vec::new(alloc);
    for word in words {
        line.push(word.as_str())?;
    }
    Ok(line)
}

// Tells whether the words are the command `version`, and nothing follows.
pub(crate) fn is_version(words: &[&str]) -> bool
    ensures { result ≡ is_version (texts words.now) }
{
    match words {
        [_, word] => *word == "version",
        _ => false,
    }
}

// Tells whether the words are the command `help`.
pub(crate) fn is_help(words: &[&str]) -> bool
    ensures { result ≡ is_help (texts words.now) }
{
    match words {
        [_, word, ..] => *word == "help",
        _ => false,
    }
}
