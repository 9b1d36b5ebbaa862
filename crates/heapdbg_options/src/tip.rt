//! A tip for words that give a file without its option.
use std::alloc::{AllocError, Global};

// Returns the parser's text on words that it refuses, with a tip if they give a file to `explore` without its option. Fails if
// an allocation fails.
pub(crate) fn with_tip(alloc: Global, words: &[&str], text: String) -> Result<String, AllocError> {
    match tipped(alloc, words, text.as_str())? {
        Some(tipped) => Ok(tipped),
        None => Ok(text),
    }
}

// Returns the parser's text with a tip, or None if none is due. Fails if an allocation fails.
fn tipped(alloc: Global, words: &[&str], text: &str) -> Result<Option<String>, AllocError> {
    let Some(file) = stray_file(words, text) else {
        return Ok(None);
    };
    let Some((first, rest)) = text.split_once('\n') else {
        return Ok(None);
    };
    let tip = format!(in alloc;
        "{first}\n\n  tip: to run the lines of a file first, use '--from {file}'\n{rest}"
    )?;
    Ok(Some(tip))
}

// Returns the word of `explore` that the parser calls unexpected, if it is no option.
fn stray_file<'a>(words: &[&str], text: &'a str) -> Option<&'a str> {
    match words {
        [_, command, ..] if *command == "explore" => {}
        _ => return None,
    }
    let named = text.strip_prefix("error: unexpected argument '")?;
    let (word, _) = named.split_once("' found")?;
    if word.starts_with('-') {
        None
    } else {
        Some(word)
    }
}
