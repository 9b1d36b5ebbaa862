//! Advice on lines that were refused or are no command.
use crate::own_forms::{own_keyword_help, own_rows};
use question_text::{all_help, file_keyword_help, file_rows, keyword_help, question_help};
use std::alloc::{AllocError, Global};
use std::str;
use strsim::levenshtein;

// The largest distance, in letters changed, from a word to the keyword of a question that may be meant.
const NEAR: usize = 2;

// The same distance to the keyword of a line that changes something.
const NEAREST: usize = 1;

// What may help after a line that is no command.
#[derive(Clone, Copy)]
pub(crate) enum Advice {
    // The line begins with a keyword, whose form is this.
    Form(&'static str),
    // The line's first word is near a keyword, whose form is this.
    Near(&'static str),
    // The line's first word is like no keyword.
    Help,
}

/// Returns the form of a line by its first word, if that is a keyword. `has_files` tells whether lines write files.
pub(crate) fn form_of(line: &[u8], has_files: bool) -> Option<&'static str> {
    form_with(first_word(str::from_utf8(line).ok()?)?, has_files)
}

// Returns the form of the line that begins with a keyword.
fn form_with(keyword: &str, has_files: bool) -> Option<&'static str> {
    let text = str::from_utf8(help_about(keyword.as_bytes(), has_files)?).ok()?;
    form_in(text.lines().next()?)
}

// Returns what `help` answers about a keyword.
fn help_about(keyword: &[u8], has_files: bool) -> Option<&'static [u8]> {
    match keyword_help(keyword) {
        None if has_files => help_with_files(keyword),
        text => text,
    }
}

// Returns what `help` answers about a keyword of a line that writes or reads a file.
fn help_with_files(keyword: &[u8]) -> Option<&'static [u8]> {
    match file_keyword_help(keyword) {
        None => own_keyword_help(keyword),
        text => text,
    }
}

// Returns the text of a row.
fn form_in(row: &'static str) -> Option<&'static str> {
    row.strip_prefix("row ")
}

// Returns the first word of a text.
fn first_word(text: &str) -> Option<&str> {
    text.split_ascii_whitespace().next()
}

// Returns the advice for a line that is no command.
pub(crate) fn advise(alloc: Global, line: &[u8], has_files: bool) -> Advice {
    if let Some(form) = form_of(line, has_files) {
        return Advice::Form(form);
    }
    let Some(word) = str::from_utf8(line).ok().and_then(first_word) else {
        return Advice::Help;
    };
    match nearest(alloc, word, has_files) {
        Ok(Some(form)) => Advice::Near(form),
        Ok(None) | Err(_) => Advice::Help,
    }
}

// A form, and how far its keyword is from a word.
#[derive(Clone, Copy)]
struct NearForm {
    distance: usize,
    form: Option<&'static str>,
}

// Returns the form of the line whose keyword is nearest to a word, if one is near enough: of several the first that `help`
// lists. Fails if an allocation fails.
fn nearest(alloc: Global, word: &str, has_files: bool) -> Result<Option<&'static str>, AllocError> {
    let mut found = NearForm {
        distance: NEAR + 1,
        form: None,
    };
    found = nearest_in(alloc, word, all_help(), found)?;
    if has_files {
        found = nearest_in(alloc, word, file_rows(), found)?;
        found = nearest_in(alloc, word, own_rows(), found)?;
    }
    Ok(found.form)
}

// Returns the form of the nearest of these rows, if it is nearer than what was found, and near enough. Fails if an allocation
// fails.
fn nearest_in(
    alloc: Global,
    word: &str,
    rows: &'static [u8],
    found: NearForm,
) -> Result<NearForm, AllocError> {
    let mut found = found;
    for row in str::from_utf8(rows).unwrap_or("").lines() {
        if let Some(form) = form_in(row)
            && let Some(keyword) = first_word(form)
        {
            let distance = levenshtein(alloc, word, keyword)?;
            if distance <= reach(keyword) && distance < found.distance {
                found = NearForm {
                    distance,
                    form: Some(form),
                };
            }
        }
    }
    Ok(found)
}

// Returns how far a word may be from a keyword that it stands for.
fn reach(keyword: &str) -> usize {
    if question_help(keyword.as_bytes()).is_some() && !changes(keyword) {
        NEAR
    } else {
        NEAREST
    }
}

// Tells whether a line with this keyword of a question changes the heap or what the session notes.
fn changes(keyword: &str) -> bool {
    matches!(keyword, "collect" | "forward" | "at" | "name")
}

// Returns how a line of this form names a state, or None if it names none.
pub(crate) fn state_names(form: &str) -> Option<&'static str> {
    if form
        .split_ascii_whitespace()
        .any(|word| word == "[@PLACE]" || word == "[@PLACE")
    {
        return Some("@PLACE is @P for the state at place P, or - for the current state");
    }
    if form.starts_with("at ") {
        return Some("@P is the retained state at place P, - the current state");
    }
    if !form
        .split_ascii_whitespace()
        .any(|word| word == "AT" || word == "[AT]" || word == "[AT")
    {
        return None;
    }
    if form.starts_with("open ") {
        Some("AT is - for the current state, or P or @P for the state at place P")
    } else {
        Some(
            "AT is - for the current state, the number of an open pin, or @P for the state at place P",
        )
    }
}
