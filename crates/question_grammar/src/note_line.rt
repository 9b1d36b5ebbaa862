//! Lines that a session notes, which ask nothing of its heap; and the lines `open` and `open @WORD`.
ghost use Rattle.std.specs.Prelude.{◌≡◌, option_map};
ghost use Rattle.session_grammar.specs.Grammar.{words_of_line};
ghost use Rattle.question_grammar.specs.NoteLines.{name_of_word, name_set, place_behind_open, place_by_name, place_opened, place_set, word_behind};

use crate::bookmarks::{Bookmarks, is_place_name};
use crate::question::place_of_word;
use session_grammar::number::number_of;
use session_grammar::words::{Words, is_word};

/// Returns the place that a line sets for questions that name no state: `at @P`, or `at -`, which sets none. Returns None if the
/// line is neither. Takes no memory.
pub fn place_set(bookmarks: &Bookmarks, line: &[u8]) -> Option<Option<u64>>
    ensures { result ≡ place_set bookmarks.now line.now }
{
    let word = word_behind(b"at", Words::new(line))?;
    place_of_word(bookmarks, word)
}

// Returns the word behind this keyword, if it is the only one.
#[tactic(auto, unfolding(crate::specs::NoteLines::word_behind))]
fn word_behind<'a>(key: &[u8], mut words: Words<'a>) -> Option<&'a [u8]>
    ensures { option_map (λ w. w.now) result ≡ word_behind key.now (words_of_line words.entry) }
{
    let word = words.next_word()?;
    let behind = words.next_word()?;
    if words.front().is_some() {
        return None;
    }
    if is_word(word, key) {
        Some(behind)
    } else {
        None
    }
}

/// Returns the name that a line sets: `name WORD`. Returns None if the line isn't this one. Takes no memory.
pub fn name_set(line: &[u8]) -> Option<&[u8]>
    ensures { option_map (λ w. w.now) result ≡ name_set line.now }
{
    let word = word_behind(b"name", Words::new(line))?;
    name_of_word(word)
}

// Returns the word, if it may be a name.
fn name_of_word(word: &[u8]) -> Option<&[u8]>
    ensures { option_map (λ w. w.now) result ≡ name_of_word word.now }
{
    if is_place_name(word) {
        Some(word)
    } else {
        None
    }
}

/// Returns the place on whose state a line opens a pin, or None for the current one: that of `at` for `open`, and for `open @WORD`
/// the place with this name. Returns None if the line is neither, as `open AT`, which the grammar of sessions knows. Takes no
/// memory.
pub fn place_opened(bookmarks: &Bookmarks, line: &[u8]) -> Option<Option<u64>>
    ensures { result ≡ place_opened bookmarks.now line.now }
{
    let mut words = Words::new(line);
    let word = words.next_word()?;
    if !is_word(word, b"open") {
        return None;
    }
    place_behind_open(bookmarks, words)
}

// Returns the place that the words behind `open` name by a name, or that of `at` if there is none.
fn place_behind_open(bookmarks: &Bookmarks, mut words: Words) -> Option<Option<u64>>
    ensures { result ≡ place_behind_open bookmarks.now (words_of_line words.entry) }
{
    let Some(word) = words.next_word() else {
        return Some(bookmarks.at());
    };
    if words.front().is_some() {
        return None;
    }
    let place = place_by_name(bookmarks, word)?;
    Some(Some(place))
}

// Returns the place that a word names as `@WORD`, if what follows the sign is no number.
#[tactic(auto, unfolding(crate::specs::NoteLines::place_by_name))]
fn place_by_name(bookmarks: &Bookmarks, word: &[u8]) -> Option<u64>
    ensures { result ≡ place_by_name bookmarks.now word.now }
{
    let [b'@', name @ ..] = word else {
        return None;
    };
    match number_of(name) {
        Some(_) => None,
        None => bookmarks.place_named(name),
    }
}
