//! Lines that write files.
ghost use Rattle.std.specs.Prelude.{◌≡◌, option_map};
ghost use Rattle.session_grammar.specs.Grammar.{words_of_line};
ghost use Rattle.question_grammar.specs.FileLines.{at_and_path, file_by, file_of};

use crate::bookmarks::Bookmarks;
use crate::question::at_of;
use question_words::At;
use session_grammar::words::{Words, is_word};

/// What is written to a file.
#[derive(Clone, Copy)]
pub enum FileContent {
    /// The dump of a state.
    DumpOf(At),
    /// A picture of the regions of a state.
    PictureOf(At),
}

/// A line that writes a file.
#[derive(Clone, Copy)]
pub struct FileLine<'a> {
    /// What is written.
    pub content: FileContent,
    /// The path of the file: the bytes of a word, which may be no UTF-8.
    pub path: &'a [u8],
}

// A state, and the path of a file.
#[derive(Clone, Copy)]
struct StatePath<'a> {
    at: At,
    path: &'a [u8],
}

/// Returns what a line asks to be written, `write [AT] PATH` or `draw [AT] PATH`, or None if it is neither. If it names no state,
/// it is that of the session. Takes no memory.
pub fn file_in<'a>(bookmarks: &Bookmarks, line: &'a [u8]) -> Option<FileLine<'a>>
    ensures { option_map (λ f. (f.content, f.path.now)) result ≡ file_of bookmarks.now line.now }
{
    let mut words = Words::new(line);
    let keyword = words.next_word()?;
    file_by(bookmarks, keyword, words)
}

// Reads the words behind a keyword.
#[tactic(auto, unfolding(crate::specs::FileLines::file_by))]
fn file_by<'a>(bookmarks: &Bookmarks, keyword: &[u8], words: Words<'a>) -> Option<FileLine<'a>>
    ensures { option_map (λ f. (f.content, f.path.now)) result
        ≡ file_by bookmarks.now keyword.now (words_of_line words.entry) }
{
    if is_word(keyword, b"write") {
        let StatePath { at, path } = at_and_path(bookmarks, words)?;
        let content = FileContent::DumpOf(at);
        Some(FileLine { content, path })
    } else if is_word(keyword, b"draw") {
        let StatePath { at, path } = at_and_path(bookmarks, words)?;
        let content = FileContent::PictureOf(at);
        Some(FileLine { content, path })
    } else {
        None
    }
}

// Reads the words behind a keyword: a state, if it is named, and the path.
fn at_and_path<'a>(bookmarks: &Bookmarks, mut words: Words<'a>) -> Option<StatePath<'a>>
    ensures { option_map (λ f. (f.at, f.path.now)) result
        ≡ at_and_path bookmarks.now (words_of_line words.entry) }
{
    let word = words.next_word()?;
    let Some(path) = words.next_word() else {
        let at = bookmarks.default_at();
        return Some(StatePath { at, path: word });
    };
    if words.front().is_some() {
        return None;
    }
    let at = at_of(bookmarks, word)?;
    Some(StatePath { at, path })
}
