//! Lines that run the lines of a file, or begin and end a log.
ghost use Rattle.std.specs.Prelude.{◌≡◌, option_map};
ghost use Rattle.session_grammar.specs.Grammar.{words_of_line};
ghost use Rattle.heap_files.specs.OwnLines.{deed_by, own_of, path_alone};

use session_grammar::words::{Words, is_word};

/// What is done with a file.
#[derive(Clone, Copy)]
pub enum Deed {
    /// Its lines are run in the session.
    Source,
    /// It is made, and gets what the session reads and writes from now on. The path `-` ends that.
    Log,
}

/// A line that does something with a file.
#[derive(Clone, Copy)]
pub(crate) struct OwnLine<'a> {
    /// What is done.
    pub(crate) deed: Deed,
    /// The path of the file: the bytes of a word, which may be no UTF-8.
    pub(crate) path: &'a [u8],
}

/// Returns what a line asks to be done, `source PATH` or `log PATH`, or None if it is neither. Takes no memory.
pub(crate) fn own_in<'a>(line: &'a [u8]) -> Option<OwnLine<'a>>
    ensures { option_map (λ o. (o.deed, o.path.now)) result ≡ own_of line.now }
{
    let mut words = Words::new(line);
    let keyword = words.next_word()?;
    let deed = deed_by(keyword)?;
    let path = path_alone(words)?;
    Some(OwnLine { deed, path })
}

// Returns what a keyword asks to be done.
#[tactic(auto, unfolding(crate::specs::OwnLines::deed_by))]
fn deed_by(keyword: &[u8]) -> Option<Deed>
    ensures { result ≡ deed_by keyword.now }
{
    if is_word(keyword, b"source") {
        Some(Deed::Source)
    } else if is_word(keyword, b"log") {
        Some(Deed::Log)
    } else {
        None
    }
}

// Returns the only word.
fn path_alone<'a>(mut words: Words<'a>) -> Option<&'a [u8]>
    ensures { option_map (λ p. p.now) result ≡ path_alone (words_of_line words.entry) }
{
    let path = words.next_word()?;
    if words.front().is_some() {
        return None;
    }
    Some(path)
}
