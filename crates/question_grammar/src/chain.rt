//! Lines of `show` that follow fields from an object, or also show the objects below it.
ghost use Rattle.std.specs.Prelude.{◌≡◌};
ghost use Rattle.session_grammar.specs.Grammar.{words_of_line};
ghost use Rattle.question_grammar.specs.Chains.{chain_behind, chain_by, chain_of, extent_of_words, fields_from, levels_of_word};

use crate::bookmarks::Bookmarks;
use crate::parts::Parts;
use crate::question::at_of;
use question_words::{At, SlotRange, id_of};
use session_grammar::command::at_end;
use session_grammar::number::number_of;
use session_grammar::words::{Words, is_word};

/// The most levels below an object that are shown.
pub const LEVEL_LIMIT: u64 = 8;

/// What is shown of an object.
#[derive(Clone, Copy)]
pub enum Extent {
    /// Some of its slots.
    Slots(SlotRange),
    /// All its slots, and those of the objects below it, down to this level.
    Levels(u64),
}

/// An object that is reached along fields, and what is shown of it.
#[derive(Drop)]
pub struct Chain<'a> {
    /// The state.
    pub at: At,
    /// The id of the object from which the fields are followed.
    pub id: u64,
    /// The fields, by their numbers or names.
    pub fields: Parts<'a>,
    /// What is shown.
    pub extent: Extent,
}

/// Returns what a line `show [AT] ID.FIELD .. [DEPTH]` asks to be shown, or None if it is no such line. It may name no field, and
/// the first slot and how many may stand for the depth. Takes no memory.
pub fn chain_in<'a>(bookmarks: &Bookmarks, line: &'a [u8]) -> Option<Chain<'a>>
    ensures { result ≡ chain_of bookmarks.now line.now }
{
    let mut words = Words::new(line);
    let keyword = words.next_word()?;
    if is_word(keyword, b"show") {
        chain_behind(bookmarks, words)
    } else {
        None
    }
}

// Reads the words behind `show`: a state, if it is named, an id with its fields, and what is shown.
fn chain_behind<'a>(bookmarks: &Bookmarks, mut words: Words<'a>) -> Option<Chain<'a>>
    ensures { result ≡ chain_behind bookmarks.now (words_of_line words.entry) }
{
    let word = words.next_word()?;
    if let Some((id, fields)) = fields_from(word) {
        return chain_by(bookmarks.default_at(), id, fields, words);
    }
    let second = words.next_word()?;
    let at = at_of(bookmarks, word)?;
    let (id, fields) = fields_from(second)?;
    chain_by(at, id, fields, words)
}

// Returns the id and the fields of a word.
fn fields_from(word: &[u8]) -> Option<(u64, Parts<'_>)>
    ensures { result ≡ fields_from word.now }
{
    let mut parts = Parts::new(word);
    let first = parts.next_part()?;
    let id = id_of(first)?;
    Some((id, parts))
}

// Reads the words behind an id with its fields: what is shown.
fn chain_by<'a>(at: At, id: u64, fields: Parts<'a>, words: Words) -> Option<Chain<'a>>
    ensures { result ≡ chain_by at (id, fields.entry) (words_of_line words.entry) }
{
    let extent = extent_of(words)?;
    Some(Chain {
        at,
        id,
        fields,
        extent,
    })
}

// Returns what the words ask to be shown: all slots if there are no words, the levels below, or the first slot and how many.
fn extent_of(mut words: Words) -> Option<Extent>
    ensures { result ≡ extent_of_words (words_of_line words.entry) }
{
    let Some(word) = words.next_word() else {
        return Some(Extent::Slots(SlotRange::AllSlots));
    };
    let Some(second) = words.next_word() else {
        return Some(Extent::Levels(levels_of(word)?));
    };
    let first = number_of(word)?;
    let count = number_of(second)?;
    at_end(Extent::Slots(SlotRange::FromSlot { first, count }), words)
}

// Returns the number of levels that a word is.
fn levels_of(word: &[u8]) -> Option<u64>
    ensures { result ≡ levels_of_word word.now }
{
    let levels = number_of(word)?;
    if levels <= LEVEL_LIMIT {
        Some(levels)
    } else {
        None
    }
}
