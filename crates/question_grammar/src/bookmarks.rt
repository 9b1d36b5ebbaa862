//! What a session notes of places: that of questions that name no state, and names.
ghost use Rattle.std.specs.Prelude.{◌≡◌, ◌<◌, length, IfSome, OnErr, OnOk};
ghost use Rattle.std.specs.List.{list_all, position};
ghost use Rattle.std.specs.Str.{bytes_eq};
ghost use Rattle.question_grammar.specs.Bookmarks.{default_at, has_room, is_place_byte, is_place_name, no_bookmarks, place_named, state_at, with_name, with_place};

use heap_class::Name;
use question_words::At;
use session_grammar::words::is_word;
use std::alloc::{AllocError, Global};
use std::marker::Model;

/// The most names of a session.
pub const NAME_LIMIT: usize = 256;

/// The longest name, in bytes.
pub const LONGEST_NAME: usize = 64;

/// A name, and the place that has it.
#[derive(Drop)]
pub struct PlaceName {
    /// The name.
    pub word: Name,
    /// The place.
    pub place: u64,
}

/// The place that the questions of a session are about if they name no state, and the names of places. Contracts see the place,
/// or None if it is the current one, and the names, in the order in which they were given last.
#[derive(Drop)]
pub struct Bookmarks {
    at: Option<u64>,
    names: Vec<PlaceName>,
}

impl Model for Bookmarks {
    ghost use Rattle.question_grammar.specs.Bookmarks.{Bookmarks};

    ghost Value = { Bookmarks };

    ghost view = { λ b. record { at = b.at; names = b.names.items } };
}

impl Bookmarks {
    /// Creates the bookmarks of a session that begins. Takes no memory.
    pub fn new(alloc: Global) -> Bookmarks
        ensures { result ≡ no_bookmarks }
    {
        Bookmarks {
            at: None,
            names: Vec::new(alloc),
        }
    }

    /// Returns the place that questions without one are about, or None if it is the current one.
    pub fn at(&self) -> Option<u64>
        ensures { result ≡ self.now.at }
    {
        self.at
    }

    /// Returns the state that questions are about that name none.
    pub fn default_at(&self) -> At
        ensures { result ≡ default_at self.now }
    {
        state_at(self.at)
    }

    /// Sets the place that questions without one are about: None for the current one.
    pub fn set_at(&mut self, at: Option<u64>)
        ensures { self.new ≡ record self.old { at = at } }
    {
        self.at = at;
    }

    /// Returns the place with this name. Takes no memory.
    pub fn place_named(&self, word: &[u8]) -> Option<u64>
        ensures { result ≡ place_named self.now.names word.now }
    {
        place_in(self.names.as_slice(), word)
    }

    /// Tells whether this name can be given to a place: it is given already, or fewer than `NAME_LIMIT` are.
    pub fn has_room(&self, word: &[u8]) -> bool
        ensures { result ≡ has_room word.now self.now }
    {
        self.place_named(word).is_some() || self.names.len() < NAME_LIMIT
    }

    /// Gives a name to a place, and takes it from any other. Fails, and changes nothing, if an allocation fails.
    pub fn set_name(&mut self, alloc: Global, word: &[u8], place: u64) -> Result<(), AllocError>
        ensures named { OnOk result (self.new ≡ with_name word.now place self.old) }
        ensures unchanged { OnErr result (self.new ≡ self.old) }
    {
        let word = Name::new(alloc, word)?;
        set_name(&mut self.names, word, place)
    }
}

// Returns the state at a place, or the current one.
fn state_at(place: Option<u64>) -> At
    ensures { result ≡ state_at place }
{
    match place {
        None => At::Current,
        Some(place) => At::Place(place),
    }
}

// Returns the place with this name.
#[tactic(auto, unfolding(crate::specs::Bookmarks::place_named))]
fn place_in(names: &[PlaceName], word: &[u8]) -> Option<u64>
    ensures { result ≡ place_named names.now word.now }
{
    for name in names {
        if is_word(name.word.as_bytes(), word) {
            return Some(name.place);
        }
    }
    None
}

// Gives a name to a place: a name that is there keeps its turn, and a new one is the last. Fails, and changes nothing, if an
// allocation fails.
fn set_name(names: &mut Vec<PlaceName>, word: Name, place: u64) -> Result<(), AllocError>
    ensures named { OnOk result (names.new.items ≡ with_place word place names.old.items) }
    ensures unchanged { OnErr result (names.new.items ≡ names.old.items) }
{
    match position_in(names.as_slice(), word.as_bytes()) {
        Some(index) => {
            names[index].place = place;
            Ok(())
        }
        None => {
            names.push(PlaceName { word, place })?;
            Ok(())
        }
    }
}

// Returns the turn of a name.
fn position_in(names: &[PlaceName], word: &[u8]) -> Option<usize>
    ensures value { result ≡ position (λ n. bytes_eq n.word word.now) names.now }
    ensures within { IfSome result (λ n. n < length names.now) }
{
    names
        .iter()
        .position(|name| is_word(name.word.as_bytes(), word))
}

/// Tells whether a word may be a name: 1 to 64 letters, digits, `_`, `-` and `.`, the first a letter, so it is no number.
#[tactic(auto, unfolding(crate::specs::Bookmarks::is_place_name))]
pub fn is_place_name(word: &[u8]) -> bool
    ensures { result ≡ is_place_name word.now }
{
    let Some(first) = word.first() else {
        return false;
    };
    first.is_ascii_alphabetic() && word.len() <= LONGEST_NAME && are_place_bytes(word)
}

// Tells whether all bytes may stand in a name.
fn are_place_bytes(word: &[u8]) -> bool
    ensures { result ≡ list_all is_place_byte word.now }
{
    word.iter().all(|byte| is_place_byte(*byte))
}

// Tells whether a byte may stand in a name.
fn is_place_byte(byte: u8) -> bool
    ensures { result ≡ is_place_byte byte }
{
    byte.is_ascii_alphanumeric() || matches!(byte, b'_' | b'-' | b'.')
}
