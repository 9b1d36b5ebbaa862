//! Lines that define a class, and name its super.
ghost use Rattle.std.specs.Prelude.{◌≡◌, ◌<◌, ◌==◌, IfOk, IfSome, MatchResult, is_some, length, option_map};
ghost use Rattle.std.specs.List.{position};
ghost use Rattle.session_grammar.specs.Grammar.{is_plain, kind_of_word, words_of_line};
ghost use Rattle.session_grammar.specs.Reads.{IsNextWord, next_name, plain_field, plain_fields};
ghost use Rattle.question_grammar.specs.EventNames.{MayDefine, class_by_name, next_super};

use crate::event_name::class_at;
use heap_class::{ClassNo, Field, Fields, FirstClasses, KINDS, Kind, Name};
use heap_step::Event;
use session_grammar::words::{Words, is_word};
use std::alloc::{AllocError, Global};

// Reads the words of `class NAME SUPER FIELD ..`, of which SUPER is a name. Returns None, and allocates nothing, if they don't fit.
// Fails if an allocation fails.
pub(crate) fn class_by_name(
    alloc: Global,
    classes: &FirstClasses<'_>,
    mut words: Words,
) -> Result<Option<Event>, AllocError>
    ensures { MatchResult result (λ e. e ≡ class_by_name classes.now (words_of_line words.entry))
        (λ _. MayDefine (class_by_name classes.now (words_of_line words.entry))) }
{
    let Some(name) = next_name(&mut words) else {
        return Ok(None);
    };
    let Some(sup) = next_super(classes, &mut words) else {
        return Ok(None);
    };
    if !are_fields(Words::new(words.rest())) {
        return Ok(None);
    }
    let name = Name::new(alloc, name)?;
    let Some(fields) = fields_in(alloc, words)? else {
        return Ok(None);
    };
    Ok(Some(Event::Class {
        name,
        sup: Some(sup),
        fields,
    }))
}

// Reads the next word as a name. Returns None if one of its bytes is bad.
fn next_name<'a>(words: &mut Words<'a>) -> Option<&'a [u8]>
    ensures { IsNextWord (next_name (words_of_line words.old)) (words_of_line words.new)
        (option_map (λ w. w.now) result) }
{
    let word = words.next_word()?;
    if !is_plain(word) {
        return None;
    }
    Some(word)
}

// Tells whether no byte is bad.
fn is_plain(word: &[u8]) -> bool
    ensures { result ≡ is_plain word.now }
{
    word.iter().all(|byte| 0x20 <= *byte && *byte <= 0x7E)
}

// Reads the next word as the name of a super. Returns None if it is none.
fn next_super(classes: &FirstClasses<'_>, words: &mut Words) -> Option<ClassNo>
    ensures { IsNextWord (next_super classes.now (words_of_line words.old))
        (words_of_line words.new) result }
{
    let word = words.next_word()?;
    if is_word(word, b"-") {
        return None;
    }
    class_at(classes, word)
}

// Tells whether all words are fields.
fn are_fields(mut words: Words) -> bool
    ensures { result ≡ is_some (plain_fields (words_of_line words.entry)) }
{
    while let Some(word) = words.next_word() {
        if field_of(word).is_none() {
            return false;
        }
    }
    true
}

// Returns the name and the kind of the field NAME:KIND that a word is, or None if it is none or has a bad byte.
fn field_of(word: &[u8]) -> Option<(&[u8], Kind)>
    ensures { option_map (λ f. record { name = f.0.now; kind = f.1 }) result
        ≡ plain_field word.now }
{
    if !is_plain(word) {
        return None;
    }
    let colon = colon_in(word)?;
    let kind = kind_of(&word[colon + 1..])?;
    Some((&word[..colon], kind))
}

// Returns the place of the first colon.
fn colon_in(word: &[u8]) -> Option<usize>
    ensures value { result ≡ position (λ b. b == 58) word.now }
    ensures within { IfSome result (λ n. n < length word.now) }
{
    word.iter().position(|byte| *byte == b':')
}

// Returns the kind of this name.
#[tactic(auto, unfolding(session_grammar::specs::Grammar::kind_of_word))]
fn kind_of(word: &[u8]) -> Option<Kind>
    ensures { result ≡ kind_of_word word.now }
{
    for kind in KINDS {
        if kind.word().as_bytes() == word {
            return Some(kind);
        }
    }
    None
}

// Returns copies of the fields that the words are, or None if one of them is no field. Fails if an allocation fails.
fn fields_in(alloc: Global, mut words: Words) -> Result<Option<Fields>, AllocError>
    ensures { IfOk result (λ fields. fields ≡ plain_fields (words_of_line words.entry)) }
{
    let mut copies = Vec::new(alloc);
    while let Some(word) = words.next_word() {
        let Some((name, kind)) = field_of(word) else {
            return Ok(None);
        };
        let name = Name::new(alloc, name)?;
        copies.push(Field { name, kind })?;
    }
    Ok(Some(Fields::from_vec(copies)))
}
