//! Names and fields, as a line gives them.
ghost use Rattle.std.specs.Prelude.{◌≡◌, ◌==◌, ◌+◌, ◌<◌, ◌≤◌, ◌||◌, not, Some, None, take, IfOk, IfSome, MatchBool, option_map, map, length};
ghost use Rattle.std.specs.Char.{is_ascii_graphic};
ghost use Rattle.std.specs.List.{position, position_or_len};
ghost use Rattle.session_grammar.specs.Grammar.{words_of_line, kind_of_word};
ghost use Rattle.session_grammar.specs.Reads.{first_word, with_size, name_at, plain_field, plain_fields, field_of_span, AreSpansWithin};
ghost use Rattle.session_grammar.specs.declared.TheConstants.{LINE_LIMIT};

use crate::spans::{FieldSpan, FieldSpans};
use crate::words::{SPACE, Words, word_size};
use heap_class::{Field, Fields, KINDS, Kind, Name};
use std::alloc::{AllocError, Global};

// The byte between the name and the kind of a field.
const COLON: u8 = b':';

/// The size of a field's name, the field's kind, and the size of the whole word.
#[derive(Clone, Copy)]
pub struct FieldSize {
    pub name: usize,
    pub kind: Kind,
    pub whole: usize,
}

/// Returns the kind that the text's first word names, and the size of that word. Returns None if it names none.
pub fn kind_at(text: &[u8]) -> Option<(Kind, usize)>
    ensures value { result ≡ with_size text.now (kind_of_word (first_word text.now)) }
    ensures within { IfSome result (λ r. r.1 ≤ length text.now) }
    ensures long { IfSome result (λ r. 3 ≤ r.1) }
{
    let size = word_size(text);
    let kind = kind_of(&text[..size])?;
    Some((kind, size))
}

// Returns the kind of this name.
#[tactic(auto, unfolding(crate::specs::Grammar::kind_of_word))]
fn kind_of(word: &[u8]) -> Option<Kind>
    ensures { result ≡ kind_of_word word.now }
{
    for kind in KINDS {
        if kind.word().as_bytes() == word {
            return Some(kind);
        }
    }
    None
}

/// Returns the size of the text's first word, or None if one of its bytes is bad.
pub fn name_at(text: &[u8]) -> Option<usize>
    ensures value { result ≡ name_at text.now }
    ensures within { IfSome result (λ n. n ≤ length text.now) }
{
    let size = name_end(text);
    if size < text.len() && text[size] != SPACE {
        return None;
    }
    Some(size)
}

// Returns the number of good bytes that the text begins with.
fn name_end(text: &[u8]) -> usize
    ensures value { result ≡ position_or_len (λ b. not (is_ascii_graphic b)) text.now }
    ensures within { result ≤ length text.now }
{
    first_bad(text).unwrap_or(text.len())
}

// Returns the place of the first byte that no word of a good line has.
fn first_bad(text: &[u8]) -> Option<usize>
    ensures { result ≡ position (λ b. not (is_ascii_graphic b)) text.now }
{
    text.iter().position(|b| !b.is_ascii_graphic())
}

/// Returns the sizes and the kind of the field NAME:KIND that the text begins with, or None if its first word is no field or
/// has a bad byte. The name ends at the first colon: no kind's word has one.
pub fn field_at(text: &[u8]) -> Option<FieldSize>
    ensures value { option_map
        (λ f. (record { name = take f.name text.now; kind = f.kind }, f.whole)) result
        ≡ with_size text.now (plain_field (first_word text.now)) }
    ensures within { IfSome result (λ f. f.whole ≤ length text.now) }
    ensures long { IfSome result (λ f. f.name + 4 ≤ f.whole) }
{
    let colon = colon_or_end(text)?;
    if text[colon] != COLON {
        return None;
    }
    let (kind, size) = kind_at(&text[colon + 1..])?;
    Some(FieldSize {
        name: colon,
        kind,
        whole: colon + 1 + size,
    })
}

// Returns the place of the first byte that no field's name has.
fn colon_or_end(text: &[u8]) -> Option<usize>
    ensures value { result ≡ position (λ b. b == 58 || not (is_ascii_graphic b)) text.now }
    ensures within { IfSome result (λ n. n < length text.now) }
{
    text.iter()
        .position(|b| *b == COLON || !b.is_ascii_graphic())
}

/// Reads all words that are left as fields, and notes their places in the text that isn't read yet. Returns false if one of
/// them is no field.
pub(crate) fn read_fields(mut words: Words, spans: &mut FieldSpans) -> bool
    requires { length words ≤ LINE_LIMIT }
    ensures { MatchBool result
        ((plain_fields (words_of_line words.entry)
        ≡ Some (map (field_of_span words.entry) spans.new)) × AreSpansWithin words.entry spans.new)
        (plain_fields (words_of_line words.entry) ≡ None) }
{
    spans.clear();
    let size = words.rest().len();
    while let Some(rest) = words.front() {
        let Some(field) = field_at(rest) else {
            return false;
        };
        spans.push(FieldSpan {
            start: (size - rest.len()) as u16,
            size: field.name as u16,
            kind: field.kind,
        });
        words.pass(field.whole);
    }
    true
}

/// Returns copies of the fields of this text. Fails if an allocation fails.
pub(crate) fn copied_all(
    alloc: Global,
    text: &[u8],
    spans: &[FieldSpan],
) -> Result<Fields, AllocError>
    requires { AreSpansWithin text.now spans.now }
    ensures { IfOk result (λ fs. fs ≡ map (field_of_span text.now) spans.now) }
{
    let mut copies = Vec::with_capacity(alloc, spans.len())?;
    for span in spans {
        copies.push(copy_field(alloc, text, span)?)?;
    }
    Ok(Fields::from_vec(copies))
}

// Returns a copy of a field of this text. Fails if the allocation fails.
fn copy_field(alloc: Global, text: &[u8], span: &FieldSpan) -> Result<Field, AllocError>
    requires { span.now.start + span.now.size ≤ length text.now }
    ensures { IfOk result (λ f. f ≡ field_of_span text.now span.now) }
{
    let (start, size) = (span.start as usize, span.size as usize);
    let name = &text[start..start + size];
    Ok(Field {
        name: Name::new(alloc, name)?,
        kind: span.kind,
    })
}
