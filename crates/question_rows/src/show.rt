//! The answer of `show`.
ghost use Rattle.std.specs.Prelude.{◌≡◌, ◌<◌, ◌≤◌, Some, drop, length, min};
ghost use Rattle.heap_class.specs.Classes.{fields_of};
ghost use Rattle.question_words.specs.Appends.{Appends, ReturnsText};
ghost use Rattle.question_words.specs.Moments.{IsToldOf, told_text};
ghost use Rattle.question_words.specs.Names.{IsClassThere, fields_up};
ghost use Rattle.question_rows.specs.Objects.{IsShowText, and_value, element_row, element_rows, end_in, field_row, field_rows, first_in, is_marked, rows_joined, mark_text, object_line, object_text, rows_in, shows_mark, slot_rows, value_text};

use heap_class::{ClassNo, FirstClasses, Kind, ObjKind, Refusal};
use heap_questions::object_with;
use heap_trail::Machine;
use hprof_text::{ShownObject, View};
use question_words::{
    At, SlotRange, Unanswered, field_name, place_of_object, push_class_name, push_number,
    push_reference, push_row, push_words,
};
use std::alloc::{AllocError, Global};

/// Returns the answer of `show` about a view. Fails with NoObject if the id names no object, and with NoMemory if an allocation
/// fails. Reads each object before it at most once, and of the object only the slots that are listed.
pub fn show_answer<V: View>(
    alloc: Global,
    view: &V,
    id: u64,
    slots: SlotRange,
    marked: bool,
) -> Result<Vec<u8>, Unanswered>
    ensures { IsToldOf (IsShowText id slots marked) (V.image view.now) (told_text result) }
{
    let classes = view.classes();
    match object_with(view, id) {
        Some(object) => Ok(object_lines(alloc, &classes, &object, slots, marked)?),
        None => Err(Unanswered::NoObject),
    }
}

// Returns the lines of an object, with the rows of these slots. Its class must be there. Fails with NoMemory.
fn object_lines(
    alloc: Global,
    classes: &FirstClasses<'_>,
    object: &ShownObject<'_>,
    slots: SlotRange,
    marked: bool,
) -> Result<Vec<u8>, Refusal>
    requires { IsClassThere classes.now object.now.kind }
    ensures { ReturnsText (λ text. text ≡ object_text classes.now object.now slots marked) result }
{
    let mut text = Vec::new(alloc);
    push_slots(&mut text, classes, object, slots)?;
    push_object(&mut text, classes, object, marked)?;
    Ok(text)
}

// Appends the rows of these slots of an object. Its class must be there. Fails if an allocation fails.
fn push_slots(
    text: &mut Vec<u8>,
    classes: &FirstClasses<'_>,
    object: &ShownObject<'_>,
    slots: SlotRange,
) -> Result<(), AllocError>
    requires { IsClassThere classes.now object.now.kind }
    ensures { Appends
        (rows_joined (rows_in slots (slot_rows classes.now object.now.kind object.now.words)))
        text.old.items text.new.items result }
{
    let words = object.words();
    let (first, end) = bounds_of(slots, words.len());
    push_rows(text, classes, object.kind(), &words[..end], first)
}

// Returns the first of these slots of an object with `len` slots, and their end.
fn bounds_of(slots: SlotRange, len: usize) -> (usize, usize)
    ensures first { result.0 ≡ first_in slots len }
    ensures end { result.1 ≡ end_in slots len }
    ensures within { result.1 ≤ len }
{
    match slots {
        SlotRange::AllSlots => (0, len),
        SlotRange::FromSlot { first, count } => {
            let from = first.min(len as u64) as usize;
            (from, from + count.min((len - from) as u64) as usize)
        }
    }
}

// Appends the rows of the slots from this one on, of an object of this kind with these words. Its class must be there. Fails if an
// allocation fails.
#[tactic(auto, unfolding(crate::specs::Objects::slot_rows))]
fn push_rows(
    text: &mut Vec<u8>,
    classes: &FirstClasses<'_>,
    kind: ObjKind,
    words: &[u64],
    from: usize,
) -> Result<(), AllocError>
    requires { IsClassThere classes.now kind }
    ensures { Appends (rows_joined (drop from (slot_rows classes.now kind words.now)))
        text.old.items text.new.items result }
{
    match kind {
        ObjKind::Instance(class) => push_fields(text, classes, class as u64, words, from),
        ObjKind::Array(_) => push_elements(text, Kind::Object, words, from),
        ObjKind::Prim(kind) => push_elements(text, kind, words, from),
    }
}

// Appends the rows of an instance's slots from this one on: a class's own fields, then its super's, and so on. Fails if an
// allocation fails.
fn push_fields(
    text: &mut Vec<u8>,
    classes: &FirstClasses<'_>,
    class: ClassNo,
    words: &[u64],
    from: usize,
) -> Result<(), AllocError>
    requires { class < length classes.now }
    ensures { Appends (rows_joined (drop from
        (field_rows 0 (fields_up classes.now (length classes.now) (Some class)) words.now)))
        text.old.items text.new.items result }
{
    let mut here = Some(class);
    let mut first = 0;
    for depth in 0..classes.len() {
        let Some(above) = here else {
            return Ok(());
        };
        let skipped = from.saturating_sub(first);
        push_own(text, classes, above, words, first, skipped)?;
        first += own_count(classes, above, (words.len() - first) as u64) as usize;
        here = classes.sup(above);
    }
    Ok(())
}

// Appends the rows of the slots from `first` on that are own fields of a class, without the first `skipped` of these fields. Fails
// if an allocation fails.
fn push_own(
    text: &mut Vec<u8>,
    classes: &FirstClasses<'_>,
    class: ClassNo,
    words: &[u64],
    first: usize,
    skipped: usize,
) -> Result<(), AllocError>
    requires there { class < length classes.now }
    requires within { first ≤ length words.now }
    ensures { Appends (rows_joined (drop skipped
        (field_rows first (fields_of classes.now class) (drop first words.now))))
        text.old.items text.new.items result }
{
    let count = own_count(classes, class, (words.len() - first) as u64);
    for field in skipped as u64..count {
        let name = field_name(classes, class, field);
        let kind = classes.field_kind(class, field);
        let slot = first + field as usize;
        push_field(text, slot as u64, name, kind, words[slot])?;
    }
    Ok(())
}

// Returns how many of `slots` slots are own fields of a class.
fn own_count(classes: &FirstClasses<'_>, class: ClassNo, slots: u64) -> u64
    requires { class < length classes.now }
    ensures { result ≡ min (length (fields_of classes.now class)) slots }
{
    classes.field_count(class).min(slots)
}

// Appends the row of a slot that is a field with this name. Fails if an allocation fails.
#[tactic(auto, unfolding(crate::specs::Objects::field_row))]
fn push_field(
    text: &mut Vec<u8>,
    slot: u64,
    name: &[u8],
    kind: Kind,
    word: u64,
) -> Result<(), AllocError>
    ensures { Appends (field_row slot name.now kind word) text.old.items text.new.items result }
{
    push_row(text, slot)?;
    push_words(text, b" ")?;
    push_words(text, name)?;
    push_end(text, kind, word)
}

// Appends the end of a slot's row: its kind and its word. Fails if an allocation fails.
#[tactic(auto, unfolding(crate::specs::Objects::value_text))]
fn push_end(text: &mut Vec<u8>, kind: Kind, word: u64) -> Result<(), AllocError>
    ensures { Appends (value_text kind word) text.old.items text.new.items result }
{
    push_words(text, b" ")?;
    push_words(text, kind.word().as_bytes())?;
    push_value(text, kind, word)?;
    push_words(text, b"\n")
}

// Appends the rows of the elements from this one on. Fails if an allocation fails.
fn push_elements(
    text: &mut Vec<u8>,
    kind: Kind,
    words: &[u64],
    from: usize,
) -> Result<(), AllocError>
    ensures { Appends (rows_joined (drop from (element_rows kind 0 words.now)))
        text.old.items text.new.items result }
{
    for index in from..words.len() {
        push_element(text, kind, index as u64, words[index])?;
    }
    Ok(())
}

// Appends the row of an element. Fails if an allocation fails.
#[tactic(auto, unfolding(crate::specs::Objects::element_row))]
fn push_element(text: &mut Vec<u8>, kind: Kind, index: u64, word: u64) -> Result<(), AllocError>
    ensures { Appends (element_row kind index word) text.old.items text.new.items result }
{
    push_row(text, index)?;
    push_number(text, index)?;
    push_end(text, kind, word)
}

// Appends a word of a kind: an id or `null`, or a number. Fails if an allocation fails.
pub(crate) fn push_value(text: &mut Vec<u8>, kind: Kind, word: u64) -> Result<(), AllocError>
    ensures { Appends (and_value kind word) text.old.items text.new.items result }
{
    if kind.is_reference() {
        push_reference(text, word)
    } else {
        push_number(text, word)
    }
}

// Appends the last line: the class, the number of the slots and a mark. The class must be there. Fails if an allocation fails.
#[tactic(auto, unfolding(crate::specs::Objects::object_line))]
pub(crate) fn push_object(
    text: &mut Vec<u8>,
    classes: &FirstClasses<'_>,
    object: &ShownObject<'_>,
    marked: bool,
) -> Result<(), AllocError>
    requires { IsClassThere classes.now object.now.kind }
    ensures { Appends
        (object_line classes.now object.now.kind (length object.now.words) marked)
        text.old.items text.new.items result }
{
    push_words(text, b"ok object ")?;
    push_class_name(text, classes, object.kind())?;
    push_number(text, object.words().len() as u64)?;
    push_mark(text, marked)?;
    push_words(text, b"\n")
}

// Appends what the last line says of an object that is marked. Fails if an allocation fails.
fn push_mark(text: &mut Vec<u8>, marked: bool) -> Result<(), AllocError>
    ensures { Appends (mark_text marked) text.old.items text.new.items result }
{
    if marked {
        push_words(text, b" marked")
    } else {
        Ok(())
    }
}

/// Tells whether an answer about a moment says that the object is marked: only if the moment is the current state.
pub fn shows_mark(machine: &Machine, at: At, id: u64) -> bool
    ensures { result ≡ shows_mark at machine.now id }
{
    match at {
        At::Current => is_marked(machine, id),
        _ => false,
    }
}

// Tells whether the object with this id is there in the current state and marked.
fn is_marked(machine: &Machine, id: u64) -> bool
    ensures { result ≡ is_marked machine.now.trail.current id }
{
    match place_of_object(machine, id) {
        Some(at) => machine.world().regions().bits(at).1,
        None => false,
    }
}
