//! The line of an event.
ghost use Rattle.std.specs.Prelude.{◌++◌, ◌∷◌, ◌<◌, [], codes, decimal, map};
ghost use Rattle.heap_class.specs.Kinds.{kind_word};
ghost use Rattle.session_lines.specs.EventLines.{Appends, and_words, event_text, field_word, super_word};

use heap_class::{ClassNo, Field, Kind};
use heap_step::Event;
use std::alloc::AllocError;

/// Appends the line that asks for an event, and an LF. Fails if an allocation fails; then the text may have a part of the line.
pub fn push_event(text: &mut Vec<u8>, event: &Event) -> Result<(), AllocError>
    ensures { Appends (event_text event.now ++ 10 ∷ []) text.old.items text.new.items result }
{
    push_text(text, event)?;
    push_words(text, b"\n")
}

// Appends the text of an event. Fails if an allocation fails.
fn push_text(text: &mut Vec<u8>, event: &Event) -> Result<(), AllocError>
    ensures { Appends (event_text event.now) text.old.items text.new.items result }
{
    match event {
        Event::Class { name, sup, fields } => {
            push_class(text, name.as_bytes(), *sup, fields.as_slice())
        }
        Event::ArrayClass { name } => push_array_class(text, name.as_bytes()),
        Event::New { m, r, class } => push_line(text, b"new", &[*m, *r, *class]),
        Event::NewArray { m, r, class, len } => {
            push_four(text, b"newarray", &[*m, *r, *class, *len])
        }
        Event::NewPrim { m, r, kind, len } => push_new_prim(text, *m, *r, *kind, *len),
        Event::Load { m, to, from, slot } => push_four(text, b"load", &[*m, *to, *from, *slot]),
        Event::Store {
            m,
            target,
            slot,
            source,
        } => { push_four(text, b"store", &[*m, *target, *slot, *source]) }
        Event::Put {
            m,
            target,
            slot,
            value,
        } => { push_four(text, b"put", &[*m, *target, *slot, *value]) }
        Event::Move {
            m,
            to,
            from_m,
            from,
        } => { push_four(text, b"move", &[*m, *to, *from_m, *from]) }
        Event::Clear { m, r } => push_line(text, b"clear", &[*m, *r]),
        Event::Snap => push_words(text, b"snap"),
        Event::Mark => push_words(text, b"mark"),
        Event::Drain => push_words(text, b"drain"),
        Event::Finish => push_words(text, b"finish"),
        Event::Sweep { region } => push_line(text, b"sweep", &[*region]),
    }
}

// Appends the line of an instance class. Fails if an allocation fails.
fn push_class(
    text: &mut Vec<u8>,
    name: &[u8],
    sup: Option<ClassNo>,
    fields: &[Field],
) -> Result<(), AllocError>
    ensures { Appends
        (codes "class" ++ and_words (name.now ∷ super_word sup ∷ map field_word fields.now))
        text.old.items text.new.items result }
{
    push_words(text, b"class ")?;
    push_words(text, name)?;
    push_super(text, sup)?;
    push_fields(text, fields)
}

// Appends bytes. Fails if an allocation fails.
fn push_words(text: &mut Vec<u8>, words: &[u8]) -> Result<(), AllocError>
    ensures { Appends words.now text.old.items text.new.items result }
{
    text.extend_from_slice(words)?;
    Ok(())
}

// Appends a space and a super. Fails if an allocation fails.
fn push_super(text: &mut Vec<u8>, sup: Option<ClassNo>) -> Result<(), AllocError>
    ensures { Appends (32 ∷ super_word sup) text.old.items text.new.items result }
{
    match sup {
        Some(class) => push_number(text, class),
        None => push_words(text, b" -"),
    }
}

// Appends a space and a number. Fails if an allocation fails.
#[tactic(auto, using(crate::proofs::Digits::digit_is_spaced))]
fn push_number(text: &mut Vec<u8>, n: u64) -> Result<(), AllocError>
    ensures { Appends (32 ∷ decimal n) text.old.items text.new.items result }
{
    if n < 10 {
        return push_words(text, &[b' ', b'0' + n as u8]);
    }
    push_words(text, b" ")?;
    push_words(text, itoa::Buffer::new().format(n).as_bytes())
}

// Appends fields, with a space before each. Fails if an allocation fails.
fn push_fields(text: &mut Vec<u8>, fields: &[Field]) -> Result<(), AllocError>
    ensures { Appends (and_words (map field_word fields.now)) text.old.items text.new.items result }
{
    for field in fields {
        push_field(text, field)?;
    }
    Ok(())
}

// Appends a space and a field. Fails if an allocation fails.
fn push_field(text: &mut Vec<u8>, field: &Field) -> Result<(), AllocError>
    ensures { Appends (32 ∷ field_word field.now) text.old.items text.new.items result }
{
    push_words(text, b" ")?;
    push_words(text, field.name.as_bytes())?;
    push_words(text, b":")?;
    push_words(text, field.kind.word().as_bytes())
}

// Appends the line of an array class. Fails if an allocation fails.
fn push_array_class(text: &mut Vec<u8>, name: &[u8]) -> Result<(), AllocError>
    ensures { Appends (codes "array" ++ and_words (name.now ∷ [])) text.old.items
        text.new.items result }
{
    push_words(text, b"array ")?;
    push_words(text, name)
}

// Appends a verb, and numbers with a space before each. Fails if an allocation fails.
fn push_line(text: &mut Vec<u8>, verb: &[u8], numbers: &[u64]) -> Result<(), AllocError>
    ensures { Appends (verb.now ++ and_words (map decimal numbers.now))
        text.old.items text.new.items
        result }
{
    push_words(text, verb)?;
    push_numbers(text, numbers)
}

// Appends numbers, with a space before each. Fails if an allocation fails.
fn push_numbers(text: &mut Vec<u8>, numbers: &[u64]) -> Result<(), AllocError>
    ensures { Appends (and_words (map decimal numbers.now)) text.old.items text.new.items result }
{
    for n in numbers {
        push_number(text, *n)?;
    }
    Ok(())
}

// Appends a verb, and four numbers with a space before each. Fails if an allocation fails.
fn push_four(text: &mut Vec<u8>, verb: &[u8], numbers: &[u64; 4]) -> Result<(), AllocError>
    ensures { Appends (verb.now ++ and_words (map decimal numbers.now))
        text.old.items text.new.items result }
{
    let [a, b, c, d] = *numbers;
    if a < 10 && b < 10 && c < 10 {
        push_words(text, verb)?;
        push_digits(text, a, b, c)?;
        return push_number(text, d);
    }
    push_line(text, verb, numbers)
}

// Appends three numbers of a digit, with a space before each. Fails if an allocation fails.
#[tactic(auto, using(crate::proofs::Digits::digits_are_spaced))]
fn push_digits(text: &mut Vec<u8>, a: u64, b: u64, c: u64) -> Result<(), AllocError>
    requires { (a < 10) × (b < 10) × (c < 10) }
    ensures { Appends (and_words (decimal a ∷ decimal b ∷ decimal c ∷ []))
        text.old.items text.new.items result }
{
    let (a, b, c) = (b'0' + a as u8, b'0' + b as u8, b'0' + c as u8);
    push_words(text, &[b' ', a, b' ', b, b' ', c])
}

// Appends the line of a new array of values. Fails if an allocation fails.
fn push_new_prim(text: &mut Vec<u8>, m: u64, r: u64, kind: Kind, len: u64) -> Result<(), AllocError>
    ensures { Appends
        (codes "newprim" ++ and_words (decimal m ∷ decimal r ∷ kind_word kind ∷ decimal len ∷ []))
        text.old.items text.new.items result }
{
    push_line(text, b"newprim", &[m, r])?;
    push_kind(text, kind)?;
    push_number(text, len)
}

// Appends a space and a kind. Fails if an allocation fails.
fn push_kind(text: &mut Vec<u8>, kind: Kind) -> Result<(), AllocError>
    ensures { Appends (32 ∷ kind_word kind) text.old.items text.new.items result }
{
    push_words(text, b" ")?;
    push_words(text, kind.word().as_bytes())
}
