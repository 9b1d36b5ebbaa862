//! Names and fields of a class in a record of a fixed size.
ghost use Rattle.std.specs.Prelude.{◌≡◌, ◌↔◌, ◌<◌, ◌≤◌, ◌++◌, true, false, length, map, take, drop, IsTrue, MatchBool, MatchOption};
ghost use Rattle.std.specs.List.{flat_map};
ghost use Rattle.heap_class.specs.declared.Field.{Field};
ghost use Rattle.heap_history.specs.Kept.{all_letters, field_room, is_short, letter_room};
ghost use Rattle.heap_history.specs.Definitions.{fields_in, fields_of, shape_of, name_of};

use crate::same::is_same_kind;
use arrayvec::ArrayVec;
use heap_class::{Field, Kind, Name};
use std::cmp::min;

/// How many letters the names of a definition that is kept have together, at most.
pub const LETTER_ROOM: usize = 96;

/// How many fields a definition that is kept has, at most.
pub const FIELD_ROOM: usize = 8;

/// The kind of a field, and how many letters its name has.
#[derive(Clone, Copy)]
pub struct FieldShape {
    pub kind: Kind,
    pub length: u8,
}

/// The name and the fields of a class, if they are short and few.
#[derive(Clone, Copy)]
pub struct Definition {
    /// How many letters the name of the class has.
    pub length: u8,
    /// How many fields there are.
    pub field_count: u8,
    /// The shapes of the fields, in order; the others may be any.
    pub shapes: [FieldShape; FIELD_ROOM],
    /// The letters of the class's name and then of each field's; the others may be any.
    pub letters: [u8; LETTER_ROOM],
}

// The letters of several names, one after another.
type Letters = ArrayVec<u8, LETTER_ROOM>;

// Returns the letters of a name and then of the fields' names, or None if they are too many.
fn letters_of(name: &Name, fields: &[Field]) -> Option<Letters>
    ensures { MatchOption result (letter_room < length (all_letters name.now fields.now))
        (λ l. l.items ≡ all_letters name.now fields.now) }
{
    let mut letters = ArrayVec::new();
    if letters.try_extend_from_slice(name.as_bytes()).is_err() {
        return None;
    }
    if !add_names(&mut letters, fields) {
        return None;
    }
    Some(letters)
}

// Appends the names of fields. Returns whether there was room for all of them.
fn add_names(letters: &mut Letters, fields: &[Field]) -> bool
    ensures { MatchBool result
        (letters.new.items ≡ letters.old.items ++ flat_map (λ f. f.name) fields.now)
        (letter_room < length (letters.old.items ++ flat_map (λ f. f.name) fields.now)) }
{
    for field in fields {
        if letters
            .try_extend_from_slice(field.name.as_bytes())
            .is_err()
        {
            return false;
        }
    }
    true
}

// Returns letters at the beginning of a room of a fixed size.
fn placed_letters(letters: &[u8]) -> [u8; LETTER_ROOM]
    requires { length letters.now ≤ letter_room }
    ensures { take (length letters.now) result ≡ letters.now }
{
    let mut room = [0; LETTER_ROOM];
    room[..letters.len()].copy_from_slice(letters);
    room
}

// Returns the shapes of the fields at the beginning of a room of a fixed size.
fn placed_shapes(fields: &[Field]) -> [FieldShape; FIELD_ROOM]
    requires few { length fields.now ≤ field_room }
    requires short { length (flat_map (λ f. f.name) fields.now) ≤ letter_room }
    ensures { take (length fields.now) result ≡ map shape_of fields.now }
{
    let shape = FieldShape {
        kind: Kind::Object,
        length: 0,
    };
    let mut shapes = [shape; FIELD_ROOM];
    for i in 0..fields.len() {
        shapes[i] = shape_of(&fields[i]);
    }
    shapes
}

// Returns the shape of a field.
fn shape_of(field: &Field) -> FieldShape
    requires { length field.now.name ≤ letter_room }
    ensures { result ≡ shape_of field.now }
{
    FieldShape {
        kind: field.kind,
        length: field.name.as_bytes().len() as u8,
    }
}

// Returns whether these are the fields that the shapes and the letters tell.
fn are_fields(shapes: &[FieldShape], letters: &[u8], fields: &[Field]) -> bool
    ensures { IsTrue result ↔ (fields_in shapes.now letters.now ≡ fields.now) }
{
    if shapes.len() != fields.len() {
        return false;
    }
    let mut left = letters;
    for i in 0..shapes.len() {
        let (name, after) = split(left, shapes[i].length);
        if !is_field(name, shapes[i].kind, &fields[i]) {
            return false;
        }
        left = after;
    }
    true
}

// Returns the first `count` letters, and those after them.
fn split(letters: &[u8], count: u8) -> (&[u8], &[u8])
    ensures first { result.0.now ≡ take count letters.now }
    ensures after { result.1.now ≡ drop count letters.now }
{
    letters.split_at(min(count as usize, letters.len()))
}

// Returns whether this is the field of the name and the kind.
fn is_field(letters: &[u8], kind: Kind, field: &Field) -> bool
    ensures { IsTrue result ↔ (record { name = letters.now; kind = kind } ≡ field.now) }
{
    is_same_kind(kind, field.kind) && is_name(letters, &field.name)
}

// Returns whether these are the letters of the name.
fn is_name(letters: &[u8], name: &Name) -> bool
    ensures { IsTrue result ↔ (letters.now ≡ name.now) }
{
    letters == name.as_bytes()
}

impl Definition {
    /// Returns the name and the fields in a record of a fixed size, or None if they are too long or too many. Takes no memory.
    pub fn of(name: &Name, fields: &[Field]) -> Option<Definition>
        ensures { MatchOption result (is_short name.now fields.now ≡ false)
            (λ d. (is_short name.now fields.now ≡ true) × (name_of d ≡ name.now)
            × (fields_of d ≡ fields.now)) }
    {
        if fields.len() > FIELD_ROOM {
            return None;
        }
        let letters = letters_of(name, fields)?;
        Some(Definition {
            length: name.as_bytes().len() as u8,
            field_count: fields.len() as u8,
            shapes: placed_shapes(fields),
            letters: placed_letters(letters.as_slice()),
        })
    }

    // Returns the shapes of the fields.
    fn field_shapes(&self) -> &[FieldShape]
        ensures { result.now ≡ take self.now.field_count self.now.shapes }
    {
        let count = min(self.field_count as usize, FIELD_ROOM);
        &self.shapes[..count]
    }

    /// Returns whether this is its name. Takes no memory.
    pub fn has_name(&self, name: &Name) -> bool
        ensures { IsTrue result ↔ (name_of self.now ≡ name.now) }
    {
        let (own, _) = split(&self.letters, self.length);
        is_name(own, name)
    }

    /// Returns whether these are its name and its fields. Takes no memory.
    pub(crate) fn is_of(&self, name: &Name, fields: &[Field]) -> bool
        ensures { IsTrue result ↔
            ((name_of self.now ≡ name.now) × (fields_of self.now ≡ fields.now)) }
    {
        let (own, rest) = split(&self.letters, self.length);
        is_name(own, name) && are_fields(self.field_shapes(), rest, fields)
    }
}
