//! The names of what a count's rows count, of objects' kinds, and of fields.
ghost use Rattle.std.specs.Prelude.{◌≡◌, ◌++◌, ◌==◌, ◌<◌, ◌+◌, length, find, OnOk, Some, IfSome, slice_get};
ghost use Rattle.heap_questions.specs.Histogram.{class_rows, kind_row};
ghost use Rattle.session_grammar.specs.Grammar.{all_kinds};
ghost use Rattle.question_words.specs.Appends.{Appends};
ghost use Rattle.question_words.specs.Names.{IsClassThere, array_name, class_name, kind_array_name, row_name};
ghost use Rattle.heap_class.specs.Classes.{fields_of};

use crate::rows::push_words;
use heap_class::{ClassNo, FirstClasses, KINDS, Kind, ObjKind};
use heap_questions::{CLASS_ROWS, kind_row};
use std::alloc::AllocError;

/// Appends the name of what a row counts. Fails if an allocation fails.
#[tactic(auto, unfolding(crate::specs::Names::row_name))]
pub fn push_row_name(
    text: &mut Vec<u8>,
    classes: &FirstClasses<'_>,
    index: usize,
) -> Result<(), AllocError>
    requires { index < class_rows + length classes.now }
    ensures { OnOk result (text.new.items ≡ text.old.items ++ row_name classes.now index) }
{
    if index < CLASS_ROWS {
        push_array_name(text, index)
    } else {
        push_words(text, classes.name((index - CLASS_ROWS) as u64))
    }
}

// Appends the name of the arrays of values that a row counts. Fails if an allocation fails.
#[tactic(auto, unfolding(crate::specs::Names::array_name))]
fn push_array_name(text: &mut Vec<u8>, index: usize) -> Result<(), AllocError>
    ensures { Appends (array_name index) text.old.items text.new.items result }
{
    match kind_of_row(index) {
        Some(kind) => push_kind_name(text, kind),
        None => Ok(()),
    }
}

// Returns the kind of the arrays that a row counts.
fn kind_of_row(index: usize) -> Option<Kind>
    ensures { result ≡ find (λ k. kind_row k == index) all_kinds }
{
    for kind in KINDS {
        if kind_row(kind) == index {
            return Some(kind);
        }
    }
    None
}

// Appends the name of the arrays of values of a kind. Fails if an allocation fails.
fn push_kind_name(text: &mut Vec<u8>, kind: Kind) -> Result<(), AllocError>
    ensures { Appends (kind_array_name kind) text.old.items text.new.items result }
{
    push_words(text, kind.word().as_bytes())?;
    push_words(text, b"[]")
}

/// Appends the name of the class of an object of this kind, which must be there. Fails if an allocation fails.
#[tactic(auto, unfolding(crate::specs::Names::class_name))]
pub fn push_class_name(
    text: &mut Vec<u8>,
    classes: &FirstClasses<'_>,
    kind: ObjKind,
) -> Result<(), AllocError>
    requires { IsClassThere classes.now kind }
    ensures { Appends (class_name classes.now kind) text.old.items text.new.items result }
{
    match kind {
        ObjKind::Instance(class) | ObjKind::Array(class) => {
            push_words(text, classes.name(class as u64))
        }
        ObjKind::Prim(kind) => push_kind_name(text, kind),
    }
}

/// Returns the name of an own field of a class. The class must have the field.
pub fn field_name<'a>(classes: &'a FirstClasses<'_>, class: ClassNo, field: u64) -> &'a [u8]
    requires { field < length (fields_of classes.now class) }
    ensures { IfSome (slice_get (fields_of classes.now class) field)
        (λ f. result.now ≡ f.name) }
{
    let id = classes.field_name_id(class, field);
    classes.name_at(id - 1)
}
