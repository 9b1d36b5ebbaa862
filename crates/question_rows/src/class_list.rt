//! The answer of `classes`.
ghost use Rattle.std.specs.Prelude.{◌<◌, flat_map, length};
ghost use Rattle.std.specs.List.{range_with_len};
ghost use Rattle.heap_class.specs.Classes.{fields_of};
ghost use Rattle.question_words.specs.Appends.{Appends, ReturnsText};
ghost use Rattle.question_rows.specs.ClassLists.{IsClassesText, and_fields, class_text, field_words, super_words};

use heap_class::{ClassNo, FirstClasses, Kind, Refusal};
use hprof_text::View;
use question_words::{field_name, push_count, push_number, push_row, push_words};
use std::alloc::{AllocError, Global};

/// Returns the answer of `classes` about a view. Fails with NoMemory if an allocation fails.
pub fn classes_answer<V: View>(alloc: Global, view: &V) -> Result<Vec<u8>, Refusal>
    ensures { ReturnsText (IsClassesText (V.image view.now)) result }
{
    let classes = view.classes();
    let mut text = Vec::new(alloc);
    push_classes(&mut text, &classes)?;
    push_count(&mut text, classes.len())?;
    Ok(text)
}

// Appends the lines of all classes. Fails if an allocation fails.
fn push_classes(text: &mut Vec<u8>, classes: &FirstClasses<'_>) -> Result<(), AllocError>
    ensures { Appends (flat_map (class_text classes.now) (range_with_len 0 (length classes.now)))
        text.old.items text.new.items result }
{
    for class in 0..classes.len() {
        push_class(text, classes, class)?;
    }
    Ok(())
}

// Appends the line of a class, which must be there. Fails if an allocation fails.
#[tactic(auto, unfolding(crate::specs::ClassLists::class_text))]
fn push_class(
    text: &mut Vec<u8>,
    classes: &FirstClasses<'_>,
    class: ClassNo,
) -> Result<(), AllocError>
    requires { class < length classes.now }
    ensures { Appends (class_text classes.now class) text.old.items text.new.items result }
{
    push_row(text, class)?;
    push_words(text, b" ")?;
    push_words(text, classes.name(class))?;
    push_super(text, classes, class)?;
    push_own_fields(text, classes, class)?;
    push_words(text, b"\n")
}

// Appends what stands for the super of a class, which must be there. Fails if an allocation fails.
#[tactic(auto, unfolding(crate::specs::ClassLists::super_words))]
fn push_super(
    text: &mut Vec<u8>,
    classes: &FirstClasses<'_>,
    class: ClassNo,
) -> Result<(), AllocError>
    requires { class < length classes.now }
    ensures { Appends (super_words classes.now class) text.old.items text.new.items result }
{
    if classes.is_array(class) {
        return push_words(text, b" array");
    }
    match classes.sup(class) {
        Some(sup) => push_number(text, sup),
        None => push_words(text, b" -"),
    }
}

// Appends the own fields of a class, which must be there. Fails if an allocation fails.
fn push_own_fields(
    text: &mut Vec<u8>,
    classes: &FirstClasses<'_>,
    class: ClassNo,
) -> Result<(), AllocError>
    requires { class < length classes.now }
    ensures { Appends (and_fields (fields_of classes.now class))
        text.old.items text.new.items result }
{
    let count = classes.field_count(class);
    for field in 0..count {
        let name = field_name(classes, class, field);
        let kind = classes.field_kind(class, field);
        push_field(text, name, kind)?;
    }
    Ok(())
}

// Appends a space and a field. Fails if an allocation fails.
#[tactic(auto, unfolding(crate::specs::ClassLists::field_words))]
fn push_field(text: &mut Vec<u8>, name: &[u8], kind: Kind) -> Result<(), AllocError>
    ensures { Appends (field_words name.now kind) text.old.items text.new.items result }
{
    push_words(text, b" ")?;
    push_words(text, name)?;
    push_words(text, b":")?;
    push_words(text, kind.word().as_bytes())
}
