//! The answer of `values`.
ghost use Rattle.std.specs.Prelude.{flat_map};
ghost use Rattle.question_words.specs.Appends.{Appends, ReturnsText};
ghost use Rattle.question_words.specs.Moments.{IsToldOf, told_text};
ghost use Rattle.question_rows.specs.ValueLists.{AreValuesTold, IsValuesText, value_line};

use crate::slot_changes::push_word;
use heap_class::{ClassNo, Refusal};
use heap_questions::{SlotValue, slot_values};
use hprof_text::View;
use question_words::{Unanswered, class_slot, push_count, push_number, push_words};
use std::alloc::{AllocError, Global};

/// Returns the answer of `values` about a view. Fails with NoClass if the class isn't there, with BadSlot if its objects have no
/// such slot, and with NoMemory if an allocation fails. Reads each object once.
pub fn values_answer<V: View>(
    alloc: Global,
    view: &V,
    class: ClassNo,
    slot: u64,
) -> Result<Vec<u8>, Unanswered>
    ensures { IsToldOf (IsValuesText class slot) (V.image view.now) (told_text result) }
{
    let classes = view.classes();
    match class_slot(&classes, class, slot) {
        Ok(refers) => Ok(values_text(alloc, view, class, slot, refers)?),
        Err(refusal) => Err(Unanswered::Refused(refusal)),
    }
}

// Returns the lines of the values that a slot has in the objects of a class, and their number. Fails with NoMemory.
fn values_text<V: View>(
    alloc: Global,
    view: &V,
    class: ClassNo,
    slot: u64,
    refers: bool,
) -> Result<Vec<u8>, Refusal>
    ensures { ReturnsText (AreValuesTold class slot refers (V.image view.now)) result }
{
    let values = slot_values(alloc, view, class, slot)?;
    let mut text = Vec::new(alloc);
    push_values(&mut text, refers, values.as_slice())?;
    push_count(&mut text, values.len() as u64)?;
    Ok(text)
}

// Appends the lines of all values. Fails if an allocation fails.
fn push_values(text: &mut Vec<u8>, refers: bool, values: &[SlotValue]) -> Result<(), AllocError>
    ensures { Appends (flat_map (value_line refers) values.now) text.old.items
        text.new.items result }
{
    for value in values {
        push_value(text, refers, *value)?;
    }
    Ok(())
}

// Appends the line of a value. Fails if an allocation fails.
#[tactic(auto, unfolding(crate::specs::ValueLists::value_line))]
fn push_value(text: &mut Vec<u8>, refers: bool, value: SlotValue) -> Result<(), AllocError>
    ensures { Appends (value_line refers value) text.old.items text.new.items result }
{
    push_words(text, b"row")?;
    push_word(text, refers, value.word)?;
    push_number(text, value.objects)?;
    push_words(text, b"\n")
}
