//! The answer of `objects`.
ghost use Rattle.std.specs.Prelude.{All, flat_map};
ghost use Rattle.question_words.specs.Appends.{Appends, ReturnsText};
ghost use Rattle.question_words.specs.Moments.{IsToldOf, told_text};
ghost use Rattle.question_rows.specs.ObjectLists.{AreObjectsTold, IsListedThere, IsObjectsText, listed_text, unreached_words};

use heap_class::{FirstClasses, Refusal};
use heap_questions::{ListedObject, Wanted, list_wanted};
use hprof_text::View;
use question_words::{
    Unanswered, push_class_name, push_count, push_id, push_number, push_words, wanted_refusal,
};
use std::alloc::{AllocError, Global};

/// Returns the answer of `objects` about a view. Fails with NoClass if the class isn't there, with BadSlot if its objects have no
/// such slot, and with NoMemory if an allocation fails. Reads each object at most three times.
pub fn objects_answer<V: View>(
    alloc: Global,
    view: &V,
    wanted: Wanted,
) -> Result<Vec<u8>, Unanswered>
    ensures { IsToldOf (IsObjectsText wanted) (V.image view.now) (told_text result) }
{
    let classes = view.classes();
    match wanted_refusal(&classes, wanted) {
        Some(refusal) => Err(Unanswered::Refused(refusal)),
        None => Ok(objects_text(alloc, view, wanted)?),
    }
}

// Returns the lines of the objects that are wanted, and their number. Fails with NoMemory.
fn objects_text<V: View>(alloc: Global, view: &V, wanted: Wanted) -> Result<Vec<u8>, Refusal>
    ensures { ReturnsText (AreObjectsTold wanted (V.image view.now)) result }
{
    let all = list_wanted(alloc, view, wanted)?;
    let classes = view.classes();
    let mut text = Vec::new(alloc);
    push_all(&mut text, &classes, all.as_slice())?;
    push_count(&mut text, all.len() as u64)?;
    Ok(text)
}

// Appends the lines of all objects, whose classes must be there. Fails if an allocation fails.
fn push_all(
    text: &mut Vec<u8>,
    classes: &FirstClasses<'_>,
    all: &[ListedObject],
) -> Result<(), AllocError>
    requires { All (IsListedThere classes.now) all.now }
    ensures { Appends (flat_map (listed_text classes.now) all.now)
        text.old.items text.new.items result }
{
    for i in 0..all.len() {
        push_listed(text, classes, &all[i])?;
    }
    Ok(())
}

// Appends the line of an object, whose class must be there. Fails if an allocation fails.
#[tactic(auto, unfolding(crate::specs::ObjectLists::listed_text))]
fn push_listed(
    text: &mut Vec<u8>,
    classes: &FirstClasses<'_>,
    object: &ListedObject,
) -> Result<(), AllocError>
    requires { IsListedThere classes.now object.now }
    ensures { Appends (listed_text classes.now object.now) text.old.items text.new.items result }
{
    push_words(text, b"row")?;
    push_id(text, object.id)?;
    push_words(text, b" ")?;
    push_class_name(text, classes, object.kind)?;
    push_number(text, object.slots)?;
    push_unreached(text, object.unreached)?;
    push_words(text, b"\n")
}

// Appends what a row says of an object that no register reaches. Fails if an allocation fails.
fn push_unreached(text: &mut Vec<u8>, unreached: bool) -> Result<(), AllocError>
    ensures { Appends (unreached_words unreached) text.old.items text.new.items result }
{
    if unreached {
        push_words(text, b" unreached")
    } else {
        Ok(())
    }
}
