//! The answer of `watch`.
ghost use Rattle.std.specs.Prelude.{◌≡◌, Some, IsSome, flat_map};
ghost use Rattle.heap_world.specs.Regions.{object_at};
ghost use Rattle.heap_questions.specs.PastTrails.{seen_slot};
ghost use Rattle.question_words.specs.Appends.{Appends, ReturnsText};
ghost use Rattle.question_words.specs.Moments.{told_text, steps_ago};
ghost use Rattle.question_rows.specs.PastAnswers.{IsAnswerAgo, IsAnswerSeen};
ghost use Rattle.question_words.specs.Places.{IsTextOrNoMemory};
ghost use Rattle.question_rows.specs.SlotChanges.{IsChangesText, IsSlotChangesText, IsWatchText, and_word, change_line};

use heap_class::{ObjRef, Refusal};
use heap_questions::{PastTrail, SeenSlot, SlotChange, slot_changes, slot_now};
use heap_trail::Machine;
use question_words::{
    Unanswered, push_count, push_number, push_reference, push_row, push_words, steps_ago,
};
use std::alloc::{AllocError, Global};

// Appends a word: an id or `null` if it is a reference, else a number. Fails if an allocation fails.
pub(crate) fn push_word(text: &mut Vec<u8>, refers: bool, word: u64) -> Result<(), AllocError>
    ensures { Appends (and_word refers word) text.old.items text.new.items result }
{
    if refers {
        push_reference(text, word)
    } else {
        push_number(text, word)
    }
}

/// Returns the answer of `watch`, about the steps up to a place. Fails with NotRetained if its state isn't retained, with NoObject
/// if the id names no object there, with BadSlot if it lacks the slot, and with NoMemory if an allocation fails. Reads each record
/// since the object was made at most three times.
pub fn watch_answer(
    alloc: Global,
    machine: &Machine,
    id: u64,
    slot: u64,
    to: Option<u64>,
) -> Result<Vec<u8>, Unanswered>
    ensures { IsAnswerSeen (IsWatchText id slot) to machine.now.trail (told_text result) }
{
    match to {
        None => watch_now(alloc, machine, id, slot),
        Some(place) => watch_ago(alloc, machine, place, id, slot),
    }
}

// Returns the answer of `watch` about the steps up to the current state. Fails with NoObject, BadSlot and NoMemory.
fn watch_now(alloc: Global, machine: &Machine, id: u64, slot: u64) -> Result<Vec<u8>, Unanswered>
    ensures { IsWatchText id slot machine.now.trail (told_text result) }
{
    let past = PastTrail::new(machine, 0);
    match past.find(id) {
        Some(at) => changes_of_slot(alloc, &past, at, slot, slot_now(machine, at, slot)),
        None => Err(Unanswered::NoObject),
    }
}

// Returns the same. Fails with BadSlot if the object lacks the slot.
fn changes_of_slot(
    alloc: Global,
    past: &PastTrail<'_>,
    at: ObjRef,
    slot: u64,
    seen: Option<SeenSlot>,
) -> Result<Vec<u8>, Unanswered>
    requires { seen ≡ seen_slot past.now.current at slot }
    ensures { IsSlotChangesText past.now slot at (told_text result) }
{
    match seen {
        Some(seen) => Ok(changes_text(alloc, past, at, slot, seen)?),
        None => Err(Unanswered::Refused(Refusal::BadSlot)),
    }
}

// Returns the lines of the changes of a slot of the object at a place, which holds this, and their number. Fails with NoMemory.
fn changes_text(
    alloc: Global,
    past: &PastTrail<'_>,
    at: ObjRef,
    slot: u64,
    seen: SeenSlot,
) -> Result<Vec<u8>, Refusal>
    requires { seen_slot past.now.current at slot ≡ Some seen }
    ensures { ReturnsText (IsChangesText past.now at slot) result }
{
    let changes = slot_changes(alloc, past, at, slot, seen.word)?;
    let mut text = Vec::new(alloc);
    push_changes(&mut text, seen.refers, changes.as_slice())?;
    push_count(&mut text, changes.len() as u64)?;
    Ok(text)
}

// Appends the lines of all changes. Fails if an allocation fails.
fn push_changes(text: &mut Vec<u8>, refers: bool, changes: &[SlotChange]) -> Result<(), AllocError>
    ensures { Appends (flat_map (change_line refers) changes.now) text.old.items
        text.new.items result }
{
    for change in changes {
        push_change(text, refers, *change)?;
    }
    Ok(())
}

// Appends the line of a change. Fails if an allocation fails.
#[tactic(auto, unfolding(crate::specs::SlotChanges::change_line))]
fn push_change(text: &mut Vec<u8>, refers: bool, change: SlotChange) -> Result<(), AllocError>
    ensures { Appends (change_line refers change) text.old.items text.new.items result }
{
    push_row(text, change.place)?;
    push_word(text, refers, change.old)?;
    push_word(text, refers, change.new)?;
    push_words(text, b"\n")
}

// Returns the answer of `watch` about the steps up to a place. Fails with NotRetained, NoObject, BadSlot and NoMemory.
fn watch_ago(
    alloc: Global,
    machine: &Machine,
    place: u64,
    id: u64,
    slot: u64,
) -> Result<Vec<u8>, Unanswered>
    ensures { IsAnswerAgo (λ u. IsTextOrNoMemory (IsWatchText id slot u)) machine.now.trail
        (steps_ago (Some place) machine.now.trail) (told_text result) }
{
    match steps_ago(machine, Some(place)) {
        Ok(ago) => watch_past(alloc, &PastTrail::new(machine, ago), id, slot),
        Err(refusal) => Err(Unanswered::Refused(refusal)),
    }
}

// Returns the answer of `watch` about the steps of a trail. Fails with NoObject, BadSlot and NoMemory.
fn watch_past(
    alloc: Global,
    past: &PastTrail<'_>,
    id: u64,
    slot: u64,
) -> Result<Vec<u8>, Unanswered>
    ensures { IsTextOrNoMemory (IsWatchText id slot past.now) (told_text result) }
{
    match past.find(id) {
        Some(at) => past_changes(alloc, past, at, slot),
        None => Err(Unanswered::NoObject),
    }
}

// Returns the lines of the changes of a slot of the object at a place. Fails with BadSlot if the object lacks the slot, and with
// NoMemory if an allocation fails.
fn past_changes(
    alloc: Global,
    past: &PastTrail<'_>,
    at: ObjRef,
    slot: u64,
) -> Result<Vec<u8>, Unanswered>
    requires { IsSome (object_at past.now.current.regions at) }
    ensures { IsTextOrNoMemory (IsSlotChangesText past.now slot at) (told_text result) }
{
    match past.slot(alloc, at, slot) {
        Ok(seen) => changes_of_slot(alloc, past, at, slot, seen),
        Err(refusal) => Err(Unanswered::Refused(refusal)),
    }
}
