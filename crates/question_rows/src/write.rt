//! The answer of `wrote`.
ghost use Rattle.std.specs.Prelude.{◌≡◌, Some, IsSome};
ghost use Rattle.heap_world.specs.Regions.{object_at};
ghost use Rattle.heap_questions.specs.Changes.{slot_word};
ghost use Rattle.heap_questions.specs.PastTrails.{seen_slot};
ghost use Rattle.session_text.specs.Replies.{line_answer_text};
ghost use Rattle.question_rows.specs.PastAnswers.{IsAnswerAgo, IsAnswerSeen};
ghost use Rattle.question_words.specs.Moments.{steps_ago};
ghost use Rattle.question_words.specs.Places.{IsTextOrNoMemory};
ghost use Rattle.question_rows.specs.Writes.{IsSlotText, IsWriteText, IsWroteText};

use heap_class::{ObjRef, Refusal};
use heap_questions::{PastTrail, SeenSlot, last_write, slot_now};
use heap_trail::Machine;
use question_words::{Unanswered, older_line, place_line, reason_line, steps_ago};
use session_text::LineAnswer;
use std::alloc::Global;

/// Returns the answer of `wrote`, about the steps up to a place. Refused with NotRetained if its state isn't retained, and with
/// NoMemory if an allocation fails; without a place it takes no memory. Reads each record since the write at most three times.
pub fn wrote_answer(
    alloc: Global,
    machine: &Machine,
    to: Option<u64>,
    id: u64,
    slot: u64,
) -> LineAnswer
    ensures { IsAnswerSeen (IsWroteText id slot) to machine.now.trail (line_answer_text result) }
{
    match to {
        None => wrote_now(machine, id, slot),
        Some(place) => wrote_past(alloc, machine, place, id, slot),
    }
}

// Returns the answer of `wrote` about the steps up to the current state. Reads each record since the write once. Takes no memory.
fn wrote_now(machine: &Machine, id: u64, slot: u64) -> LineAnswer
    ensures { IsWroteText id slot machine.now.trail (line_answer_text result) }
{
    let past = PastTrail::new(machine, 0);
    match past.find(id) {
        Some(at) => slot_line(&past, at, slot, slot_now(machine, at, slot)),
        None => reason_line(Unanswered::NoObject),
    }
}

// Returns the same, or the refusal BadSlot if the object lacks the slot.
fn slot_line(past: &PastTrail<'_>, at: ObjRef, slot: u64, seen: Option<SeenSlot>) -> LineAnswer
    requires { seen ≡ seen_slot past.now.current at slot }
    ensures { IsSlotText past.now slot at (line_answer_text result) }
{
    match seen {
        Some(seen) => write_line(past, at, slot, seen.word),
        None => reason_line(Unanswered::Refused(Refusal::BadSlot)),
    }
}

// Returns the line of the last write to a slot of the object at a place, which holds this word.
fn write_line(past: &PastTrail<'_>, at: ObjRef, slot: u64, word: u64) -> LineAnswer
    requires { slot_word past.now.current at slot ≡ Some word }
    ensures { IsWriteText past.now at slot (line_answer_text result) }
{
    match last_write(past, at, slot, word) {
        Some(place) => place_line(place),
        None => older_line(past),
    }
}

// Returns the answer of `wrote` about the steps up to a place. Refused with NotRetained if its state isn't retained, and with
// NoMemory if an allocation fails.
fn wrote_past(alloc: Global, machine: &Machine, place: u64, id: u64, slot: u64) -> LineAnswer
    ensures { IsAnswerAgo (λ u. IsTextOrNoMemory (IsWroteText id slot u)) machine.now.trail
        (steps_ago (Some place) machine.now.trail) (line_answer_text result) }
{
    match steps_ago(machine, Some(place)) {
        Ok(ago) => wrote_line(alloc, &PastTrail::new(machine, ago), id, slot),
        Err(refusal) => reason_line(Unanswered::Refused(refusal)),
    }
}

// Returns the answer of `wrote` about the steps of a trail, or the refusal NoMemory if an allocation fails.
fn wrote_line(alloc: Global, past: &PastTrail<'_>, id: u64, slot: u64) -> LineAnswer
    ensures { IsTextOrNoMemory (IsWroteText id slot past.now) (line_answer_text result) }
{
    match past.find(id) {
        Some(at) => past_slot_line(alloc, past, at, slot),
        None => reason_line(Unanswered::NoObject),
    }
}

// Returns the line of the last write to a slot of the object at a place, or the refusal BadSlot if the object lacks the slot, or
// NoMemory if an allocation fails.
fn past_slot_line(alloc: Global, past: &PastTrail<'_>, at: ObjRef, slot: u64) -> LineAnswer
    requires { IsSome (object_at past.now.current.regions at) }
    ensures { IsTextOrNoMemory (IsSlotText past.now slot at) (line_answer_text result) }
{
    match past.slot(alloc, at, slot) {
        Ok(seen) => slot_line(past, at, slot, seen),
        Err(refusal) => reason_line(Unanswered::Refused(refusal)),
    }
}
