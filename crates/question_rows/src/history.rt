//! The answer of `history`.
ghost use Rattle.std.specs.Prelude.{◌++◌, ◌≤◌, All, codes, flat_map};
ghost use Rattle.heap_trail.specs.Trail.{retained};
ghost use Rattle.question_words.specs.Appends.{Appends, ReturnsText};
ghost use Rattle.question_rows.specs.Histories.{AreStepsTold, IsHistoryText, IsEventThere, IsStepThere, and_overwritten, and_slot, event_words, past_step_line};
ghost use Rattle.question_words.specs.Moments.{told_text};
ghost use Rattle.question_words.specs.Names.{IsClassThere, class_name};
ghost use Rattle.session_text.specs.Replies.{and_number};
ghost use Rattle.question_words.specs.Ids.{and_id};

use heap_class::{FirstClasses, ObjKind, Refusal};
use heap_questions::{PastEvent, PastStep, history};
use heap_trail::Machine;
use question_words::{
    Unanswered, push_class_name, push_count, push_id, push_number, push_reference, push_row,
    push_words, steps_ago,
};
use std::alloc::{AllocError, Global};

/// Returns the answer of `history`. Fails with NotRetained if the state at the place isn't retained, and with NoMemory if an
/// allocation fails. Reads each record since the oldest step that it tells once.
pub fn history_answer(
    alloc: Global,
    machine: &Machine,
    to: Option<u64>,
    count: u64,
) -> Result<Vec<u8>, Unanswered>
    ensures { IsHistoryText to count machine.now.trail (told_text result) }
{
    let ago = steps_ago(machine, to)?;
    Ok(steps_text(alloc, machine, ago, count)?)
}

// Returns the lines of the newest steps that led to the state of `ago` steps ago, and their number. Fails with NoMemory.
fn steps_text(alloc: Global, machine: &Machine, ago: u64, count: u64) -> Result<Vec<u8>, Refusal>
    requires { ago ≤ retained machine.now.trail }
    ensures { ReturnsText (AreStepsTold machine.now.trail count ago) result }
{
    // Its contract says that the retained states are legal.
    let _place = machine.place();
    let steps = history(alloc, machine, ago, count)?;
    let classes = machine.world().classes().all();
    let mut text = Vec::new(alloc);
    push_steps(&mut text, &classes, steps.as_slice())?;
    push_count(&mut text, steps.len() as u64)?;
    Ok(text)
}

// Appends the lines of all. Fails if an allocation fails.
fn push_steps(
    text: &mut Vec<u8>,
    classes: &FirstClasses<'_>,
    steps: &[PastStep],
) -> Result<(), AllocError>
    requires { All (IsStepThere classes.now) steps.now }
    ensures { Appends (flat_map (past_step_line classes.now) steps.now)
        text.old.items text.new.items result }
{
    for step in steps {
        push_step(text, classes, *step)?;
    }
    Ok(())
}

// Appends the line of a step. Fails if an allocation fails.
#[tactic(auto, unfolding(crate::specs::Histories::past_step_line))]
fn push_step(
    text: &mut Vec<u8>,
    classes: &FirstClasses<'_>,
    step: PastStep,
) -> Result<(), AllocError>
    requires { IsStepThere classes.now step }
    ensures { Appends (past_step_line classes.now step) text.old.items text.new.items result }
{
    push_row(text, step.place)?;
    push_event(text, classes, step.event)?;
    push_words(text, b"\n")
}

// Appends what a step did, what it overwrote and what it wrote. Fails if an allocation fails.
#[tactic(auto, unfolding(crate::specs::Histories::event_words))]
fn push_event(
    text: &mut Vec<u8>,
    classes: &FirstClasses<'_>,
    event: PastEvent,
) -> Result<(), AllocError>
    requires { IsEventThere classes.now event }
    ensures { Appends (event_words classes.now event) text.old.items text.new.items result }
{
    match event {
        PastEvent::Put { id, slot, old, new } => {
            push_numbered(text, b" put", id, slot)?;
            push_number(text, old)?;
            push_number(text, new)
        }
        PastEvent::Store { id, slot, old, new } => {
            push_numbered(text, b" store", id, slot)?;
            push_reference(text, old)?;
            push_reference(text, new)
        }
        PastEvent::Register { m, r, old, new } => {
            push_words(text, b" reg")?;
            push_overwritten(text, m, r, old)?;
            push_reference(text, new)
        }
        PastEvent::New {
            id,
            m,
            r,
            old,
            kind,
        } => {
            push_made(text, id, m, r, old)?;
            push_class(text, classes, kind)
        }
        PastEvent::Class => push_words(text, b" class"),
        PastEvent::Snap => push_words(text, b" snap"),
        PastEvent::Mark { parent, pushed } => push_numbered(text, b" mark", parent, pushed),
        PastEvent::Drain(pushed) => push_counted(text, b" drain", pushed),
        PastEvent::Finish(log) => push_counted(text, b" finish", log),
        PastEvent::Sweep { region, dead } => push_swept(text, region, dead),
        PastEvent::Reclaim(region) => push_counted(text, b" reclaim", region),
    }
}

// Appends a word, an id and a number. Fails if an allocation fails.
fn push_numbered(text: &mut Vec<u8>, word: &[u8], id: u64, number: u64) -> Result<(), AllocError>
    ensures { Appends (and_slot word.now id number) text.old.items text.new.items result }
{
    push_words(text, word)?;
    push_id(text, id)?;
    push_number(text, number)
}

// Appends the numbers of a mutator and its register, and what it named before. Fails if an allocation fails.
fn push_overwritten(text: &mut Vec<u8>, m: u64, r: u64, old: u64) -> Result<(), AllocError>
    ensures { Appends (and_overwritten m r old) text.old.items text.new.items result }
{
    push_number(text, m)?;
    push_number(text, r)?;
    push_reference(text, old)
}

// Appends the id of an object that was made, the register that names it, and what that named before. Fails if an allocation fails.
fn push_made(text: &mut Vec<u8>, id: u64, m: u64, r: u64, old: u64) -> Result<(), AllocError>
    ensures { Appends ((codes " new" ++ and_id id) ++ and_overwritten m r old)
        text.old.items text.new.items result }
{
    push_words(text, b" new")?;
    push_id(text, id)?;
    push_overwritten(text, m, r, old)
}

// Appends a space and the name of the class of an object of this kind. Fails if an allocation fails.
fn push_class(
    text: &mut Vec<u8>,
    classes: &FirstClasses<'_>,
    kind: ObjKind,
) -> Result<(), AllocError>
    requires { IsClassThere classes.now kind }
    ensures { Appends (codes " " ++ class_name classes.now kind)
        text.old.items text.new.items result }
{
    push_words(text, b" ")?;
    push_class_name(text, classes, kind)
}

// Appends a word and a number. Fails if an allocation fails.
fn push_counted(text: &mut Vec<u8>, word: &[u8], n: u64) -> Result<(), AllocError>
    ensures { Appends (word.now ++ and_number n) text.old.items text.new.items result }
{
    push_words(text, word)?;
    push_number(text, n)
}

// Appends the number of a region, and how many objects were removed from it. Fails if an allocation fails.
fn push_swept(text: &mut Vec<u8>, region: u64, dead: u64) -> Result<(), AllocError>
    ensures { Appends ((codes " sweep" ++ and_number region) ++ and_number dead)
        text.old.items text.new.items result }
{
    push_counted(text, b" sweep", region)?;
    push_number(text, dead)
}
