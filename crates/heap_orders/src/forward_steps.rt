//! `forward`: steps that rewinds undid are taken again.
ghost use Rattle.std.specs.Prelude.{◌≡◌, ◌<◌, ◌≤◌, IfErr, IfOk, OnErr};
ghost use Rattle.session_text.specs.Replies.{line_answer_text, reply_text};
ghost use Rattle.question_words.specs.Appends.{ReturnsText};
ghost use Rattle.heap_orders.specs.Deeds.{GoesForwardTo, steps_on};
ghost use Rattle.question_words.specs.Places.{IsTextOrNoMemory};
ghost use Rattle.heap_orders.specs.Redos.{GoesForward, GoesOn, IsStopped, StopsBefore, TakesAgain, nothing_to_redo_text};

use crate::redo::Redo;
use heap_class::Refusal;
use heap_trail::{Machine, Reply};
use question_words::{push_number, push_words};
use session_text::LineAnswer;
use std::alloc::Global;

/// Takes as many of the undone steps again as lead on to a place, and returns the answer. Refused with NotRetained if none do, and
/// it isn't the current one. Takes memory as the steps do.
pub fn forward_to(machine: &mut Machine, redo: &mut Redo, place: u64) -> LineAnswer
    ensures { GoesForwardTo place machine.old redo.old (line_answer_text result) machine.new
        redo.new }
{
    match steps_on(machine, redo, place) {
        Ok(count) => LineAnswer::Known(go_on(machine, redo, count)),
        Err(refusal) => LineAnswer::Known(Reply::Refused(refusal)),
    }
}

// Returns how many undone steps lead on to a place. Fails with NotRetained if none do, and it isn't the current one.
#[tactic(auto, unfolding(crate::specs::Deeds::steps_on))]
fn steps_on(machine: &Machine, redo: &Redo, place: u64) -> Result<u64, Refusal>
    ensures count { result ≡ steps_on place machine.now.trail redo.now }
    ensures few { IfOk result (λ n. n ≤ redo.now.ahead) }
{
    let current = machine.place();
    if current <= place && place - current <= redo.ahead() {
        Ok(place - current)
    } else {
        Err(Refusal::NotRetained)
    }
}

// Takes `count` of the undone steps again, and returns the reply.
fn go_on(machine: &mut Machine, redo: &mut Redo, count: u64) -> Reply
    requires { count ≤ redo.old.ahead }
    ensures { GoesOn count machine.old redo.old (reply_text result) machine.new redo.new }
{
    match retake(machine, redo, count) {
        Ok(()) => Reply::Place(machine.place()),
        Err(refusal) => Reply::Refused(refusal),
    }
}

// Takes `count` of the undone steps again. Fails as the first does that is refused; those before it stand.
fn retake(machine: &mut Machine, redo: &mut Redo, count: u64) -> Result<(), Refusal>
    requires { count ≤ redo.old.ahead }
    ensures taken { IfOk result
        (λ done. TakesAgain count machine.old redo.old machine.new redo.new) }
    ensures stopped { IfErr result
        (λ e. StopsBefore count machine.old redo.old e machine.new redo.new) }
{
    for _done in 0..count {
        retake_next(machine, redo)?;
    }
    Ok(())
}

// Takes the step again that was undone last. Fails as the step does, and leaves all then.
fn retake_next(machine: &mut Machine, redo: &mut Redo) -> Result<(), Refusal>
    requires { 0 < redo.old.ahead }
    ensures taken { IfOk result (λ done. TakesAgain 1 machine.old redo.old machine.new redo.new) }
    ensures stopped { IfErr result (IsStopped machine.old redo.old) }
    ensures unchanged { OnErr result ((machine.new ≡ machine.old) × (redo.new ≡ redo.old)) }
{
    machine.step(redo.next())?;
    redo.note_retaken();
    Ok(())
}

/// Takes `count` of the undone steps again, and returns the answer. If fewer are undone, nothing is done.
pub fn forward(alloc: Global, machine: &mut Machine, redo: &mut Redo, count: u64) -> LineAnswer
    ensures { GoesForward count machine.old redo.old (line_answer_text result) machine.new
        redo.new }
{
    let left = redo.ahead();
    if count <= left {
        LineAnswer::Known(go_on(machine, redo, count))
    } else {
        nothing_to_redo(alloc, count, left)
    }
}

/// Returns the answer of a `forward` of more steps than are undone.
pub fn nothing_to_redo(alloc: Global, asked: u64, left: u64) -> LineAnswer
    ensures { IsTextOrNoMemory (λ text. text ≡ nothing_to_redo_text asked left)
        (line_answer_text result) }
{
    match nothing_to_redo_line(alloc, asked, left) {
        Ok(text) => LineAnswer::Text(text),
        Err(refusal) => LineAnswer::Known(Reply::Refused(refusal)),
    }
}

// Returns its line. Fails with NoMemory.
fn nothing_to_redo_line(alloc: Global, asked: u64, left: u64) -> Result<Vec<u8>, Refusal>
    ensures { ReturnsText (λ text. text ≡ nothing_to_redo_text asked left) result }
{
    let mut text = Vec::new(alloc);
    push_words(&mut text, b"no 29 NothingToRedo")?;
    push_number(&mut text, asked)?;
    push_number(&mut text, left)?;
    push_words(&mut text, b"\n")?;
    Ok(text)
}
