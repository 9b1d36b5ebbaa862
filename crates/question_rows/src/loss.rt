//! The answer of `dropped`.
ghost use Rattle.std.specs.Prelude.{◌≡◌};
ghost use Rattle.session_text.specs.Replies.{line_answer_text};
ghost use Rattle.question_rows.specs.Losses.{IsDroppedText, IsLossText, loss_text};
ghost use Rattle.question_rows.specs.PastAnswers.{IsAnswerUpTo};
ghost use Rattle.question_words.specs.Places.{IsTextOrNoMemory, StandsAt};

use heap_class::ObjRef;
use heap_questions::{Loss, PastTrail, loss_of};
use heap_trail::Machine;
use question_words::{Unanswered, older_line, place_line, reason_line, steps_ago};
use session_text::LineAnswer;
use std::alloc::Global;

/// Returns the answer of `dropped`, about the steps up to a place. Refused with NotRetained if its state isn't retained, and with
/// NoMemory if an allocation fails. Searches the heap twice if a first guess about the current state is right, and else once more
/// for each halving of the retained states.
pub fn dropped_answer(alloc: Global, machine: &Machine, to: Option<u64>, id: u64) -> LineAnswer
    ensures { IsAnswerUpTo (IsDroppedText id) to machine.now.trail (line_answer_text result) }
{
    match steps_ago(machine, to) {
        Ok(ago) => dropped_line(alloc, &PastTrail::new(machine, ago), id),
        Err(refusal) => reason_line(Unanswered::Refused(refusal)),
    }
}

// Returns the line of when registers lost the object with this id, or the refusal NoMemory if an allocation fails.
fn dropped_line(alloc: Global, past: &PastTrail<'_>, id: u64) -> LineAnswer
    ensures { IsDroppedText id past.now (line_answer_text result) }
{
    match past.find(id) {
        Some(at) => loss_line_at(alloc, past, at, id),
        None => reason_line(Unanswered::NoObject),
    }
}

// Returns the line of when registers lost the object at a place, which has this id, or the refusal NoMemory if an allocation fails.
fn loss_line_at(alloc: Global, past: &PastTrail<'_>, at: ObjRef, id: u64) -> LineAnswer
    requires { StandsAt past.now.current id at }
    ensures { IsTextOrNoMemory (IsLossText past.now at) (line_answer_text result) }
{
    match loss_of(alloc, past, at, id) {
        Ok(loss) => loss_line(past, loss),
        Err(refusal) => reason_line(Unanswered::Refused(refusal)),
    }
}

// Returns the line of a loss.
fn loss_line(past: &PastTrail<'_>, loss: Loss) -> LineAnswer
    ensures { line_answer_text result ≡ loss_text past.now loss }
{
    match loss {
        Loss::Reached => LineAnswer::Line(b"ok reached\n"),
        Loss::At(place) => place_line(place),
        Loss::Older => older_line(past),
    }
}
