//! The answer of `born`.
ghost use Rattle.std.specs.Prelude.{IsSome};
ghost use Rattle.heap_world.specs.Regions.{object_at};
ghost use Rattle.session_text.specs.Replies.{line_answer_text};
ghost use Rattle.question_rows.specs.Births.{IsBirthText, IsBornText};
ghost use Rattle.question_rows.specs.PastAnswers.{IsAnswerUpTo};

use heap_class::ObjRef;
use heap_questions::{PastTrail, birth};
use heap_trail::Machine;
use question_words::{Unanswered, older_line, place_line, reason_line, steps_ago};
use session_text::LineAnswer;

/// Returns the answer of `born`, about the steps up to a place. Refused with NotRetained if its state isn't retained. Reads each
/// record since the object was made, and each since that state, at most twice. Takes no memory.
pub fn born_answer(machine: &Machine, to: Option<u64>, id: u64) -> LineAnswer
    ensures { IsAnswerUpTo (IsBornText id) to machine.now.trail (line_answer_text result) }
{
    match steps_ago(machine, to) {
        Ok(ago) => born_line(&PastTrail::new(machine, ago), id),
        Err(refusal) => reason_line(Unanswered::Refused(refusal)),
    }
}

// Returns the line of the birth of the object with this id.
fn born_line(past: &PastTrail<'_>, id: u64) -> LineAnswer
    ensures { IsBornText id past.now (line_answer_text result) }
{
    match past.find(id) {
        Some(at) => birth_line(past, at),
        None => reason_line(Unanswered::NoObject),
    }
}

// Returns the line of the birth of the object at a place.
fn birth_line(past: &PastTrail<'_>, at: ObjRef) -> LineAnswer
    requires { IsSome (object_at past.now.current.regions at) }
    ensures { IsBirthText past.now at (line_answer_text result) }
{
    match birth(past, at) {
        Some(place) => place_line(place),
        None => older_line(past),
    }
}
