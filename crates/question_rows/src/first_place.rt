//! The answers of `when`.
ghost use Rattle.std.specs.Prelude.{◌≡◌, ◌≤◌, ◌+◌, IfOk};
ghost use Rattle.heap_questions.specs.declared.wanted.Wanted.TheVariants.{OfClass};
ghost use Rattle.heap_questions.specs.FirstPlaces.{HasMany, HasWanted};
ghost use Rattle.heap_trail.specs.Trail.{retained};
ghost use Rattle.session_text.specs.Replies.{line_answer_text};
ghost use Rattle.question_rows.specs.FirstPlaces.{IsFirstIn, IsWhenCountText, IsWhenText, first_or_refused, states_from, states_of};

use heap_class::Refusal;
use heap_questions::{Wanted, first_many, first_wanted};
use heap_trail::Machine;
use question_words::{Span, Unanswered, place_line, reason_line, steps_ago, wanted_refusal};
use session_text::LineAnswer;
use std::alloc::Global;

/// Returns the answer of `when`. Refused with NoClass if the class isn't there, with BadSlot if its objects have no such slot, with
/// NotRetained if the state at a place isn't retained, and with NoMemory if an allocation fails. Reads each record since the oldest
/// of these states once, and each object of that state at most once.
pub fn when_answer(alloc: Global, machine: &Machine, wanted: Wanted, span: Span) -> LineAnswer
    ensures { IsWhenText wanted span machine.now.trail (line_answer_text result) }
{
    let classes = machine.world().classes().all();
    match wanted_refusal(&classes, wanted) {
        Some(refusal) => reason_line(Unanswered::Refused(refusal)),
        None => wanted_line(alloc, machine, wanted, span),
    }
}

// Returns the line of the first of some places at which an object is wanted. Refused with NotRetained or NoMemory.
fn wanted_line(alloc: Global, machine: &Machine, wanted: Wanted, span: Span) -> LineAnswer
    ensures { IsFirstIn (HasWanted wanted) machine.now.trail (states_of span machine.now.trail)
        (line_answer_text result) }
{
    match states_of(machine, span) {
        Ok((ago, count)) => { first_line(first_wanted(alloc, machine, ago, count, wanted)) }
        Err(refusal) => reason_line(Unanswered::Refused(refusal)),
    }
}

// Returns of the states that a question is about how many steps ago the newest was, and how many steps before it the oldest.
// Fails with NotRetained if the state at one of their places isn't retained.
#[tactic(auto, unfolding(crate::specs::FirstPlaces::states_of))]
fn states_of(machine: &Machine, span: Span) -> Result<(u64, u64), Refusal>
    ensures states { result ≡ states_of span machine.now.trail }
    ensures within { IfOk result (λ s. s.0 + s.1 ≤ retained machine.now.trail) }
{
    match span {
        Span::AllSteps => Ok((0, machine.retained_count())),
        Span::Between { after, to } => {
            let one = steps_ago(machine, after)?;
            let other = steps_ago(machine, to)?;
            Ok(states_from(one, other))
        }
    }
}

// Returns the same of the states between two, both included.
fn states_from(one: u64, other: u64) -> (u64, u64)
    ensures { result ≡ states_from one other }
{
    if one < other {
        (one, other - one)
    } else {
        (other, one - other)
    }
}

// Returns the line of the first place, or that there is none, or of the refusal.
fn first_line(first: Result<Option<u64>, Refusal>) -> LineAnswer
    ensures { line_answer_text result ≡ first_or_refused first }
{
    match first {
        Ok(Some(place)) => place_line(place),
        Ok(None) => LineAnswer::Line(b"ok never\n"),
        Err(refusal) => reason_line(Unanswered::Refused(refusal)),
    }
}

/// Returns the answer of `when` about how many objects a class has: the first place at which it has at least `least` live ones.
/// Refused with NoClass if the class isn't there, with NotRetained if the state at a place isn't retained, and with NoMemory if an
/// allocation fails. Costs what `first_many` does.
pub fn when_count_answer(
    alloc: Global,
    machine: &Machine,
    class: u64,
    least: u64,
    span: Span,
) -> LineAnswer
    ensures { IsWhenCountText class least span machine.now.trail (line_answer_text result) }
{
    let classes = machine.world().classes().all();
    match wanted_refusal(&classes, Wanted::OfClass(class)) {
        Some(refusal) => reason_line(Unanswered::Refused(refusal)),
        None => count_line(alloc, machine, class, least, span),
    }
}

// Returns the line of the first of some places at which a class has at least `least` live objects. Refused with NotRetained or
// NoMemory.
fn count_line(alloc: Global, machine: &Machine, class: u64, least: u64, span: Span) -> LineAnswer
    ensures { IsFirstIn (HasMany least (OfClass class)) machine.now.trail
        (states_of span machine.now.trail) (line_answer_text result) }
{
    match states_of(machine, span) {
        Ok((ago, count)) => first_line(first_many(alloc, machine, ago, count, class, least)),
        Err(refusal) => reason_line(Unanswered::Refused(refusal)),
    }
}
