//! The answer of `referrers`.
ghost use Rattle.std.specs.Prelude.{◌≡◌};
ghost use Rattle.heap_questions.specs.Referrers.{referrers_of};
ghost use Rattle.question_words.specs.Appends.{Appends, ReturnsText};
ghost use Rattle.question_words.specs.Moments.{IsToldOf, told_text};
ghost use Rattle.question_rows.specs.Referrers.{IsReferrersText, and_register, referrer_words, referrers_text};

use crate::lines::{Lined, counted_lines};
use heap_class::Refusal;
use heap_questions::{Referrer, object_with, referrers};
use heap_world::REGISTERS_EACH;
use hprof_text::View;
use question_words::{Unanswered, push_id, push_number, push_words};
use std::alloc::{AllocError, Global};

// Appends the numbers of a register's mutator and of the register. Fails if an allocation fails.
pub(crate) fn push_register(text: &mut Vec<u8>, register: u64) -> Result<(), AllocError>
    ensures { Appends (and_register register) text.old.items text.new.items result }
{
    push_number(text, register / REGISTERS_EACH)?;
    push_number(text, register % REGISTERS_EACH)
}

// Appends what names an object. Fails if an allocation fails.
fn push_names(text: &mut Vec<u8>, referrer: Referrer) -> Result<(), AllocError>
    ensures { Appends (referrer_words referrer) text.old.items text.new.items result }
{
    match referrer {
        Referrer::Register(register) => push_register(text, register),
        Referrer::Slot { object, slot } => {
            push_id(text, object)?;
            push_number(text, slot)
        }
    }
}

impl Lined for Referrer {
    ghost use Rattle.question_rows.specs.Referrers.{referrer_text};

    ghost line = { referrer_text };

    #[tactic(auto, unfolding(crate::specs::Referrers::referrer_text))]
    fn push_line(self, text: &mut Vec<u8>) -> Result<(), AllocError> {
        push_words(text, b"row")?;
        push_names(text, self)?;
        push_words(text, b"\n")
    }
}

/// Returns the answer of `referrers` about a view. Fails with NoObject if the id names no object, and with NoMemory if an
/// allocation fails. Reads each object at most twice.
pub fn referrers_answer<V: View>(alloc: Global, view: &V, id: u64) -> Result<Vec<u8>, Unanswered>
    ensures { IsToldOf (IsReferrersText id) (V.image view.now) (told_text result) }
{
    match object_with(view, id) {
        Some(_) => Ok(referrer_lines(alloc, view, id)?),
        None => Err(Unanswered::NoObject),
    }
}

// Returns the lines of all that names an id, and their number. Fails with NoMemory.
fn referrer_lines<V: View>(alloc: Global, view: &V, id: u64) -> Result<Vec<u8>, Refusal>
    ensures { ReturnsText
        (λ text. text ≡ referrers_text (referrers_of (V.image view.now) id)) result }
{
    let all = referrers(alloc, view, id)?;
    counted_lines(alloc, all.as_slice())
}
