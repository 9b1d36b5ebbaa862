//! The answer of `writes`.
ghost use Rattle.std.specs.Prelude.{◌≡◌, ◌≤◌, ◌+◌, flat_map, IfOk};
ghost use Rattle.question_words.specs.Appends.{Appends, ReturnsText};
ghost use Rattle.question_words.specs.Moments.{told_text};
ghost use Rattle.heap_trail.specs.Trail.{retained, rewound};
ghost use Rattle.question_rows.specs.PastAnswers.{steps_of};
ghost use Rattle.question_rows.specs.SlotWrites.{AreWritesTold, IsWritesText, write_line};

use crate::slot_changes::push_word;
use heap_class::{ClassNo, Refusal};
use heap_questions::{SlotWrite, slot_writes};
use heap_trail::Machine;
use question_words::{
    Span, Unanswered, class_slot, push_count, push_id, push_row, push_words, steps_ago,
};
use std::alloc::{AllocError, Global};

/// Returns the answer of `writes`. Fails with NoClass if the class isn't there, with BadSlot if its objects have no such slot, with
/// NotRetained if the state at a place isn't retained, and with NoMemory if an allocation fails. Reads each record since the first
/// of the steps once.
pub fn writes_answer(
    alloc: Global,
    machine: &Machine,
    class: ClassNo,
    slot: u64,
    span: Span,
) -> Result<Vec<u8>, Unanswered>
    ensures { IsWritesText class slot span machine.now.trail (told_text result) }
{
    let classes = machine.world().classes().all();
    let refers = class_slot(&classes, class, slot)?;
    let steps = steps_of(machine, span)?;
    Ok(written_text(alloc, machine, steps, class, slot, refers)?)
}

// Returns of the steps that a question is about how many steps ago the last was, and how many there are. Fails with NotRetained if
// the state at one of their places isn't retained.
#[tactic(auto, unfolding(crate::specs::PastAnswers::steps_of))]
fn steps_of(machine: &Machine, span: Span) -> Result<(u64, u64), Refusal>
    ensures steps { result ≡ steps_of span machine.now.trail }
    ensures within { IfOk result (λ s. s.0 + s.1 ≤ retained machine.now.trail) }
{
    match span {
        Span::AllSteps => Ok((0, machine.retained_count())),
        Span::Between { after, to } => {
            let after = steps_ago(machine, after)?;
            let to = steps_ago(machine, to)?;
            Ok((to, after.saturating_sub(to)))
        }
    }
}

// Returns the lines of all changes of a slot of the objects of a class by the last `count` steps to the state of `ago` steps ago,
// and their number. Fails with NoMemory.
fn written_text(
    alloc: Global,
    machine: &Machine,
    steps: (u64, u64),
    class: ClassNo,
    slot: u64,
    refers: bool,
) -> Result<Vec<u8>, Refusal>
    requires { steps.0 + steps.1 ≤ retained machine.now.trail }
    ensures { ReturnsText
        (AreWritesTold (rewound steps.0 machine.now.trail) steps.1 class slot refers) result }
{
    let (ago, count) = steps;
    let writes = slot_writes(alloc, machine, ago, count, class, slot)?;
    let mut text = Vec::new(alloc);
    push_writes(&mut text, refers, writes.as_slice())?;
    push_count(&mut text, writes.len() as u64)?;
    Ok(text)
}

// Appends the lines of all writes. Fails if an allocation fails.
fn push_writes(text: &mut Vec<u8>, refers: bool, writes: &[SlotWrite]) -> Result<(), AllocError>
    ensures { Appends (flat_map (write_line refers) writes.now) text.old.items
        text.new.items result }
{
    for write in writes {
        push_write(text, refers, *write)?;
    }
    Ok(())
}

// Appends the line of a write. Fails if an allocation fails.
#[tactic(auto, unfolding(crate::specs::SlotWrites::write_line))]
fn push_write(text: &mut Vec<u8>, refers: bool, write: SlotWrite) -> Result<(), AllocError>
    ensures { Appends (write_line refers write) text.old.items text.new.items result }
{
    push_row(text, write.place)?;
    push_id(text, write.id)?;
    push_word(text, refers, write.old)?;
    push_word(text, refers, write.new)?;
    push_words(text, b"\n")
}
