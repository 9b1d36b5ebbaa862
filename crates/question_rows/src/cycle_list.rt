//! The answer of `cycles`.
ghost use Rattle.question_words.specs.Appends.{ReturnsText};
ghost use Rattle.question_rows.specs.CycleLists.{AreCyclesTold, IsCyclesText};
ghost use Rattle.question_words.specs.Moments.{told_text};

use crate::lines::{Lined, counted_lines};
use heap_class::Refusal;
use heap_questions::{EndedCycle, ended_cycles};
use heap_trail::Machine;
use question_words::{Unanswered, push_number, push_row, push_words};
use std::alloc::{AllocError, Global};

impl Lined for EndedCycle {
    ghost use Rattle.question_rows.specs.CycleLists.{cycle_line};

    ghost line = { cycle_line };

    #[tactic(auto, unfolding(crate::specs::CycleLists::cycle_line))]
    fn push_line(self, text: &mut Vec<u8>) -> Result<(), AllocError> {
        push_row(text, self.place)?;
        push_number(text, self.condemned)?;
        push_number(text, self.swept)?;
        push_words(text, b"\n")
    }
}

/// Returns the answer of `cycles`. Fails with NoMemory if an allocation fails. Looks at each cell once, and reads each record once.
pub fn cycles_answer(alloc: Global, machine: &Machine) -> Result<Vec<u8>, Unanswered>
    ensures { IsCyclesText machine.now.trail (told_text result) }
{
    Ok(cycles_text(alloc, machine)?)
}

// Returns the lines of the cycles that the retained steps ended, and their number. Fails with NoMemory.
fn cycles_text(alloc: Global, machine: &Machine) -> Result<Vec<u8>, Refusal>
    ensures { ReturnsText (AreCyclesTold machine.now.trail) result }
{
    let cycles = ended_cycles(alloc, machine)?;
    counted_lines(alloc, cycles.as_slice())
}
