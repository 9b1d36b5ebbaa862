//! The answer of `diff`.
ghost use Rattle.question_words.specs.Appends.{Appends, ReturnsText};
ghost use Rattle.question_rows.specs.Diffs.{IsDiffText, difference_words};

use crate::lines::{Lined, counted_lines};
use crate::slot_changes::push_word;
use heap_class::Refusal;
use heap_questions::{Difference, object_differences};
use hprof_text::View;
use question_words::{push_id, push_number, push_words};
use std::alloc::{AllocError, Global};

// Appends an object that one state alone has, or a slot and its words in both states. Fails if an allocation fails.
fn push_difference(text: &mut Vec<u8>, difference: Difference) -> Result<(), AllocError>
    ensures { Appends (difference_words difference) text.old.items text.new.items result }
{
    match difference {
        Difference::Made(id) => {
            push_id(text, id)?;
            push_words(text, b" made")
        }
        Difference::Gone(id) => {
            push_id(text, id)?;
            push_words(text, b" gone")
        }
        Difference::Changed { id, slot, old, new } => {
            push_id(text, id)?;
            push_number(text, slot)?;
            push_word(text, old.refers, old.word)?;
            push_word(text, new.refers, new.word)
        }
    }
}

impl Lined for Difference {
    ghost use Rattle.question_rows.specs.Diffs.{difference_line};

    ghost line = { difference_line };

    #[tactic(auto, unfolding(crate::specs::Diffs::difference_line))]
    fn push_line(self, text: &mut Vec<u8>) -> Result<(), AllocError> {
        push_words(text, b"row")?;
        push_difference(text, self)?;
        push_words(text, b"\n")
    }
}

/// Returns the answer of `diff` from an older view to a newer one. Fails with NoMemory if an allocation fails. Reads each object at
/// most twice. If ids rise in both views, both are walked once, side by side; else n ids are compared about n log n times.
pub fn diff_text<V: View>(alloc: Global, older: &V, newer: &V) -> Result<Vec<u8>, Refusal>
    ensures { ReturnsText (IsDiffText (V.image older.now) (V.image newer.now)) result }
{
    let rows = object_differences(alloc, older, newer)?;
    counted_lines(alloc, rows.as_slice())
}
