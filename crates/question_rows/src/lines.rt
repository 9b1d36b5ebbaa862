//! Answers that have one line for each thing, and count them.
ghost use Rattle.std.specs.Prelude.{◌≡◌, ◌++◌, flat_map, length};
ghost use Rattle.question_words.specs.Appends.{Appends, ReturnsText};
ghost use Rattle.question_words.specs.Rows.{count_text};

use heap_class::Refusal;
use question_words::push_count;
use std::alloc::{AllocError, Global};

// What an answer has a line for.
pub(crate) trait Lined: Copy {
    ghost use Rattle.std.specs.Prelude.{ℕ, List};
    ghost use Rattle.question_words.specs.Appends.{Appends};

    ghost line: { Self → List ℕ };

    // Appends its line. Fails if an allocation fails.
    fn push_line(self, text: &mut Vec<u8>) -> Result<(), AllocError>
        ensures { Appends (line self) text.old.items text.new.items result };
}

// Returns the lines of all, and their number. Fails with NoMemory.
pub(crate) fn counted_lines<T: Lined>(alloc: Global, all: &[T]) -> Result<Vec<u8>, Refusal>
    ensures { ReturnsText
        (λ text. text ≡ flat_map T.line all.now ++ count_text (length all.now)) result }
{
    let mut text = Vec::new(alloc);
    push_lines(&mut text, all)?;
    push_count(&mut text, all.len() as u64)?;
    Ok(text)
}

// Appends the lines of all. Fails if an allocation fails.
fn push_lines<T: Lined>(text: &mut Vec<u8>, all: &[T]) -> Result<(), AllocError>
    ensures { Appends (flat_map T.line all.now) text.old.items text.new.items result }
{
    for one in all {
        one.push_line(text)?;
    }
    Ok(())
}
