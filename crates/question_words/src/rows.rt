//! The lines of an answer.
ghost use Rattle.std.specs.Prelude.{◌≡◌, ◌++◌, codes};
ghost use Rattle.session_text.specs.Replies.{and_number, line_answer_text};
ghost use Rattle.question_words.specs.Appends.{Appends};
ghost use Rattle.question_words.specs.Moments.{unanswered_text};
ghost use Rattle.question_words.specs.Rows.{count_text};

use heap_class::Refusal;
use heap_trail::Reply;
use session_text::LineAnswer;
use std::alloc::AllocError;

/// The reason why a question has no answer.
#[derive(Clone, Copy)]
pub enum Unanswered {
    /// A refusal that lines of sessions have too.
    Refused(Refusal),
    /// The id names no object.
    NoObject,
    /// No register reaches the object.
    Unreachable,
}

impl From<Refusal> for Unanswered {
    ghost use Rattle.std.specs.Prelude.{◌≡◌, ◌++◌, codes};
    ghost use Rattle.question_words.specs.declared.rows.Unanswered.TheVariants.{Refused};

    ghost from_gives = { λ r e. e ≡ Refused r };

    fn from(refusal: Refusal) -> Unanswered {
        Unanswered::Refused(refusal)
    }
}

/// Returns what is printed if a question has no answer.
pub fn reason_line(reason: Unanswered) -> LineAnswer
    ensures { line_answer_text result ≡ unanswered_text reason }
{
    match reason {
        Unanswered::Refused(refusal) => LineAnswer::Known(Reply::Refused(refusal)),
        Unanswered::NoObject => LineAnswer::Line(b"no 28 NoObject\n"),
        Unanswered::Unreachable => LineAnswer::Line(b"no 27 Unreachable\n"),
    }
}

/// Appends words. Fails if an allocation fails.
pub fn push_words(text: &mut Vec<u8>, words: &[u8]) -> Result<(), AllocError>
    ensures { Appends words.now text.old.items text.new.items result }
{
    text.extend_from_slice(words)?;
    Ok(())
}

/// Appends a space and a number. Fails if an allocation fails.
pub fn push_number(text: &mut Vec<u8>, n: u64) -> Result<(), AllocError>
    ensures { Appends (and_number n) text.old.items text.new.items result }
{
    push_words(text, b" ")?;
    push_words(text, itoa::Buffer::new().format(n).as_bytes())
}

/// Appends the beginning of a row: its word, a space and a number. Fails if an allocation fails.
pub fn push_row(text: &mut Vec<u8>, n: u64) -> Result<(), AllocError>
    ensures { Appends (codes "row" ++ and_number n) text.old.items text.new.items result }
{
    push_words(text, b"row")?;
    push_number(text, n)
}

/// Appends the last line of an answer that counts its rows. Fails if an allocation fails.
pub fn push_count(text: &mut Vec<u8>, count: u64) -> Result<(), AllocError>
    ensures { Appends (count_text count) text.old.items text.new.items result }
{
    push_words(text, b"ok")?;
    push_number(text, count)?;
    push_words(text, b"\n")
}
