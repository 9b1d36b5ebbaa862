//! Comments.
ghost use Rattle.std.specs.Prelude.{◌≡◌};
ghost use Rattle.session_text.specs.Replies.{line_answer_text};
ghost use Rattle.question_text.specs.Comments.{is_comment, unasked_text};

use crate::help::help_answer;
use session_grammar::words::Words;
use session_text::LineAnswer;

// Returns the answer of a line that asks no question: a comment has none. Takes no memory.
pub(crate) fn unasked_answer(line: &[u8]) -> LineAnswer
    ensures { line_answer_text result ≡ unasked_text line.now }
{
    if is_comment(line) {
        return LineAnswer::Line(b"");
    }
    help_answer(line)
}

// Tells whether the first word of a line begins with `#`.
fn is_comment(line: &[u8]) -> bool
    ensures { result ≡ is_comment line.now }
{
    let mut words = Words::new(line);
    let Some(word) = words.next_word() else {
        return false;
    };
    matches!(word, [b'#', ..])
}
