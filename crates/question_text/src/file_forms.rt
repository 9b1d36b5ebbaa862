//! The answers of `help` in a session whose lines write files.
ghost use Rattle.std.specs.Prelude.{◌≡◌, ◌⊎◌, IfOk};
ghost use Rattle.std.specs.Option.{option_map};
ghost use Rattle.heap_class.specs.declared.Refusal.TheVariants.{NoMemory};
ghost use Rattle.session_grammar.specs.Grammar.{words_of_line};
ghost use Rattle.session_text.specs.Replies.{line_answer_text};
ghost use Rattle.question_words.specs.Moments.{refused_text};
ghost use Rattle.question_text.specs.FileHelp.{IsFileHelp, file_forms, file_help_about, file_help_of, file_help_text};
ghost use Rattle.question_text.specs.Help.{form_with, help_rows};

use crate::help::help_rows;
use heap_class::Refusal;
use heap_trail::Reply;
use session_grammar::by_word;
use session_grammar::words::{Words, is_word};
use session_text::LineAnswer;
use std::alloc::{AllocError, Global};

/// Returns the answer of a line that asks for help in a session whose lines write files, or None if the line doesn't ask for help
/// or its answer is the same as elsewhere. The answer of `help` itself is NoMemory if an allocation fails.
pub fn file_help(alloc: Global, line: &[u8]) -> Option<LineAnswer>
    ensures { IsFileHelp (file_help_of line.now) result }
{
    let mut words = Words::new(line);
    let word = words.next_word()?;
    if !is_word(word, b"help") {
        return None;
    }
    file_help_about(alloc, words)
}

// Returns the answer of the words behind `help`.
fn file_help_about(alloc: Global, mut words: Words) -> Option<LineAnswer>
    ensures { IsFileHelp (file_help_about (words_of_line words.entry)) result }
{
    let Some(word) = words.next_word() else {
        return Some(all_answer(alloc));
    };
    if words.front().is_some() {
        return None;
    }
    let text = file_keyword_help(word)?;
    Some(LineAnswer::Line(text))
}

// Returns the answer of `help`.
fn all_answer(alloc: Global) -> LineAnswer
    ensures { (line_answer_text result ≡ file_help_text)
        ⊎ (line_answer_text result ≡ refused_text NoMemory) }
{
    match all_file_help(alloc) {
        Ok(text) => LineAnswer::Text(text),
        Err(_) => LineAnswer::Known(Reply::Refused(Refusal::NoMemory)),
    }
}

// Returns what `help` answers. Fails if an allocation fails.
fn all_file_help(alloc: Global) -> Result<Vec<u8>, AllocError>
    ensures { IfOk result (λ t. t.items ≡ file_help_text) }
{
    let mut text = Vec::new(alloc);
    text.extend_from_slice(help_rows())?;
    text.extend_from_slice(file_rows())?;
    text.extend_from_slice(b"ok\n")?;
    Ok(text)
}

/// Returns the rows of the lines that write files, as `help` has them. Takes no memory.
#[tactic(auto, unfolding(crate::specs::FileHelp::file_forms))]
pub fn file_rows() -> &'static [u8]
    ensures { result.now ≡ help_rows file_forms }
{
    b"row write [AT] PATH\nrow draw [AT] PATH\n"
}

/// Returns what `help` answers about a keyword of a line that writes a file, or None if it is none. Takes no memory.
#[tactic(auto, unfolding(crate::specs::Help::form_text, crate::specs::Help::form_with, crate::specs::FileHelp::file_forms))]
pub fn file_keyword_help(word: &[u8]) -> Option<&'static [u8]>
    ensures { option_map (λ t. t.now) result ≡ form_with file_forms word.now }
{
    by_word!(word;
        b"write" => Some(b"row write [AT] PATH\nrow write heap.hprof\nrow # writes the dump of a state to a new file\nok\n"),
        b"draw" => Some(b"row draw [AT] PATH\nrow draw heap.svg\nrow # writes a picture of the regions to a new file\nok\n"),
        _ => None
    )
}
