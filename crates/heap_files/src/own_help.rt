//! The answers of `help` in a session whose lines also run the lines of files and log.
ghost use Rattle.std.specs.Prelude.{◌≡◌, ◌⊎◌, IfOk};
ghost use Rattle.heap_class.specs.declared.Refusal.TheVariants.{NoMemory};
ghost use Rattle.session_grammar.specs.Grammar.{words_of_line};
ghost use Rattle.session_text.specs.Replies.{line_answer_text};
ghost use Rattle.question_words.specs.Moments.{refused_text};
ghost use Rattle.question_text.specs.FileHelp.{IsFileHelp};
ghost use Rattle.question_text.specs.Help.{all_forms, help_rows};
ghost use Rattle.heap_files.specs.OwnHelp.{own_help_about, own_help_of, own_help_text};

use heap_class::Refusal;
use heap_console::{own_keyword_help, own_rows};
use heap_trail::Reply;
use question_text::{all_help, file_rows};
use session_grammar::words::{Words, is_word};
use session_text::LineAnswer;
use std::alloc::{AllocError, Global};

/// Returns the answer of a line that asks for help in a session whose lines also run the lines of files and log, or None if the
/// line doesn't ask for help or its answer is the same as where they only write files. The answer of `help` itself is NoMemory if
/// an allocation fails.
pub(crate) fn own_help(alloc: Global, line: &[u8]) -> Option<LineAnswer>
    ensures { IsFileHelp (own_help_of line.now) result }
{
    let mut words = Words::new(line);
    let word = words.next_word()?;
    if !is_word(word, b"help") {
        return None;
    }
    own_help_about(alloc, words)
}

// Returns the answer of the words behind `help`.
fn own_help_about(alloc: Global, mut words: Words) -> Option<LineAnswer>
    ensures { IsFileHelp (own_help_about (words_of_line words.entry)) result }
{
    let Some(word) = words.next_word() else {
        return Some(all_answer(alloc));
    };
    if words.front().is_some() {
        return None;
    }
    let text = own_keyword_help(word)?;
    Some(LineAnswer::Line(text))
}

// Returns the answer of `help`.
fn all_answer(alloc: Global) -> LineAnswer
    ensures { (line_answer_text result ≡ own_help_text)
        ⊎ (line_answer_text result ≡ refused_text NoMemory) }
{
    match all_own_help(alloc) {
        Ok(text) => LineAnswer::Text(text),
        Err(_) => LineAnswer::Known(Reply::Refused(Refusal::NoMemory)),
    }
}

// Returns what `help` answers. Fails if an allocation fails.
fn all_own_help(alloc: Global) -> Result<Vec<u8>, AllocError>
    ensures { IfOk result (λ t. t.items ≡ own_help_text) }
{
    let mut text = Vec::new(alloc);
    text.extend_from_slice(help_rows())?;
    text.extend_from_slice(file_rows())?;
    text.extend_from_slice(own_rows())?;
    text.extend_from_slice(b"ok\n")?;
    Ok(text)
}

// Returns the rows of `help` in each session with questions.
#[tactic(auto, unfolding(question_text::specs::Help::help_text), using(question_text::proofs::HelpRows::rows_before_ok, question_text::proofs::HelpRows::ok_is_there))]
fn help_rows() -> &'static [u8]
    ensures { result.now ≡ help_rows all_forms }
{
    let text = all_help();
    &text[..text.len() - 3]
}
