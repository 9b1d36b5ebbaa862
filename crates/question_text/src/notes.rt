//! Lines that ask for nothing to be done: those that a session notes, questions, and others.
ghost use Rattle.std.specs.Prelude.{true};
ghost use Rattle.session_text.specs.Replies.{line_answer_text};
ghost use Rattle.question_text.specs.Notes.{NotesLine, SetsName, SetsNameIf, SetsPlace};

use crate::answers::answer_line;
use heap_class::Refusal;
use heap_trail::{Machine, Reply};
use question_grammar::{Bookmarks, name_set, place_set};
use question_words::{place_line, steps_ago};
use session_text::LineAnswer;
use std::alloc::Global;

/// Returns the answer of a line that the grammar of sessions doesn't know, and that asks for nothing to be done, and notes in the
/// bookmarks what it sets: `at @P`, `at -` and `name WORD`. The answer is about a machine, which may have a chronicle of this
/// length.
pub fn note_line(
    alloc: Global,
    machine: &Machine,
    acts: Option<u64>,
    bookmarks: &mut Bookmarks,
    line: &[u8],
) -> LineAnswer
    ensures { NotesLine line.now machine.now acts bookmarks.old (line_answer_text result)
        bookmarks.new }
{
    if let Some(to) = place_set(bookmarks, line) {
        return set_place(machine, bookmarks, to);
    }
    match name_set(line) {
        Some(word) => set_name(alloc, bookmarks, word, machine.place()),
        None => answer_line(alloc, machine, acts, bookmarks, line),
    }
}

// Sets the place of questions that name no state, if its state is retained. Takes no memory.
fn set_place(machine: &Machine, bookmarks: &mut Bookmarks, to: Option<u64>) -> LineAnswer
    ensures { SetsPlace to machine.now.trail bookmarks.old (line_answer_text result)
        bookmarks.new }
{
    match steps_ago(machine, to) {
        Ok(_) => {
            bookmarks.set_at(to);
            place_line(to.unwrap_or(machine.place()))
        }
        Err(refusal) => LineAnswer::Known(Reply::Refused(refusal)),
    }
}

// Gives a name to a place, if there is room for it.
fn set_name(alloc: Global, bookmarks: &mut Bookmarks, word: &[u8], place: u64) -> LineAnswer
    ensures { SetsName word.now place bookmarks.old (line_answer_text result) bookmarks.new }
{
    if bookmarks.has_room(word) {
        name_place(alloc, bookmarks, word, place)
    } else {
        LineAnswer::Line(b"no 30 NameLimit\n")
    }
}

// Gives a name to a place.
fn name_place(alloc: Global, bookmarks: &mut Bookmarks, word: &[u8], place: u64) -> LineAnswer
    ensures { SetsNameIf true word.now place bookmarks.old (line_answer_text result)
        bookmarks.new }
{
    match bookmarks.set_name(alloc, word, place) {
        Ok(()) => place_line(place),
        Err(_) => LineAnswer::Known(Reply::Refused(Refusal::NoMemory)),
    }
}
