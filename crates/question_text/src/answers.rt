//! The answers of questions.
ghost use Rattle.std.specs.Prelude.{◌≡◌};
ghost use Rattle.heap_pins.specs.Pin.{pin_image};
ghost use Rattle.session_text.specs.Replies.{line_answer_text};
ghost use Rattle.question_grammar.specs.Chains.{chain_of};
ghost use Rattle.question_text.specs.Answers.{IsAnswer, IsAnswerAlong, IsAnswerOfLine, IsPairText, IsStateText, lines_text};
ghost use Rattle.question_words.specs.Moments.{IsAnswerAbout, IsAnswerBesides, IsAnswerBetween, IsToldOf, image_at, told_text};

use crate::comment::unasked_answer;
use crate::dominator_rows::{dominated_answer, dominator_answer, dominators_answer};
use crate::shown_chain::chain_lines;
use heap_class::Refusal;
use heap_pins::PinView;
use heap_questions::Wanted;
use heap_trail::Machine;
use question_grammar::{Bookmarks, Question, chain_in, question_in};
use question_rows::{
    born_answer, cells_answer, classes_answer, cycles_answer, diff_text, dropped_answer,
    garbage_text, growth_answer, histogram_text, history_answer, kept_text, life_answer,
    objects_answer, path_answer, paths_answer, pins_answer, referrers_answer, regions_answer,
    registers_answer, retained_answer, show_answer, shows_mark, status_answer, values_answer,
    watch_answer, when_answer, when_count_answer, writes_answer, wrote_answer,
};
use question_words::{At, SlotRange, Unanswered, moment_at, reason_line, view_of};
use session_text::LineAnswer;
use std::alloc::Global;

// What a question asks about one state.
#[derive(Clone, Copy)]
enum StateQuestion {
    // How many objects there are of each class, and their bytes.
    Histogram,
    // The same of the objects that no register reaches.
    Garbage,
    // What each register names.
    Registers,
    // The classes.
    Classes,
    // The objects that are wanted.
    Objects(Wanted),
    // The words that a slot holds in the objects of a class.
    Values {
        class: u64,
        slot: u64,
    },
    // What names the object with this id.
    Referrers(u64),
    // Why the object with this id is alive.
    Path(u64),
    // The same in several ways: how many paths, at most.
    Paths {
        id: u64,
        most: u64,
    },
    // What is reached, and wouldn't be without the object with this id, as a histogram has it.
    Retained(u64),
    // The objects that no other dominates: how many rows, or all.
    Dominators(Option<u64>),
    // What the object with this id dominates immediately: how many rows, or all.
    Dominated {
        id: u64,
        most: Option<u64>,
    },
    // What dominates the object with this id.
    Dominator(u64),
    // Slots of an object, and whether it is marked.
    Show {
        id: u64,
        slots: SlotRange,
        marked: bool,
    },
}

// What a question asks about two states.
#[derive(Clone, Copy)]
enum PairQuestion {
    // The rows of a histogram that differ.
    Growth,
    // What is reached in the newer state and isn't in the older, as a histogram has it.
    Kept,
    // What differs between their objects.
    Diff,
}

/// Returns the answer of a question about a machine, which may have a chronicle of this length, or the refusal NoMemory if an
/// allocation fails.
pub fn answer(alloc: Global, machine: &Machine, acts: Option<u64>, question: Question) -> LineAnswer
    ensures { IsAnswer question machine.now acts (line_answer_text result) }
{
    match question {
        Question::Histogram(at) => state_answer(alloc, machine, at, StateQuestion::Histogram),
        Question::Garbage(at) => state_answer(alloc, machine, at, StateQuestion::Garbage),
        Question::Growth { older, newer } => {
            pair_answer(alloc, machine, older, newer, PairQuestion::Growth)
        }
        Question::Kept { older, newer } => {
            pair_answer(alloc, machine, older, newer, PairQuestion::Kept)
        }
        Question::Diff { older, newer } => {
            pair_answer(alloc, machine, older, newer, PairQuestion::Diff)
        }
        Question::Registers(at) => state_answer(alloc, machine, at, StateQuestion::Registers),
        Question::Classes(at) => state_answer(alloc, machine, at, StateQuestion::Classes),
        Question::Objects { at, wanted } => {
            state_answer(alloc, machine, at, StateQuestion::Objects(wanted))
        }
        Question::Values { at, class, slot } => {
            state_answer(alloc, machine, at, StateQuestion::Values { class, slot })
        }
        Question::Referrers { at, id } => {
            state_answer(alloc, machine, at, StateQuestion::Referrers(id))
        }
        Question::Path { at, id } => state_answer(alloc, machine, at, StateQuestion::Path(id)),
        Question::Paths { at, id, most } => {
            state_answer(alloc, machine, at, StateQuestion::Paths { id, most })
        }
        Question::Retained { at, id } => {
            state_answer(alloc, machine, at, StateQuestion::Retained(id))
        }
        Question::Dominators { at, most } => {
            state_answer(alloc, machine, at, StateQuestion::Dominators(most))
        }
        Question::Dominated { at, id, most } => {
            state_answer(alloc, machine, at, StateQuestion::Dominated { id, most })
        }
        Question::Dominator { at, id } => {
            state_answer(alloc, machine, at, StateQuestion::Dominator(id))
        }
        Question::Show { at, id, slots } => {
            let marked = shows_mark(machine, at, id);
            state_answer(
                alloc,
                machine,
                at,
                StateQuestion::Show { id, slots, marked },
            )
        }
        Question::Born { to, id } => born_answer(machine, to, id),
        Question::Wrote { to, id, slot } => wrote_answer(alloc, machine, to, id, slot),
        Question::Watch { id, slot, to } => line_answer(watch_answer(alloc, machine, id, slot, to)),
        Question::Writes { class, slot, span } => {
            line_answer(writes_answer(alloc, machine, class, slot, span))
        }
        Question::When { wanted, span } => when_answer(alloc, machine, wanted, span),
        Question::WhenCount { class, least, span } => {
            when_count_answer(alloc, machine, class, least, span)
        }
        Question::Dropped { to, id } => dropped_answer(alloc, machine, to, id),
        Question::Life(id) => line_answer(life_answer(alloc, machine, id)),
        Question::History { to, count } => line_answer(history_answer(alloc, machine, to, count)),
        Question::Cycles => line_answer(cycles_answer(alloc, machine)),
        Question::Pins => line_answer(pins_answer(alloc, machine)),
        Question::Cells => line_answer(cells_answer(alloc, machine)),
        Question::Regions(at) => line_answer(regions_answer(alloc, machine, at)),
        Question::Status => line_answer(status_answer(alloc, machine, acts)),
    }
}

// Returns what is printed of a question about one state.
fn state_answer(alloc: Global, machine: &Machine, at: At, asked: StateQuestion) -> LineAnswer
    ensures { IsAnswerAbout (IsStateText asked machine.now.ids) (image_at at machine.now)
        (line_answer_text result) }
{
    line_answer(state_lines(alloc, machine, at, asked))
}

// Returns what is printed of the lines of an answer, or if there is none.
fn line_answer(lines: Result<Vec<u8>, Unanswered>) -> LineAnswer
    ensures { line_answer_text result ≡ told_text lines }
{
    match lines {
        Ok(text) => LineAnswer::Text(text),
        Err(reason) => reason_line(reason),
    }
}

// Returns the lines of a question about one state.
fn state_lines(
    alloc: Global,
    machine: &Machine,
    at: At,
    asked: StateQuestion,
) -> Result<Vec<u8>, Unanswered>
    ensures { IsAnswerAbout (IsStateText asked machine.now.ids) (image_at at machine.now)
        (told_text result) }
{
    let moment = moment_at(machine, at)?;
    view_lines(alloc, &view_of(machine, &moment)?, asked)
}

// Returns the lines of a question about the state that a view shows.
fn view_lines(
    alloc: Global,
    view: &PinView<'_>,
    asked: StateQuestion,
) -> Result<Vec<u8>, Unanswered>
    ensures { IsToldOf (IsStateText asked view.now.ids) (pin_image view.now.pin view.now.state)
        (told_text result) }
{
    match asked {
        StateQuestion::Histogram => or_refused(histogram_text(alloc, view)),
        StateQuestion::Garbage => or_refused(garbage_text(alloc, view)),
        StateQuestion::Registers => or_refused(registers_answer(alloc, view)),
        StateQuestion::Classes => or_refused(classes_answer(alloc, view)),
        StateQuestion::Objects(wanted) => objects_answer(alloc, view, wanted),
        StateQuestion::Values { class, slot } => values_answer(alloc, view, class, slot),
        StateQuestion::Referrers(id) => referrers_answer(alloc, view, id),
        StateQuestion::Path(id) => path_answer(alloc, view, id),
        StateQuestion::Paths { id, most } => paths_answer(alloc, view, id, most),
        StateQuestion::Retained(id) => retained_answer(alloc, view, id),
        StateQuestion::Dominators(most) => or_refused(dominators_answer(alloc, view, most)),
        StateQuestion::Dominated { id, most } => dominated_answer(alloc, view, id, most),
        StateQuestion::Dominator(id) => dominator_answer(alloc, view, id),
        StateQuestion::Show { id, slots, marked } => show_answer(alloc, view, id, slots, marked),
    }
}

// Returns the lines, or the refusal as the reason why there are none.
fn or_refused(lines: Result<Vec<u8>, Refusal>) -> Result<Vec<u8>, Unanswered>
    ensures { told_text result ≡ lines_text lines }
{
    Ok(lines?)
}

// Returns what is printed of a question about two states.
fn pair_answer(
    alloc: Global,
    machine: &Machine,
    older: At,
    newer: At,
    asked: PairQuestion,
) -> LineAnswer
    ensures { IsAnswerBetween (IsPairText asked machine.now.ids) (image_at older machine.now)
        (image_at newer machine.now) (line_answer_text result) }
{
    line_answer(lines_between(alloc, machine, older, newer, asked))
}

// Returns the lines of a question about two states. Both are held before either is looked at.
fn lines_between(
    alloc: Global,
    machine: &Machine,
    older: At,
    newer: At,
    asked: PairQuestion,
) -> Result<Vec<u8>, Unanswered>
    ensures { IsAnswerBetween (IsPairText asked machine.now.ids) (image_at older machine.now)
        (image_at newer machine.now) (told_text result) }
{
    let moment = moment_at(machine, older)?;
    lines_since(alloc, machine, &view_of(machine, &moment)?, newer, asked)
}

// Returns the lines of a question about the state that a view of the machine shows and a newer state.
fn lines_since(
    alloc: Global,
    machine: &Machine,
    older: &PinView<'_>,
    newer: At,
    asked: PairQuestion,
) -> Result<Vec<u8>, Unanswered>
    requires { older.now.ids ≡ machine.now.ids }
    ensures { IsAnswerBesides
        (IsPairText asked machine.now.ids (pin_image older.now.pin older.now.state))
        (image_at newer machine.now) (told_text result) }
{
    let moment = moment_at(machine, newer)?;
    pair_lines(alloc, older, &view_of(machine, &moment)?, asked)
}

// Returns the lines of a question about two states, which two views show.
fn pair_lines(
    alloc: Global,
    older: &PinView<'_>,
    newer: &PinView<'_>,
    asked: PairQuestion,
) -> Result<Vec<u8>, Unanswered>
    requires { older.now.ids ≡ newer.now.ids }
    ensures { IsToldOf
        (IsPairText asked newer.now.ids (pin_image older.now.pin older.now.state))
        (pin_image newer.now.pin newer.now.state) (told_text result) }
{
    match asked {
        PairQuestion::Growth => or_refused(growth_answer(alloc, older, newer)),
        PairQuestion::Kept => or_refused(kept_text(alloc, older, newer)),
        PairQuestion::Diff => or_refused(diff_text(alloc, older, newer)),
    }
}

/// Returns the answer of a line that the grammar of sessions doesn't know: that of a question about a machine, which may have
/// a chronicle of this length, or of `help`; and `bad command`, if it is neither. A question may name classes and fields of the
/// current state where their numbers may stand, and places by the session's bookmarks; `show` along fields may name those of the
/// state that it is about. Answers NoMemory if an allocation fails. The line `collect` is no question.
pub fn answer_line(
    alloc: Global,
    machine: &Machine,
    acts: Option<u64>,
    bookmarks: &Bookmarks,
    line: &[u8],
) -> LineAnswer
    ensures { IsAnswerOfLine line.now machine.now acts bookmarks.now (line_answer_text result) }
{
    match question_in(bookmarks, machine.world(), line) {
        Some(question) => answer(alloc, machine, acts, question),
        None => chain_answer(alloc, machine, bookmarks, line),
    }
}

// Returns the answer of a line that is none of these questions: that of `show` along fields, or of a line that asks nothing.
fn chain_answer(alloc: Global, machine: &Machine, bookmarks: &Bookmarks, line: &[u8]) -> LineAnswer
    ensures { IsAnswerAlong (chain_of bookmarks.now line.now) line.now machine.now
        (line_answer_text result) }
{
    match chain_in(bookmarks, line) {
        Some(chain) => line_answer(chain_lines(alloc, machine, chain)),
        None => unasked_answer(line),
    }
}
