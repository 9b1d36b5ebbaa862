//! The grammar of questions.
ghost use Rattle.std.specs.Prelude.{◌≡◌, drop, option_map};
ghost use Rattle.session_grammar.specs.Grammar.{words_of_line};
ghost use Rattle.question_words.specs.Ids.{id_of_word};
ghost use Rattle.question_grammar.specs.Questions.{at_and_paths, at_and_slot, at_and_wanted, at_of_word, at_or_number, class_and_slot, dominated_by, dominators_by, dominators_of, holding, holding_behind, id_and_number, id_and_paths, numbers_and_span, one_id, optional_at, optional_at_and_id, optional_ats, past_rules, path_count, place_and_id, place_and_number, place_and_slot, place_behind, place_of, place_of_word, question_by, question_of, question_rules, show_by, show_of, slot_and_place, slots_named, span_and_class, span_of, value_of_word, wanted_of, when_of};

use crate::bookmarks::Bookmarks;
use heap_questions::Wanted;
use question_words::{At, SlotRange, Span, id_of};
use session_grammar::command::{at_end, next_number, two_numbers};
use session_grammar::number::number_of;
use session_grammar::words::{Words, is_word};

/// The most paths that `paths` is answered with.
pub const PATH_LIMIT: u64 = 256;

/// A question that a line asks.
#[derive(Clone, Copy)]
pub enum Question {
    /// How many objects there are of each class, and their bytes.
    Histogram(At),
    /// The same of the objects that no register reaches.
    Garbage(At),
    /// The rows of a histogram that differ between two states.
    Growth { older: At, newer: At },
    /// What is reached in the newer state and isn't in the older, as a histogram has it.
    Kept { older: At, newer: At },
    /// What differs between the objects of two states.
    Diff { older: At, newer: At },
    /// What each register names.
    Registers(At),
    /// The classes.
    Classes(At),
    /// The objects that are wanted.
    Objects { at: At, wanted: Wanted },
    /// The words that a slot holds in the objects of a class.
    Values { at: At, class: u64, slot: u64 },
    /// What names an object.
    Referrers { at: At, id: u64 },
    /// Why an object is alive: a shortest path from a register.
    Path { at: At, id: u64 },
    /// Why an object is alive, in several ways: up to this many paths of which no two start alike.
    Paths { at: At, id: u64, most: u64 },
    /// What is reached, and wouldn't be without an object, as a histogram has it.
    Retained { at: At, id: u64 },
    /// The objects that no other dominates, with what each dominates: how many rows, or all.
    Dominators { at: At, most: Option<u64> },
    /// The objects that an object dominates immediately, with what each dominates: how many rows, or all.
    Dominated { at: At, id: u64, most: Option<u64> },
    /// The objects without which an object wouldn't be reached, one above the other.
    Dominator { at: At, id: u64 },
    /// Slots of an object.
    Show { at: At, id: u64, slots: SlotRange },
    /// When an object was made, by the steps up to a place, or to the current state.
    Born { to: Option<u64>, id: u64 },
    /// When a slot of an object last changed, by the steps up to a place, or to the current state.
    Wrote { to: Option<u64>, id: u64, slot: u64 },
    /// The changes of a slot of an object by the steps up to a place, or to the current state.
    Watch { id: u64, slot: u64, to: Option<u64> },
    /// The changes of a slot of all objects of a class by some steps.
    Writes { class: u64, slot: u64, span: Span },
    /// The first of some retained places at which an object is wanted: those that the steps led to, and the one before them.
    When { wanted: Wanted, span: Span },
    /// The first of these places at which a class has at least `least` live objects.
    WhenCount { class: u64, least: u64, span: Span },
    /// When registers lost an object, by the steps up to a place, or to the current state.
    Dropped { to: Option<u64>, id: u64 },
    /// What the retained steps did to each object that had an id.
    Life(u64),
    /// What the newest retained steps did, of those that led to a place, or to the current state: how many of them.
    History { to: Option<u64>, count: u64 },
    /// The cycles that the retained steps ended.
    Cycles,
    /// The open pins.
    Pins,
    /// What each cell of the regions in use holds.
    Cells,
    /// How many objects each region in use has.
    Regions(At),
    /// Where the heap and its collector are.
    Status,
}

/// Returns the state that a word names in a session with these bookmarks, or None if it names none. Takes no memory.
#[tactic(auto, unfolding(crate::specs::Questions::at_of_word))]
pub fn at_of(bookmarks: &Bookmarks, word: &[u8]) -> Option<At>
    ensures { result ≡ at_of_word bookmarks.now word.now }
{
    if is_word(word, b"-") {
        return Some(At::Current);
    }
    match word {
        [b'@', place @ ..] => Some(At::Place(place_behind(bookmarks, place)?)),
        _ => Some(At::Pin(number_of(word)?)),
    }
}

// Returns the place that a word names behind `@`: by its number, or by its name.
fn place_behind(bookmarks: &Bookmarks, word: &[u8]) -> Option<u64>
    ensures { result ≡ place_behind bookmarks.now word.now }
{
    match number_of(word) {
        Some(place) => Some(place),
        None => bookmarks.place_named(word),
    }
}

/// Returns the question that a line asks in a session with these bookmarks, or None if it asks none.
#[tactic(auto, unfolding(crate::specs::Questions::question_of_words, crate::specs::Questions::question_rules))]
pub fn question_of(bookmarks: &Bookmarks, line: &[u8]) -> Option<Question>
    ensures { result ≡ question_of bookmarks.now line.now }
{
    let mut words = Words::new(line);
    let keyword = words.next_word()?;
    if is_word(keyword, b"histogram") {
        return Some(Question::Histogram(optional_at(bookmarks, words)?));
    }
    if is_word(keyword, b"garbage") {
        return Some(Question::Garbage(optional_at(bookmarks, words)?));
    }
    if is_word(keyword, b"registers") {
        return Some(Question::Registers(optional_at(bookmarks, words)?));
    }
    if is_word(keyword, b"growth") {
        let (older, newer) = optional_ats(bookmarks, words)?;
        return Some(Question::Growth { older, newer });
    }
    if is_word(keyword, b"classes") {
        return Some(Question::Classes(optional_at(bookmarks, words)?));
    }
    later_question(bookmarks, keyword, words)
}

// Returns the one state that the words name. If there are no words, it is that of the session.
fn optional_at(bookmarks: &Bookmarks, mut words: Words) -> Option<At>
    ensures { result ≡ optional_at bookmarks.now (words_of_line words.entry) }
{
    let Some(word) = words.next_word() else {
        return Some(bookmarks.default_at());
    };
    at_end(at_of(bookmarks, word)?, words)
}

// Returns the two states that the words name. The second is the current one if only one is named, and the first that of the session
// if none is.
fn optional_ats(bookmarks: &Bookmarks, mut words: Words) -> Option<(At, At)>
    ensures { result ≡ optional_ats bookmarks.now (words_of_line words.entry) }
{
    let Some(word) = words.next_word() else {
        return Some((bookmarks.default_at(), At::Current));
    };
    let Some(second) = words.next_word() else {
        return Some((at_of(bookmarks, word)?, At::Current));
    };
    at_end((at_of(bookmarks, word)?, at_of(bookmarks, second)?), words)
}

// Reads the words behind a keyword of a question about objects, retained steps, pins or the current state.
#[tactic(auto, unfolding(crate::specs::Questions::question_rules))]
fn later_question(bookmarks: &Bookmarks, keyword: &[u8], words: Words) -> Option<Question>
    ensures { result
        ≡ question_by (drop 5 (question_rules bookmarks.now)) keyword.now
        (words_of_line words.entry) }
{
    if is_word(keyword, b"objects") {
        let (at, wanted) = at_and_wanted(bookmarks, words)?;
        return Some(Question::Objects { at, wanted });
    }
    if is_word(keyword, b"values") {
        let (at, (class, slot)) = at_and_slot(bookmarks, words)?;
        return Some(Question::Values { at, class, slot });
    }
    if is_word(keyword, b"kept") {
        let (older, newer) = optional_ats(bookmarks, words)?;
        return Some(Question::Kept { older, newer });
    }
    if is_word(keyword, b"diff") {
        let (older, newer) = optional_ats(bookmarks, words)?;
        return Some(Question::Diff { older, newer });
    }
    if is_word(keyword, b"referrers") {
        let (at, id) = optional_at_and_id(bookmarks, words)?;
        return Some(Question::Referrers { at, id });
    }
    if is_word(keyword, b"path") {
        let (at, id) = optional_at_and_id(bookmarks, words)?;
        return Some(Question::Path { at, id });
    }
    if is_word(keyword, b"paths") {
        let (at, (id, most)) = at_and_paths(bookmarks, words)?;
        return Some(Question::Paths { at, id, most });
    }
    if is_word(keyword, b"retained") {
        let (at, id) = optional_at_and_id(bookmarks, words)?;
        return Some(Question::Retained { at, id });
    }
    if is_word(keyword, b"dominators") {
        return dominators_of(bookmarks, words);
    }
    if is_word(keyword, b"dominator") {
        let (at, id) = optional_at_and_id(bookmarks, words)?;
        return Some(Question::Dominator { at, id });
    }
    if is_word(keyword, b"show") {
        return show_of(bookmarks, words);
    }
    past_question(bookmarks, keyword, words)
}

// Returns the state and the objects that the words name. If there are no words, it is the state of the session.
fn at_and_wanted(bookmarks: &Bookmarks, mut words: Words) -> Option<(At, Wanted)>
    ensures { result ≡ at_and_wanted bookmarks.now (words_of_line words.entry) }
{
    let Some(word) = words.next_word() else {
        return Some((bookmarks.default_at(), Wanted::All));
    };
    let at = at_of(bookmarks, word)?;
    Some((at, wanted_of(words)?))
}

// Returns the objects that the words name: all, those of a class, or those of a class with a value in a slot.
fn wanted_of(mut words: Words) -> Option<Wanted>
    ensures { result ≡ wanted_of (words_of_line words.entry) }
{
    let Some(first) = words.next_word() else {
        return Some(Wanted::All);
    };
    let class = number_of(first)?;
    let Some(second) = words.next_word() else {
        return Some(Wanted::OfClass(class));
    };
    let slot = number_of(second)?;
    let third = words.next_word()?;
    let word = value_of(third)?;
    at_end(Wanted::Holding { class, slot, word }, words)
}

// Returns the state, and the class and the slot, that the words name. If they name no state, it is that of the session.
fn at_and_slot(bookmarks: &Bookmarks, mut words: Words) -> Option<(At, (u64, u64))>
    ensures { result ≡ at_and_slot bookmarks.now (words_of_line words.entry) }
{
    let first = words.next_word()?;
    let second = words.next_word()?;
    let Some(third) = words.next_word() else {
        return Some((bookmarks.default_at(), class_and_slot(first, second)?));
    };
    at_end(
        (at_of(bookmarks, first)?, class_and_slot(second, third)?),
        words,
    )
}

// Returns the class and the slot that two words name.
fn class_and_slot(class: &[u8], slot: &[u8]) -> Option<(u64, u64)>
    ensures { result ≡ class_and_slot class.now slot.now }
{
    Some((number_of(class)?, number_of(slot)?))
}

// Returns the state and the id that the words name. If they are only an id, the state is that of the session.
fn optional_at_and_id(bookmarks: &Bookmarks, mut words: Words) -> Option<(At, u64)>
    ensures { result ≡ optional_at_and_id bookmarks.now (words_of_line words.entry) }
{
    let word = words.next_word()?;
    let Some(second) = words.next_word() else {
        return Some((bookmarks.default_at(), id_of(word)?));
    };
    at_end((at_of(bookmarks, word)?, id_of(second)?), words)
}

// Returns the state, and the id and the number of paths, that the words name. If they name no state, it is that of the session.
fn at_and_paths(bookmarks: &Bookmarks, mut words: Words) -> Option<(At, (u64, u64))>
    ensures { result ≡ at_and_paths bookmarks.now (words_of_line words.entry) }
{
    let first = words.next_word()?;
    let second = words.next_word()?;
    let Some(third) = words.next_word() else {
        return Some((bookmarks.default_at(), id_and_paths(first, second)?));
    };
    at_end(
        (at_of(bookmarks, first)?, id_and_paths(second, third)?),
        words,
    )
}

// Returns the id and the number of paths that two words are.
fn id_and_paths(word: &[u8], second: &[u8]) -> Option<(u64, u64)>
    ensures { result ≡ id_and_paths word.now second.now }
{
    Some((id_of(word)?, path_count(second)?))
}

// Returns the number of paths that a word is, from 1 to `PATH_LIMIT`.
fn path_count(word: &[u8]) -> Option<u64>
    ensures { result ≡ path_count word.now }
{
    let count = number_of(word)?;
    if 0 < count && count <= PATH_LIMIT {
        Some(count)
    } else {
        None
    }
}

// Reads the words behind `dominators`: a state, an id and a number of rows, each if it is named. A single number is that of rows.
fn dominators_of(bookmarks: &Bookmarks, mut words: Words) -> Option<Question>
    ensures { result ≡ dominators_of bookmarks.now (words_of_line words.entry) }
{
    let Some(word) = words.next_word() else {
        let at = bookmarks.default_at();
        return Some(Question::Dominators { at, most: None });
    };
    if let Some(id) = id_of(word) {
        return dominated_by(bookmarks.default_at(), id, words);
    }
    let Some(second) = words.next_word() else {
        let (at, most) = at_or_number(bookmarks, word)?;
        return Some(Question::Dominators { at, most });
    };
    let at = at_of(bookmarks, word)?;
    dominators_by(at, second, words)
}

// Reads the words behind an id: a number of rows, if there is one.
fn dominated_by(at: At, id: u64, mut words: Words) -> Option<Question>
    ensures { result ≡ dominated_by at id (words_of_line words.entry) }
{
    let Some(word) = words.next_word() else {
        let most = None;
        return Some(Question::Dominated { at, id, most });
    };
    let most = Some(number_of(word)?);
    at_end(Question::Dominated { at, id, most }, words)
}

// Returns the number that a word is, about the state of the session, or the state that it names, without a number.
fn at_or_number(bookmarks: &Bookmarks, word: &[u8]) -> Option<(At, Option<u64>)>
    ensures { result ≡ at_or_number bookmarks.now word.now }
{
    match number_of(word) {
        Some(number) => Some((bookmarks.default_at(), Some(number))),
        None => Some((at_of(bookmarks, word)?, None)),
    }
}

// Reads a word, an id or a number of rows, and those behind it.
fn dominators_by(at: At, word: &[u8], words: Words) -> Option<Question>
    ensures { result ≡ dominators_by at (id_of_word word.now) word.now (words_of_line words.entry) }
{
    if let Some(id) = id_of(word) {
        return dominated_by(at, id, words);
    }
    let most = Some(number_of(word)?);
    at_end(Question::Dominators { at, most }, words)
}

// Reads the words behind `show`: a state, if it is named, an id and the slots. Only the id begins with `0x`.
fn show_of(bookmarks: &Bookmarks, mut words: Words) -> Option<Question>
    ensures { result ≡ show_of bookmarks.now (words_of_line words.entry) }
{
    let word = words.next_word()?;
    if let Some(id) = id_of(word) {
        return show_by(bookmarks.default_at(), id, words);
    }
    let at = at_of(bookmarks, word)?;
    let second = words.next_word()?;
    show_by(at, id_of(second)?, words)
}

// Reads the words behind an id: the slots.
fn show_by(at: At, id: u64, words: Words) -> Option<Question>
    ensures { result ≡ show_by at id (words_of_line words.entry) }
{
    let slots = slots_of(words)?;
    Some(Question::Show { at, id, slots })
}

// Returns the slots that the words name: all if there are no words, else the number of the first and how many.
fn slots_of(mut words: Words) -> Option<SlotRange>
    ensures { result ≡ slots_named (words_of_line words.entry) }
{
    let Some(word) = words.next_word() else {
        return Some(SlotRange::AllSlots);
    };
    let first = number_of(word)?;
    let count = next_number(&mut words)?;
    at_end(SlotRange::FromSlot { first, count }, words)
}

// Reads the words behind a keyword of a question about what retained steps did, about pins, or about the current state.
#[tactic(auto, unfolding(crate::specs::Questions::past_rules))]
fn past_question(bookmarks: &Bookmarks, keyword: &[u8], words: Words) -> Option<Question>
    ensures { result
        ≡ question_by (past_rules bookmarks.now) keyword.now (words_of_line words.entry) }
{
    if is_word(keyword, b"born") {
        let (to, id) = place_and_id(bookmarks, words)?;
        return Some(Question::Born { to, id });
    }
    if is_word(keyword, b"dropped") {
        let (to, id) = place_and_id(bookmarks, words)?;
        return Some(Question::Dropped { to, id });
    }
    if is_word(keyword, b"life") {
        return Some(Question::Life(one_id(words)?));
    }
    if is_word(keyword, b"cycles") {
        return at_end(Question::Cycles, words);
    }
    if is_word(keyword, b"pins") {
        return at_end(Question::Pins, words);
    }
    if is_word(keyword, b"cells") {
        return at_end(Question::Cells, words);
    }
    if is_word(keyword, b"regions") {
        return Some(Question::Regions(optional_at(bookmarks, words)?));
    }
    if is_word(keyword, b"status") {
        return at_end(Question::Status, words);
    }
    if is_word(keyword, b"history") {
        let (to, count) = place_and_number(bookmarks, words)?;
        return Some(Question::History { to, count });
    }
    if is_word(keyword, b"wrote") {
        let (to, (id, slot)) = place_and_slot(bookmarks, words)?;
        return Some(Question::Wrote { to, id, slot });
    }
    if is_word(keyword, b"watch") {
        let ((id, slot), to) = slot_and_place(bookmarks, words)?;
        return Some(Question::Watch { id, slot, to });
    }
    if is_word(keyword, b"writes") {
        let ((class, slot), span) = numbers_and_span(bookmarks, words)?;
        return Some(Question::Writes { class, slot, span });
    }
    if is_word(keyword, b"when") {
        return when_of(bookmarks, words);
    }
    None
}

// Returns the place and the id that the words name. If they are only an id, the place is that of the session.
fn place_and_id(bookmarks: &Bookmarks, mut words: Words) -> Option<(Option<u64>, u64)>
    ensures { result ≡ place_and_id bookmarks.now (words_of_line words.entry) }
{
    let word = words.next_word()?;
    let Some(second) = words.next_word() else {
        return Some((bookmarks.at(), id_of(word)?));
    };
    at_end((place_of_word(bookmarks, word)?, id_of(second)?), words)
}

// Returns the id that the words are.
fn one_id(mut words: Words) -> Option<u64>
    ensures { result ≡ one_id (words_of_line words.entry) }
{
    let word = words.next_word()?;
    at_end(id_of(word)?, words)
}

// Returns the place and the number that the words name. If they are only a number, the place is that of the session.
fn place_and_number(bookmarks: &Bookmarks, mut words: Words) -> Option<(Option<u64>, u64)>
    ensures { result ≡ place_and_number bookmarks.now (words_of_line words.entry) }
{
    let word = words.next_word()?;
    let Some(second) = words.next_word() else {
        return Some((bookmarks.at(), number_of(word)?));
    };
    at_end((place_of_word(bookmarks, word)?, number_of(second)?), words)
}

// Returns the place, and the id and the number, that the words name. If they are only an id and a number, the place is that of the
// session.
fn place_and_slot(bookmarks: &Bookmarks, mut words: Words) -> Option<(Option<u64>, (u64, u64))>
    ensures { result ≡ place_and_slot bookmarks.now (words_of_line words.entry) }
{
    let word = words.next_word()?;
    let second = words.next_word()?;
    let Some(third) = words.next_word() else {
        return Some((bookmarks.at(), id_and_number(word, second)?));
    };
    at_end(
        (
            place_of_word(bookmarks, word)?,
            id_and_number(second, third)?,
        ),
        words,
    )
}

// Returns the id and the number that two words are.
fn id_and_number(word: &[u8], second: &[u8]) -> Option<(u64, u64)>
    ensures { result ≡ id_and_number word.now second.now }
{
    Some((id_of(word)?, number_of(second)?))
}

// Returns the id and the number, and the place, that the words name. If they are only an id and a number, the place is that of the
// session.
fn slot_and_place(bookmarks: &Bookmarks, mut words: Words) -> Option<((u64, u64), Option<u64>)>
    ensures { result ≡ slot_and_place bookmarks.now (words_of_line words.entry) }
{
    let word = words.next_word()?;
    let second = words.next_word()?;
    let Some(third) = words.next_word() else {
        return Some((id_and_number(word, second)?, bookmarks.at()));
    };
    at_end(
        (
            id_and_number(word, second)?,
            place_of_word(bookmarks, third)?,
        ),
        words,
    )
}

// Returns the two numbers, and the steps, that the words name.
fn numbers_and_span(bookmarks: &Bookmarks, mut words: Words) -> Option<((u64, u64), Span)>
    ensures { result ≡ numbers_and_span bookmarks.now (words_of_line words.entry) }
{
    let first = next_number(&mut words)?;
    let second = next_number(&mut words)?;
    Some(((first, second), span_of(bookmarks, words)?))
}

// Reads the words behind `when`: up to two places, and then behind `count` a class and a number of objects, else a class, a slot
// and a value.
fn when_of(bookmarks: &Bookmarks, mut words: Words) -> Option<Question>
    ensures { result ≡ when_of bookmarks.now (words_of_line words.entry) }
{
    let (span, class) = span_and_class(bookmarks, &mut words)?;
    if is_word(class, b"count") {
        let (class, least) = two_numbers(words)?;
        return Some(Question::WhenCount { class, least, span });
    }
    let wanted = holding_behind(class, words)?;
    Some(Question::When { wanted, span })
}

// Returns the objects of a class that have the value in the slot that the words name.
fn holding_behind(class: &[u8], mut words: Words) -> Option<Wanted>
    ensures { result ≡ holding_behind class.now (words_of_line words.entry) }
{
    let slot = words.next_word()?;
    let value = words.next_word()?;
    at_end(holding(class, slot, value)?, words)
}

// Returns the objects of a class with a value in a slot, which three words name.
fn holding(class: &[u8], slot: &[u8], value: &[u8]) -> Option<Wanted>
    ensures { result ≡ holding class.now slot.now value.now }
{
    let (class, slot) = class_and_slot(class, slot)?;
    let word = value_of(value)?;
    Some(Wanted::Holding { class, slot, word })
}

// Reads up to two places, and the word of a class: the first word that names no place. Returns the steps that the places name, and
// that word.
pub(crate) fn span_and_class<'a>(
    bookmarks: &Bookmarks,
    words: &mut Words<'a>,
) -> Option<(Span, &'a [u8])>
    ensures { option_map (λ r. (r.0, (r.1.now, words_of_line words.new))) result
        ≡ span_and_class bookmarks.now (words_of_line words.old) }
{
    let first = words.next_word()?;
    let Some(after) = place_of_word(bookmarks, first) else {
        return Some((Span::AllSteps, first));
    };
    let second = words.next_word()?;
    let Some(to) = place_of_word(bookmarks, second) else {
        return Some((Span::Between { after, to: None }, second));
    };
    let class = words.next_word()?;
    Some((Span::Between { after, to }, class))
}

// Returns the word that a word tells: an id, `null` or a number. Returns None if it tells none.
#[tactic(auto, unfolding(crate::specs::Questions::value_of_word))]
pub(crate) fn value_of(word: &[u8]) -> Option<u64>
    ensures { result ≡ value_of_word word.now }
{
    if is_word(word, b"null") {
        return Some(0);
    }
    match id_of(word) {
        Some(id) => Some(id),
        None => number_of(word),
    }
}

// Returns the place of the state that a word names.
pub(crate) fn place_of_word(bookmarks: &Bookmarks, word: &[u8]) -> Option<Option<u64>>
    ensures { result ≡ place_of_word bookmarks.now word.now }
{
    place_of(at_of(bookmarks, word)?)
}

// Returns the place of a state, or None of a pin: it may keep a state that the retained steps don't lead to.
fn place_of(at: At) -> Option<Option<u64>>
    ensures { result ≡ place_of at }
{
    match at {
        At::Current => Some(None),
        At::Place(place) => Some(Some(place)),
        At::Pin(_) => None,
    }
}

// Returns the steps that the words name: all if there are no words.
pub(crate) fn span_of(bookmarks: &Bookmarks, mut words: Words) -> Option<Span>
    ensures { result ≡ span_of bookmarks.now (words_of_line words.entry) }
{
    let Some(word) = words.next_word() else {
        return Some(Span::AllSteps);
    };
    let after = place_of_word(bookmarks, word)?;
    let Some(second) = words.next_word() else {
        return Some(Span::Between { after, to: None });
    };
    let to = place_of_word(bookmarks, second)?;
    at_end(Span::Between { after, to }, words)
}
