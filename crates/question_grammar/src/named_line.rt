//! Lines of questions that name classes and fields.
ghost use Rattle.std.specs.Prelude.{◌≡◌};
ghost use Rattle.session_grammar.specs.Grammar.{words_of_line};
ghost use Rattle.question_grammar.specs.NamedLines.{count_named, holding_behind_named, holding_named, named_question_of_words, objects_named, question_in, values_named, watch_named, when_named, write_named, writes_named};

use crate::bookmarks::Bookmarks;
use crate::name_words::{class_and_slot_named, class_of, id_and_slot_named};
use crate::question::{
    Question, at_of, place_of_word, question_of, span_and_class, span_of, value_of,
};
use heap_class::FirstClasses;
use heap_questions::Wanted;
use heap_world::World;
use question_words::{At, Span};
use session_grammar::command::{at_end, next_number};
use session_grammar::words::{Words, is_word};

/// Returns the question that a line asks in a session with these bookmarks: if it asks none by numbers alone, the one that it asks
/// by names of the current state's classes and fields. Returns None if it asks none. Takes no memory.
pub fn question_in(bookmarks: &Bookmarks, world: &World, line: &[u8]) -> Option<Question>
    ensures { result ≡ question_in bookmarks.now world.now line.now }
{
    match question_of(bookmarks, line) {
        Some(question) => Some(question),
        None => named_question(bookmarks, world, line),
    }
}

// Returns the question that a line asks, which may name classes and fields, or None if it takes no class and no slot.
#[tactic(auto, unfolding(crate::specs::NamedLines::named_question_of_words, crate::specs::NamedLines::named_rules))]
fn named_question(bookmarks: &Bookmarks, world: &World, line: &[u8]) -> Option<Question>
    ensures { result ≡ named_question_of_words bookmarks.now world.now (words_of_line line.now) }
{
    let classes = world.classes().all();
    let mut words = Words::new(line);
    let keyword = words.next_word()?;
    if is_word(keyword, b"objects") {
        let (at, wanted) = objects_named(bookmarks, &classes, words)?;
        return Some(Question::Objects { at, wanted });
    }
    if is_word(keyword, b"values") {
        let (at, (class, slot)) = values_named(bookmarks, &classes, words)?;
        return Some(Question::Values { at, class, slot });
    }
    if is_word(keyword, b"wrote") {
        let (to, (id, slot)) = write_named(bookmarks, world, words)?;
        return Some(Question::Wrote { to, id, slot });
    }
    if is_word(keyword, b"watch") {
        let ((id, slot), to) = watch_named(bookmarks, world, words)?;
        return Some(Question::Watch { id, slot, to });
    }
    if is_word(keyword, b"writes") {
        let ((class, slot), span) = writes_named(bookmarks, &classes, words)?;
        return Some(Question::Writes { class, slot, span });
    }
    if is_word(keyword, b"when") {
        return when_named(bookmarks, &classes, words);
    }
    None
}

// Returns the state, and a class or a class with a value in a slot, that the words name. If they name no state, it is that of
// the session.
#[tactic(auto, unfolding(crate::specs::NamedLines::objects_named))]
fn objects_named(
    bookmarks: &Bookmarks,
    classes: &FirstClasses<'_>,
    mut words: Words,
) -> Option<(At, Wanted)>
    ensures { result ≡ objects_named bookmarks.now classes.now (words_of_line words.entry) }
{
    let first = words.next_word()?;
    let Some(second) = words.next_word() else {
        return Some((
            bookmarks.default_at(),
            Wanted::OfClass(class_of(classes, first)?),
        ));
    };
    let Some(third) = words.next_word() else {
        let at = at_of(bookmarks, first)?;
        return Some((at, Wanted::OfClass(class_of(classes, second)?)));
    };
    let Some(fourth) = words.next_word() else {
        return Some((
            bookmarks.default_at(),
            holding_named(classes, first, second, third)?,
        ));
    };
    let at = at_of(bookmarks, first)?;
    at_end((at, holding_named(classes, second, third, fourth)?), words)
}

// Returns the objects of a class with a value in a slot, which three words name.
#[tactic(auto, unfolding(crate::specs::NamedLines::holding_named))]
fn holding_named(
    classes: &FirstClasses<'_>,
    class: &[u8],
    slot: &[u8],
    value: &[u8],
) -> Option<Wanted>
    ensures { result ≡ holding_named classes.now class.now slot.now value.now }
{
    let (class, slot) = class_and_slot_named(classes, class, slot)?;
    let word = value_of(value)?;
    Some(Wanted::Holding { class, slot, word })
}

// Returns the state, and the class and the slot, that the words name. If they name no state, it is that of the session.
#[tactic(auto, unfolding(crate::specs::NamedLines::values_named))]
fn values_named(
    bookmarks: &Bookmarks,
    classes: &FirstClasses<'_>,
    mut words: Words,
) -> Option<(At, (u64, u64))>
    ensures { result ≡ values_named bookmarks.now classes.now (words_of_line words.entry) }
{
    let first = words.next_word()?;
    let second = words.next_word()?;
    let Some(third) = words.next_word() else {
        return Some((
            bookmarks.default_at(),
            class_and_slot_named(classes, first, second)?,
        ));
    };
    let at = at_of(bookmarks, first)?;
    at_end((at, class_and_slot_named(classes, second, third)?), words)
}

// Returns the place, and the id and the slot, that the words name. If they are only an id and a slot, the place is that of the
// session.
#[tactic(auto, unfolding(crate::specs::NamedLines::write_named))]
fn write_named(
    bookmarks: &Bookmarks,
    world: &World,
    mut words: Words,
) -> Option<(Option<u64>, (u64, u64))>
    ensures { result ≡ write_named bookmarks.now world.now (words_of_line words.entry) }
{
    let first = words.next_word()?;
    let second = words.next_word()?;
    let Some(third) = words.next_word() else {
        return Some((bookmarks.at(), id_and_slot_named(world, first, second)?));
    };
    let to = place_of_word(bookmarks, first)?;
    at_end((to, id_and_slot_named(world, second, third)?), words)
}

// Returns the id and the slot, and the place, that the words name. If they are only an id and a slot, the place is that of the
// session.
#[tactic(auto, unfolding(crate::specs::NamedLines::watch_named))]
fn watch_named(
    bookmarks: &Bookmarks,
    world: &World,
    mut words: Words,
) -> Option<((u64, u64), Option<u64>)>
    ensures { result ≡ watch_named bookmarks.now world.now (words_of_line words.entry) }
{
    let first = words.next_word()?;
    let second = words.next_word()?;
    let Some(third) = words.next_word() else {
        return Some((id_and_slot_named(world, first, second)?, bookmarks.at()));
    };
    let slot = id_and_slot_named(world, first, second)?;
    at_end((slot, place_of_word(bookmarks, third)?), words)
}

// Returns the class and the slot, and the steps, that the words name.
#[tactic(auto, unfolding(crate::specs::NamedLines::writes_named))]
fn writes_named(
    bookmarks: &Bookmarks,
    classes: &FirstClasses<'_>,
    mut words: Words,
) -> Option<((u64, u64), Span)>
    ensures { result ≡ writes_named bookmarks.now classes.now (words_of_line words.entry) }
{
    let first = words.next_word()?;
    let second = words.next_word()?;
    let slot = class_and_slot_named(classes, first, second)?;
    Some((slot, span_of(bookmarks, words)?))
}

// Reads the words behind `when`: up to two places, and then behind `count` a class and a number of objects, else a class, a slot
// and a value.
#[tactic(auto, unfolding(crate::specs::NamedLines::when_named))]
fn when_named(
    bookmarks: &Bookmarks,
    classes: &FirstClasses<'_>,
    mut words: Words,
) -> Option<Question>
    ensures { result ≡ when_named bookmarks.now classes.now (words_of_line words.entry) }
{
    let (span, class) = span_and_class(bookmarks, &mut words)?;
    if is_word(class, b"count") {
        let (class, least) = count_named(classes, words)?;
        return Some(Question::WhenCount { class, least, span });
    }
    let wanted = holding_behind_named(classes, class, words)?;
    Some(Question::When { wanted, span })
}

// Returns the class and the number of objects that the words name.
fn count_named(classes: &FirstClasses<'_>, mut words: Words) -> Option<(u64, u64)>
    ensures { result ≡ count_named classes.now (words_of_line words.entry) }
{
    let word = words.next_word()?;
    let class = class_of(classes, word)?;
    let least = next_number(&mut words)?;
    at_end((class, least), words)
}

// Returns the objects of a class that have the value in the slot that the words name.
fn holding_behind_named(
    classes: &FirstClasses<'_>,
    class: &[u8],
    mut words: Words,
) -> Option<Wanted>
    ensures { result ≡ holding_behind_named classes.now class.now (words_of_line words.entry) }
{
    let slot = words.next_word()?;
    let value = words.next_word()?;
    at_end(holding_named(classes, class, slot, value)?, words)
}
