//! Lines of events that name a class or a field: `class`, `new`, `newarray`, `load`, `store` and `put`.
ghost use Rattle.std.specs.Prelude.{◌≡◌, MatchResult};
ghost use Rattle.session_grammar.specs.Grammar.{words_of_line};
ghost use Rattle.session_grammar.specs.Reads.{IsNextWord};
ghost use Rattle.question_grammar.specs.NameWords.{class_named};
ghost use Rattle.question_grammar.specs.EventNames.{MayDefine, array_by_name, event_by_name, event_of_words, load_by_name, new_by_name, next_class, next_slot, object_event_by_name, slot_in_register, unless_number, word_in, write_by_name};

use crate::class_event::class_by_name;
use crate::name_words::{class_named, slot_of_object_named};
use heap_class::{ClassNo, FirstClasses};
use heap_step::Event;
use heap_world::{REGISTERS_EACH, World};
use session_grammar::command::{at_end, next_number};
use session_grammar::number::number_of;
use session_grammar::words::{Words, is_word};
use std::alloc::{AllocError, Global};

// Returns the event that a line asks for by a name of this state, or None if it asks for none. Fails if an allocation for a class
// fails.
pub(crate) fn event_in(
    alloc: Global,
    world: &World,
    line: &[u8],
) -> Result<Option<Event>, AllocError>
    ensures { MatchResult result (λ e. e ≡ event_of_words world.now (words_of_line line.now))
        (λ _. MayDefine (event_of_words world.now (words_of_line line.now))) }
{
    let mut words = Words::new(line);
    match words.next_word() {
        Some(keyword) => event_by_name(alloc, world, keyword, words),
        None => Ok(None),
    }
}

// Returns the event that the words behind a keyword ask for by a name. Fails if an allocation for a class fails.
#[tactic(auto, unfolding(crate::specs::EventNames::event_by_name))]
fn event_by_name(
    alloc: Global,
    world: &World,
    keyword: &[u8],
    words: Words,
) -> Result<Option<Event>, AllocError>
    ensures { MatchResult result
        (λ e. e ≡ event_by_name world.now keyword.now (words_of_line words.entry))
        (λ _. MayDefine (event_by_name world.now keyword.now (words_of_line words.entry))) }
{
    if is_word(keyword, b"class") {
        return class_by_name(alloc, &world.classes().all(), words);
    }
    Ok(object_event_by_name(world, keyword, words))
}

// Returns the event on an object that the words behind a keyword ask for by a name.
#[tactic(auto, unfolding(crate::specs::EventNames::object_event_by_name))]
fn object_event_by_name(world: &World, keyword: &[u8], words: Words) -> Option<Event>
    ensures { result ≡ object_event_by_name world.now keyword.now (words_of_line words.entry) }
{
    if is_word(keyword, b"new") {
        return new_by_name(&world.classes().all(), words);
    }
    if is_word(keyword, b"newarray") {
        return array_by_name(&world.classes().all(), words);
    }
    if is_word(keyword, b"load") {
        return load_by_name(world, words);
    }
    if is_word(keyword, b"store") {
        let (m, target, slot, source) = write_by_name(world, words)?;
        return Some(Event::Store {
            m,
            target,
            slot,
            source,
        });
    }
    if is_word(keyword, b"put") {
        let (m, target, slot, value) = write_by_name(world, words)?;
        return Some(Event::Put {
            m,
            target,
            slot,
            value,
        });
    }
    None
}

// Reads the words of `new M R NAME`.
fn new_by_name(classes: &FirstClasses<'_>, mut words: Words) -> Option<Event>
    ensures { result ≡ new_by_name classes.now (words_of_line words.entry) }
{
    let m = next_number(&mut words)?;
    let r = next_number(&mut words)?;
    let class = next_class(classes, &mut words)?;
    at_end(Event::New { m, r, class }, words)
}

// Reads the words of `newarray M R NAME LEN`.
fn array_by_name(classes: &FirstClasses<'_>, mut words: Words) -> Option<Event>
    ensures { result ≡ array_by_name classes.now (words_of_line words.entry) }
{
    let m = next_number(&mut words)?;
    let r = next_number(&mut words)?;
    let class = next_class(classes, &mut words)?;
    let len = next_number(&mut words)?;
    at_end(Event::NewArray { m, r, class, len }, words)
}

// Reads the words of `load M TO FROM NAME`.
fn load_by_name(world: &World, mut words: Words) -> Option<Event>
    ensures { result ≡ load_by_name world.now (words_of_line words.entry) }
{
    let m = next_number(&mut words)?;
    let to = next_number(&mut words)?;
    let from = next_number(&mut words)?;
    let slot = next_slot(world, m, from, &mut words)?;
    at_end(Event::Load { m, to, from, slot }, words)
}

// Reads the next word as the name of a field of the object in a register. Returns its slot, or None if the object has none with
// this name.
fn next_slot(world: &World, m: u64, r: u64, words: &mut Words) -> Option<u64>
    ensures { IsNextWord (next_slot world.now m r (words_of_line words.old))
        (words_of_line words.new) result }
{
    let word = words.next_word()?;
    slot_by_name(world, m, r, word)
}

// Returns the first slot with this name of the object in a register. A number names none.
fn slot_by_name(world: &World, m: u64, r: u64, word: &[u8]) -> Option<u64>
    ensures { result ≡ unless_number word.now (slot_in_register world.now m r word.now) }
{
    if number_of(word).is_some() {
        return None;
    }
    let id = word_in(world, m, r)?;
    slot_of_object_named(world, id, word)
}

// Returns the word of a register, or None if there is no such register.
#[tactic(auto, unfolding(crate::specs::EventNames::word_in))]
fn word_in(world: &World, m: u64, r: u64) -> Option<u64>
    ensures { result ≡ word_in world.now m r }
{
    let registers = world.registers();
    if r >= REGISTERS_EACH || m >= registers.len() as u64 {
        return None;
    }
    registers.get((REGISTERS_EACH * m + r) as usize).copied()
}

// Reads the words of `store M TARGET NAME SOURCE` or `put M TARGET NAME VALUE`.
fn write_by_name(world: &World, mut words: Words) -> Option<(u64, u64, u64, u64)>
    ensures { result ≡ write_by_name world.now (words_of_line words.entry) }
{
    let m = next_number(&mut words)?;
    let target = next_number(&mut words)?;
    let slot = next_slot(world, m, target, &mut words)?;
    let written = next_number(&mut words)?;
    at_end((m, target, slot, written), words)
}

// Reads the next word as the name of a class. Returns None if it is none.
pub(crate) fn next_class(classes: &FirstClasses<'_>, words: &mut Words) -> Option<ClassNo>
    ensures { IsNextWord (next_class classes.now (words_of_line words.old))
        (words_of_line words.new) result }
{
    let word = words.next_word()?;
    class_at(classes, word)
}

// Returns the class with this name. A number names none.
pub(crate) fn class_at(classes: &FirstClasses<'_>, word: &[u8]) -> Option<ClassNo>
    ensures { result ≡ unless_number word.now (class_named classes.now word.now) }
{
    match number_of(word) {
        Some(_) => None,
        None => class_named(classes, word),
    }
}
