//! Commands: the requests of lines.
ghost use Rattle.std.specs.Prelude.{◌≡◌, ◌≤◌, ◌++◌, length, option_map, MatchResult};
ghost use Rattle.session_grammar.specs.Grammar.{words_of_line, next_number, next_number_or_dash, next_kind, next_place_or_dash, at_end, one_number, one_number_or_dash, one_place_or_dash, place_or_dash, three_numbers, two_numbers, four_numbers, newprim_line, step_line, dump_line, end_line, making_rules, access_rules, marking_rules, session_rules, by_rule, without_cr, command_of_text};
ghost use Rattle.session_grammar.specs.Reads.{TakesMemory, MayTakeMemory, IsNextWord, next_name, plain_class, plain_array, plain_rules};
ghost use Rattle.session_grammar.specs.declared.TheConstants.{LINE_LIMIT};

use crate::by_word;
use crate::fields::{copied_all, kind_at, name_at, read_fields};
use crate::number::{number_at, number_of, number_or_dash_at};
use crate::spans::FieldSpans;
use crate::words::{Words, is_word};
use heap_class::{Kind, Name};
use heap_step::Event;
use heap_trail::Action;
use std::alloc::{AllocError, Global};

/// The request of a line.
#[derive(Drop)]
pub enum Command {
    /// The line has no words, and asks for nothing.
    Blank,
    /// The line is none of the grammar's.
    Bad,
    /// An action, and its reply.
    Ask(Action),
    /// The next piece of a pin.
    Piece(u64),
    /// A dump of a pin.
    Dump(u64),
    /// A dump of the current state.
    DumpNow,
    /// The end of the session.
    End,
}

// Returns the step that the row with this word names, whose parts are the numbers that are read as the row says, or what stands
// last if no row has the word.
macro_rules! by_numbers {
    ($word:expr, $words:expr; $($name:literal => $read:ident as $event:ident { $($part:ident),* },)* _ => $else:expr) => {{
        $(if is_word($word, $name) {
            let ($($part),*) = $read($words)?;
            return Some(Command::Ask(Action::Step(Event::$event { $($part),* })));
        })*
        $else
    }};
}

/// Reads the number that the next word holds. Returns None if it holds none.
pub fn next_number(words: &mut Words) -> Option<u64>
    ensures { IsNextWord (next_number (words_of_line words.old)) (words_of_line words.new) result }
{
    let (value, size) = number_at(words.front()?);
    if size == 0 {
        return None;
    }
    words.pass(size);
    Some(value)
}

/// Returns a value if no word is left.
pub fn at_end<T: Drop>(value: T, mut words: Words) -> Option<T>
    ensures { result ≡ at_end value (words_of_line words.entry) }
{
    if words.front().is_some() {
        return None;
    }
    Some(value)
}

/// Returns the one number that the words are.
pub fn one_number(mut words: Words) -> Option<u64>
    ensures { result ≡ one_number (words_of_line words.entry) }
{
    let a = next_number(&mut words)?;
    at_end(a, words)
}

/// Returns the two numbers that the words are.
pub fn two_numbers(mut words: Words) -> Option<(u64, u64)>
    ensures { result ≡ two_numbers (words_of_line words.entry) }
{
    let a = next_number(&mut words)?;
    let b = next_number(&mut words)?;
    at_end((a, b), words)
}

// Returns the three numbers that the words are.
fn three_numbers(mut words: Words) -> Option<(u64, u64, u64)>
    ensures { result ≡ three_numbers (words_of_line words.entry) }
{
    let a = next_number(&mut words)?;
    let b = next_number(&mut words)?;
    let c = next_number(&mut words)?;
    at_end((a, b, c), words)
}

// Returns the four numbers that the words are.
fn four_numbers(mut words: Words) -> Option<(u64, u64, u64, u64)>
    ensures { result ≡ four_numbers (words_of_line words.entry) }
{
    let a = next_number(&mut words)?;
    let b = next_number(&mut words)?;
    let c = next_number(&mut words)?;
    let d = next_number(&mut words)?;
    at_end((a, b, c, d), words)
}

/// Returns the line without a CR at its end.
pub fn without_cr(line: &[u8]) -> &[u8]
    ensures { result.now ≡ without_cr line.now }
{
    let size = line.len();
    if size > 0 && line[size - 1] == 13 {
        &line[..size - 1]
    } else {
        line
    }
}

/// Returns the command of a line without its CR. Fails if an allocation for a class fails.
pub fn command_of_text(
    alloc: Global,
    spans: &mut FieldSpans,
    text: &[u8],
) -> Result<Command, AllocError>
    requires { length text.now ≤ LINE_LIMIT }
    ensures { MatchResult result (λ c. c ≡ command_of_text text.now)
        (λ _. TakesMemory (command_of_text text.now)) }
{
    let mut words = Words::new(text);
    let Some(word) = words.next_word() else {
        return Ok(Command::Blank);
    };
    Ok(line_after(alloc, spans, word, words)?.unwrap_or(Command::Bad))
}

// Reads a line from its first word and the words after it. Returns None if it is none of the grammar's. Fails if an
// allocation fails.
#[tactic(auto, unfolding(crate::specs::Grammar::by_rule, crate::specs::Reads::plain_class_rules))]
fn line_after(
    alloc: Global,
    spans: &mut FieldSpans,
    word: &[u8],
    words: Words,
) -> Result<Option<Command>, AllocError>
    requires { length words ≤ LINE_LIMIT }
    ensures { MatchResult result (λ c. c ≡ by_rule plain_rules word.now (words_of_line words.entry))
        (λ _. MayTakeMemory (by_rule plain_rules word.now (words_of_line words.entry))) }
{
    by_word!(word;
        b"class" => class_line(alloc, spans, words),
        b"array" => array_line(alloc, words),
        _ => Ok(making_line(word, words))
    )
}

// Reads the words of `class NAME SUPER FIELD ..`. Returns None, and allocates nothing, if they don't fit. Fails if an
// allocation fails.
fn class_line(
    alloc: Global,
    spans: &mut FieldSpans,
    mut words: Words,
) -> Result<Option<Command>, AllocError>
    requires { length words ≤ LINE_LIMIT }
    ensures { MatchResult result (λ c. c ≡ plain_class (words_of_line words.entry))
        (λ _. MayTakeMemory (plain_class (words_of_line words.entry))) }
{
    let Some(name) = next_name(&mut words) else {
        return Ok(None);
    };
    let Some(sup) = next_number_or_dash(&mut words) else {
        return Ok(None);
    };
    let text = words.rest();
    if !read_fields(words, spans) {
        return Ok(None);
    }
    let name = Name::new(alloc, name)?;
    let fields = copied_all(alloc, text, spans.as_slice())?;
    Ok(Some(Command::Ask(Action::Step(Event::Class { name, sup, fields }))))
}

// Reads the next word as a name. Returns None if one of its bytes is bad.
fn next_name<'a>(words: &mut Words<'a>) -> Option<&'a [u8]>
    ensures next { IsNextWord (next_name (words_of_line words.old)) (words_of_line words.new)
        (option_map (λ w. w.now) result) }
    ensures shorter { length words.new ≤ length words.old }
{
    let text = words.front()?;
    let size = name_at(text)?;
    words.pass(size);
    Some(&text[..size])
}

// Reads the number that the next word holds, or None from a `-`. Returns None if it holds neither.
fn next_number_or_dash(words: &mut Words) -> Option<Option<u64>>
    ensures next { IsNextWord (next_number_or_dash (words_of_line words.old))
        (words_of_line words.new) result }
    ensures shorter { length words.new ≤ length words.old }
{
    let (value, size) = number_or_dash_at(words.front()?)?;
    words.pass(size);
    Some(value)
}

// Reads the words of `array NAME`. Returns None, and allocates nothing, if they don't fit. Fails if an allocation fails.
fn array_line(alloc: Global, mut words: Words) -> Result<Option<Command>, AllocError>
    ensures { MatchResult result (λ c. c ≡ plain_array (words_of_line words.entry))
        (λ _. MayTakeMemory (plain_array (words_of_line words.entry))) }
{
    let Some(name) = next_name(&mut words) else {
        return Ok(None);
    };
    if words.front().is_some() {
        return Ok(None);
    }
    let name = Name::new(alloc, name)?;
    Ok(Some(Command::Ask(Action::Step(Event::ArrayClass { name }))))
}

// Reads a line by its first word, if that makes an object or `access_line` knows it.
#[tactic(auto, unfolding(crate::specs::Grammar::by_rule, crate::specs::Grammar::making_rules))]
fn making_line(word: &[u8], words: Words) -> Option<Command>
    ensures { result
        ≡ by_rule (making_rules ++ (access_rules ++ (marking_rules ++ session_rules))) word.now
        (words_of_line words.entry) }
{
    by_numbers!(word, words;
        b"new" => three_numbers as New { m, r, class },
        b"newarray" => four_numbers as NewArray { m, r, class, len },
        _ => by_word!(word;
            b"newprim" => newprim_line(words),
            _ => access_line(word, words)
        )
    )
}

// Reads the words of `newprim M R KIND LEN`.
fn newprim_line(mut words: Words) -> Option<Command>
    ensures { result ≡ newprim_line (words_of_line words.entry) }
{
    let m = next_number(&mut words)?;
    let r = next_number(&mut words)?;
    let kind = next_kind(&mut words)?;
    let len = next_number(&mut words)?;
    at_end(
        Command::Ask(Action::Step(Event::NewPrim { m, r, kind, len })),
        words,
    )
}

// Reads the kind that the next word names. Returns None if it names none.
fn next_kind(words: &mut Words) -> Option<Kind>
    ensures { IsNextWord (next_kind (words_of_line words.old)) (words_of_line words.new) result }
{
    let (kind, size) = kind_at(words.front()?)?;
    words.pass(size);
    Some(kind)
}

// Reads a line by its first word, if that reads or writes a slot or a register or `marking_line` knows it.
#[tactic(auto, unfolding(crate::specs::Grammar::by_rule, crate::specs::Grammar::access_rules))]
fn access_line(word: &[u8], words: Words) -> Option<Command>
    ensures { result
        ≡ by_rule (access_rules ++ (marking_rules ++ session_rules)) word.now
        (words_of_line words.entry) }
{
    by_numbers!(word, words;
        b"load" => four_numbers as Load { m, to, from, slot },
        b"store" => four_numbers as Store { m, target, slot, source },
        b"put" => four_numbers as Put { m, target, slot, value },
        b"move" => four_numbers as Move { m, to, from_m, from },
        b"clear" => two_numbers as Clear { m, r },
        _ => marking_line(word, words)
    )
}

// Reads a line by its first word, if that marks or sweeps or `session_line` knows it.
#[tactic(auto, unfolding(crate::specs::Grammar::by_rule, crate::specs::Grammar::marking_rules))]
fn marking_line(word: &[u8], words: Words) -> Option<Command>
    ensures { result
        ≡ by_rule (marking_rules ++ session_rules) word.now (words_of_line words.entry) }
{
    by_word!(word;
        b"snap" => step_line(Event::Snap, words),
        b"mark" => step_line(Event::Mark, words),
        b"drain" => step_line(Event::Drain, words),
        b"finish" => step_line(Event::Finish, words),
        b"sweep" => Some(Command::Ask(Action::Step(Event::Sweep { region: one_number(words)? }))),
        _ => session_line(word, words)
    )
}

// Returns a step that takes no words, if there are none.
fn step_line(event: Event, words: Words) -> Option<Command>
    ensures { result ≡ step_line event (words_of_line words.entry) }
{
    at_end(Command::Ask(Action::Step(event)), words)
}

// Reads a line by its first word, if that asks the machine or the session for something.
#[tactic(auto, unfolding(crate::specs::Grammar::by_rule, crate::specs::Grammar::session_rules))]
fn session_line(word: &[u8], words: Words) -> Option<Command>
    ensures { result ≡ by_rule session_rules word.now (words_of_line words.entry) }
{
    by_word!(word;
        b"rewind" => Some(Command::Ask(Action::Rewind(one_number(words)?))),
        b"open" => Some(Command::Ask(Action::OpenPin(one_place_or_dash(words)?))),
        b"piece" => Some(Command::Piece(one_number(words)?)),
        b"dump" => dump_line(words),
        b"close" => Some(Command::Ask(Action::ClosePin(one_number(words)?))),
        b"end" => end_line(words),
        _ => None
    )
}

// Returns the one place that the words name, or None from a `-`.
fn one_place_or_dash(mut words: Words) -> Option<Option<u64>>
    ensures { result ≡ one_place_or_dash (words_of_line words.entry) }
{
    let a = next_place_or_dash(&mut words)?;
    at_end(a, words)
}

// Reads the place that the next word names, or None from a `-`. Returns None if it names neither.
fn next_place_or_dash(words: &mut Words) -> Option<Option<u64>>
    ensures { IsNextWord (next_place_or_dash (words_of_line words.old)) (words_of_line words.new)
        result }
{
    let word = words.next_word()?;
    place_or_dash(word)
}

// Returns the place that a word names, or None for a `-`.
#[tactic(auto, unfolding(crate::specs::Grammar::place_or_dash))]
fn place_or_dash(word: &[u8]) -> Option<Option<u64>>
    ensures { result ≡ place_or_dash word.now }
{
    if is_word(word, b"-") {
        return Some(None);
    }
    match word {
        [b'@', place @ ..] => Some(Some(number_of(place)?)),
        _ => Some(Some(number_of(word)?)),
    }
}

// Reads the words of `dump PIN` or `dump -`.
fn dump_line(words: Words) -> Option<Command>
    ensures { result ≡ dump_line (words_of_line words.entry) }
{
    match one_number_or_dash(words)? {
        Some(pin) => Some(Command::Dump(pin)),
        None => Some(Command::DumpNow),
    }
}

// Returns the one number that the words are, or None from a `-`.
fn one_number_or_dash(mut words: Words) -> Option<Option<u64>>
    ensures { result ≡ one_number_or_dash (words_of_line words.entry) }
{
    let a = next_number_or_dash(&mut words)?;
    at_end(a, words)
}

// Reads the words of `end`, of which there must be none.
fn end_line(words: Words) -> Option<Command>
    ensures { result ≡ end_line (words_of_line words.entry) }
{
    at_end(Command::End, words)
}
