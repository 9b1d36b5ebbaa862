//! A user's seat at a heap that stays.
ghost use Rattle.std.specs.Prelude.{◌≡◌, ◌==◌, ◌<◌, List, [], vec_capacity, vec_len};
ghost use Rattle.std.specs.List.{list_any};
ghost use Rattle.heap_lock.specs.Calls.{Call};
ghost use Rattle.heap_lock.specs.declared.role.Role.TheVariants.{User};
ghost use Rattle.seat_session.specs.StayingSeats.{ActsWith, AnswersSeat, ClosesEach, KeepsPin, OpensNoted, OpensOrAnswersSeat, asks_pins, kept_pin, with_opened, without};
ghost use Rattle.question_grammar.specs.NoteLines.{place_opened};
ghost use Rattle.heap_lock.specs.Action.TheVariants.{ClosePin};
ghost use Rattle.heap_lock.specs.Machine.{IsSmall};
ghost use Rattle.session_text.specs.Replies.{line_answer_text, pin_in};

use crate::joined::Joined;
use heap_lock::{Action, Heap, Refusal, Reply, Seat};
use question_grammar::{Bookmarks, Question, question_of};
use session_grammar::command::one_number;
use session_grammar::words::{Words, is_word};
use session_text::{Commands, LineAnswer};
use std::alloc::Global;
use std::marker::Model;
use std::sync::Wait;

/// A user's seat, with its heap, that notes the pins which its session opens. Each is closed at the session's end, unless it was
/// closed, or kept by the line `keep PIN`. It answers `pins`, and other questions if they are answered. Contracts see the seat, the
/// calls that its witness has seen, what the session notes of places, and the pins that are noted.
#[derive(Drop)]
pub struct StayingSeat<'a, L: Heap, R: Wait> {
    joined: Joined<'a, L, R>,
    questions: bool,
    pins: Vec<u64>,
}

impl<'a, L: Heap, R: Wait> Model for StayingSeat<'a, L, R> {
    ghost use Rattle.seat_session.specs.StayingSeats.{StayingStation};

    ghost Value = { StayingStation };

    ghost view = { λ s.
        record {
          seat = s.joined.seat;
          seen = s.joined.seen;
          bookmarks = s.joined.bookmarks;
          pins = s.pins.items;
          questions = s.questions;
        } };
}

// Returns the pin of the line `keep PIN`, or None if the line has another form.
fn kept_pin(line: &[u8]) -> Option<u64>
    ensures { result ≡ kept_pin line.now }
{
    let mut words = Words::new(line);
    let word = words.next_word()?;
    if is_word(word, b"keep") {
        one_number(words)
    } else {
        None
    }
}

// Tells whether a line asks for the open pins.
fn asks_pins(alloc: Global, line: &[u8]) -> bool
    ensures { result ≡ asks_pins line.now }
{
    let bookmarks = Bookmarks::new(alloc);
    matches!(question_of(&bookmarks, line), Some(Question::Pins))
}

// Returns the pin that a reply says was opened.
fn pin_in(reply: &Reply) -> Option<u64>
    ensures { result ≡ pin_in reply.now }
{
    match reply {
        Reply::Pinned { pin, .. } => Some(*pin),
        _ => None,
    }
}

// Adds the pin that was opened, if one was, to the pins.
fn note(pins: &mut Vec<u64>, opened: Option<u64>)
    requires { vec_len pins.old < vec_capacity pins.old }
    ensures { pins.new.items ≡ with_opened opened pins.old.items }
{
    if let Some(pin) = opened {
        pins.push_reserved(pin);
    }
}

// Drops a pin from the pins.
fn forget(pins: &mut Vec<u64>, pin: u64)
    ensures { pins.new.items ≡ without pin pins.old.items }
{
    pins.retain(|p| *p != pin);
}

// Tells whether a pin is one of the pins.
fn has(pins: &[u64], pin: u64) -> bool
    ensures { result ≡ list_any (λ p. p == pin) pins.now }
{
    pins.contains(&pin)
}

// Asks to close each of the pins.
fn close_each<'a, L: Heap, R: Wait>(joined: &mut Joined<'a, L, R>, pins: &[u64])
    ensures closes { ClosesEach L.config pins.now joined.old.seen joined.new.seen }
    ensures seat { joined.new.seat ≡ joined.old.seat }
{
    let mut rest = pins;
    while let Some((pin, more)) = rest.split_first() {
        let _ = joined.act(Action::ClosePin(*pin));
        rest = more;
    }
}

impl<'a, L: Heap, R: Wait> StayingSeat<'a, L, R> {
    /// Creates the commands of this seat, which has noted no pin. Questions are answered or not.
    pub fn new(alloc: Global, joined: Joined<'a, L, R>, questions: bool) -> StayingSeat<'a, L, R>
        ensures { result ≡ record {
          seat = joined.entry.seat;
          seen = joined.entry.seen;
          bookmarks = joined.entry.bookmarks;
          pins = [];
          questions = questions;
        } }
    {
        StayingSeat {
            joined,
            questions,
            pins: Vec::new(alloc),
        }
    }

    /// Asks to close each pin that is noted, in order, and gives the seat back.
    pub fn into_seat(self) -> Seat<L>
        ensures closes { (seen : List Call)
            × ClosesEach L.config self.entry.pins self.entry.seen seen }
        ensures seat { result ≡ self.entry.seat }
        ensures role { result.role ≡ User }
    {
        let StayingSeat { joined, pins, .. } = self;
        let mut joined = joined;
        close_each(&mut joined, pins.as_slice());
        joined.into_seat()
    }

    // Opens a pin and notes it, once those are forgotten that aren't open any more. Fails with NoMemory, and opens none, if memory
    // to note it is refused.
    fn open(&mut self, at: Option<u64>) -> Reply
        ensures done { OpensNoted L.config self.old at result self.new }
        ensures questions { self.new.questions ≡ self.old.questions }
        ensures bookmarks { self.new.bookmarks ≡ self.old.bookmarks }
        ensures small { IsSmall result }
    {
        self.joined.forget_closed(&mut self.pins);
        if self.pins.reserve(1).is_err() {
            return Reply::Refused(Refusal::NoMemory);
        }
        let reply = self.joined.act(Action::OpenPin(at));
        note(&mut self.pins, pin_in(&reply));
        reply
    }

    // Asks to close a pin, and forgets it.
    fn close(&mut self, pin: u64) -> Reply
        ensures done { ActsWith L.config self.old self.old.seen (ClosePin pin) result self.new
            (without pin self.old.pins) }
        ensures questions { self.new.questions ≡ self.old.questions }
        ensures bookmarks { self.new.bookmarks ≡ self.old.bookmarks }
        ensures small { IsSmall result }
    {
        forget(&mut self.pins, pin);
        self.joined.act(Action::ClosePin(pin))
    }

    // Does another action.
    fn act_on(&mut self, action: Action) -> Reply
        ensures done { ActsWith L.config self.old self.old.seen action result self.new
            self.old.pins }
        ensures questions { self.new.questions ≡ self.old.questions }
        ensures bookmarks { self.new.bookmarks ≡ self.old.bookmarks }
        ensures small { IsSmall result }
    {
        self.joined.act(action)
    }

    // Forgets a pin, so that it stays open. Refuses it, NoPin, unless it is open and the session's.
    fn keep(&mut self, pin: u64) -> LineAnswer
        ensures keeps { KeepsPin L.config pin self.old (line_answer_text result) self.new }
        ensures questions { self.new.questions ≡ self.old.questions }
    {
        self.joined.forget_closed(&mut self.pins);
        let is_own = has(self.pins.as_slice(), pin);
        forget(&mut self.pins, pin);
        if is_own {
            LineAnswer::Line(b"ok\n")
        } else {
            LineAnswer::Known(Reply::Refused(Refusal::NoPin))
        }
    }

    // Answers a line as a seat that answers questions does. Opens a pin and notes it, if the line asks for that.
    fn answer(&mut self, alloc: Global, line: &[u8]) -> LineAnswer
        ensures answers { OpensOrAnswersSeat L.config
            (place_opened self.old.bookmarks line.now) line.now self.old
            (line_answer_text result) self.new }
        ensures questions { self.new.questions ≡ self.old.questions }
    {
        match self.joined.place_opened(line) {
            Some(place) => LineAnswer::Known(self.open(place)),
            None => self.ask(alloc, line, true),
        }
    }

    // Answers a line that opens no pin as a seat that answers questions does.
    fn ask(&mut self, alloc: Global, line: &[u8], obeys: bool) -> LineAnswer
        ensures answers { AnswersSeat L.config obeys line.now self.old
            (line_answer_text result) self.new }
        ensures questions { self.new.questions ≡ self.old.questions }
    {
        self.joined.answer_line(alloc, obeys, line)
    }
}

impl<'a, L: Heap, R: Wait> Commands for StayingSeat<'a, L, R> {
    ghost use Rattle.seat_session.specs.StayingSeats.{staying_acts, staying_answers};

    ghost acts = { staying_acts L.config };

    ghost unknown = { staying_answers L.config };

    fn act(&mut self, action: Action) -> Reply {
        match action {
            Action::OpenPin(at) => self.open(at),
            Action::ClosePin(pin) => self.close(pin),
            _ => self.act_on(action),
        }
    }

    fn answer_unknown(&mut self, alloc: Global, line: &[u8]) -> LineAnswer {
        if let Some(pin) = kept_pin(line) {
            return self.keep(pin);
        }
        if self.questions {
            return self.answer(alloc, line);
        }
        if asks_pins(alloc, line) {
            return self.ask(alloc, line, false);
        }
        LineAnswer::BadCommand
    }
}
