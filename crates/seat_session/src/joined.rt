//! A user's seat at a shared heap, which acts on the lines of a session.
ghost use Rattle.std.specs.Prelude.{◌≡◌, filter};
ghost use Rattle.heap_lock.specs.Action.TheVariants.{NextPiece, ClosePin};
ghost use Rattle.heap_lock.specs.Machine.{IsSmall};
ghost use Rattle.heap_lock.specs.declared.role.Role.TheVariants.{User};
ghost use Rattle.heap_lock.specs.Calls.{Witnesses};
ghost use Rattle.heap_lock.specs.History.{reply_of};
ghost use Rattle.session_text.specs.Replies.{line_answer_text};
ghost use Rattle.seat_session.specs.JoinedActs.{IsReply, IsLegalPart, OpensMet};
ghost use Rattle.seat_session.specs.JoinedAnswers.{AnswersForSeat};
ghost use Rattle.seat_session.specs.SeatStations.{first_station};
ghost use Rattle.seat_session.specs.StayingSeats.{AreStillOpen, is_open};
ghost use Rattle.question_grammar.specs.NoteLines.{place_opened};

use crate::held_heap::answer_held;
use heap_lock::{Action, Heap, Machine, Outcome, Receipt, Refusal, Reply, Seat, Shared, Witness};
use question_grammar::{Bookmarks, place_opened};
use session_text::{Commands, LineAnswer};
use std::alloc::Global;
use std::marker::Model;
use std::sync::Wait;
use std::thread;

/// A user's seat, with its heap. What others do on the heap goes on between any two actions. Contracts see the seat, whose
/// share has what this session did, in order, the calls that its witness has seen, those up to this session's last dump call or
/// question, and what the session notes of places.
#[derive(Drop)]
pub struct Joined<'a, L: Heap, R: Wait> {
    shared: &'a Shared<L>,
    rt: &'a R,
    seat: Seat<L>,
    witness: Witness<L>,
    bookmarks: Bookmarks,
}

impl<'a, L: Heap, R: Wait> Model for Joined<'a, L, R> {
    ghost use Rattle.std.specs.Prelude.{◌≡◌};
    ghost use Rattle.heap_lock.specs.declared.role.Role.TheVariants.{User};
    ghost use Rattle.seat_session.specs.SeatStations.{Station};

    ghost Value = { Station };

    ghost view = { λ j.
        record { seat = j.seat; seen = j.witness; bookmarks = j.bookmarks } };

    ghost invariant = { λ j. j.seat.role ≡ User };
}

// Returns the reply to an act.
pub(crate) fn reply_to_act(done: Result<Receipt, Refusal>) -> Reply
    ensures reply { IsReply done result }
    ensures small { IsSmall result }
{
    match done {
        Ok(receipt) => reply(receipt.answer),
        Err(refusal) => Reply::Refused(refusal),
    }
}

// Returns the reply that an outcome is.
fn reply(outcome: Outcome) -> Reply
    ensures { result ≡ reply_of outcome }
{
    match outcome {
        Outcome::Answered(answer) => Reply::Answered(answer),
        Outcome::Place(place) => Reply::Place(place),
        Outcome::Refused(refusal) => Reply::Refused(refusal),
    }
}

// Drops the pins that aren't open.
fn retain_open(machine: &Machine, pins: &mut Vec<u64>)
    ensures { pins.new.items ≡ filter (is_open machine.now) pins.old.items }
{
    pins.retain(|pin| is_open(machine, *pin));
}

// Tells whether a pin is open.
fn is_open(machine: &Machine, pin: u64) -> bool
    ensures { result ≡ is_open machine.now pin }
{
    let mut index = 0;
    while let Some(open) = machine.nth_pin(index) {
        if open.number == pin {
            return true;
        }
        index += 1;
    }
    false
}

impl<'a, L: Heap, R: Wait> Joined<'a, L, R> {
    /// Creates the commands of this seat, for a session that begins.
    pub fn new(
        alloc: Global,
        shared: &'a Shared<L>,
        rt: &'a R,
        seat: Seat<L>,
        witness: Witness<L>,
    ) -> Joined<'a, L, R>
        requires { seat.role ≡ User }
        ensures { result ≡ first_station seat witness }
    {
        Joined {
            shared,
            rt,
            seat,
            witness,
            bookmarks: Bookmarks::new(alloc),
        }
    }

    /// Gives the seat back.
    pub fn into_seat(self) -> Seat<L>
        ensures seat { result ≡ self.entry.seat }
        ensures role { result.role ≡ User }
    {
        self.seat
    }

    // Opens a pin on a state with all that the seat did, and leaves the seat.
    fn reply_to_open(&mut self, at: Option<u64>) -> Reply
        ensures done { OpensMet L.config self.old.seat self.old.seen at result self.new.seen }
        ensures seat { self.new.seat ≡ self.old.seat }
        ensures bookmarks { self.new.bookmarks ≡ self.old.bookmarks }
        ensures small { IsSmall result }
    {
        self.shared.meet(self.rt, &mut self.seat, &mut self.witness);
        match self.shared.open_pin(self.rt, &mut self.witness, at) {
            Ok(pinned) => Reply::Pinned {
                pin: pinned.pin,
                at: pinned.at,
            },
            Err(refusal) => Reply::Refused(refusal),
        }
    }

    // Gives the next piece of a pin, and leaves the seat.
    fn part(&mut self, pin: u64, time: u64) -> Reply
        ensures done { Witnesses L.config self.old.seen (NextPiece pin time) result
            self.new.seen }
        ensures seat { self.new.seat ≡ self.old.seat }
        ensures bookmarks { self.new.bookmarks ≡ self.old.bookmarks }
        ensures legal { IsLegalPart L.config.ids time result }
        ensures small { IsSmall result }
    {
        match self
            .shared
            .next_piece(self.rt, &mut self.witness, pin, time)
        {
            Ok(piece) => Reply::Part(piece),
            Err(refusal) => Reply::Refused(refusal),
        }
    }

    // Closes a pin, and leaves the seat.
    fn reply_to_close(&mut self, pin: u64) -> Reply
        ensures done { Witnesses L.config self.old.seen (ClosePin pin) result self.new.seen }
        ensures seat { self.new.seat ≡ self.old.seat }
        ensures bookmarks { self.new.bookmarks ≡ self.old.bookmarks }
        ensures small { IsSmall result }
    {
        match self.shared.close_pin(self.rt, &mut self.witness, pin) {
            Ok(()) => Reply::Closed,
            Err(refusal) => Reply::Refused(refusal),
        }
    }

    // Forgets those of the pins that aren't open any more, at one moment under the lock.
    pub(crate) fn forget_closed(&mut self, pins: &mut Vec<u64>)
        ensures open { AreStillOpen L.config self.old.seat self.old.seen pins.old.items
            self.new.seen pins.new.items }
        ensures seat { self.new.seat ≡ self.old.seat }
        ensures bookmarks { self.new.bookmarks ≡ self.old.bookmarks }
    {
        let mut kept = self.shared.lock(self.rt);
        kept.agree(&mut self.seat);
        kept.show(&mut self.witness);
        retain_open(kept.machine(), pins);
    }

    // Returns the place, or None for the current one, on whose state the lines `open` and `open @WORD` open a pin.
    pub(crate) fn place_opened(&self, line: &[u8]) -> Option<Option<u64>>
        ensures { result ≡ place_opened self.now.bookmarks line.now }
    {
        place_opened(&self.bookmarks, line)
    }

    // Answers a line that the grammar of sessions doesn't know and that opens no pin, under the lock, and leaves the processor to
    // others then. Does what it asks to be done, if `obeys` says so, as acts of this seat, or notes what it sets.
    pub(crate) fn answer_line(&mut self, alloc: Global, obeys: bool, line: &[u8]) -> LineAnswer
        ensures { AnswersForSeat L.config obeys line.now self.old.seat self.old.seen
            self.old.bookmarks (line_answer_text result) self.new.seat self.new.seen
            self.new.bookmarks }
    {
        let mut kept = self.shared.lock(self.rt);
        let answer = answer_held(
            alloc,
            &mut *kept,
            &mut self.seat,
            &mut self.witness,
            &mut self.bookmarks,
            obeys,
            line,
        );
        drop(kept);
        thread::yield_now();
        answer
    }
}

impl<'a, L: Heap, R: Wait> Commands for Joined<'a, L, R> {
    ghost use Rattle.std.specs.Prelude.{false};
    ghost use Rattle.seat_session.specs.SeatStations.{seat_acts, seat_answers};

    ghost acts = { seat_acts L.config };

    ghost unknown = { seat_answers L.config false };

    fn act(&mut self, action: Action) -> Reply {
        match action {
            Action::Step(event) => reply_to_act(self.shared.act(self.rt, &mut self.seat, event)),
            Action::Rewind(n) => reply_to_act(self.shared.rewind(self.rt, &mut self.seat, n)),
            Action::OpenPin(at) => self.reply_to_open(at),
            Action::NextPiece { pin, time } => self.part(pin, time),
            Action::ClosePin(pin) => self.reply_to_close(pin),
        }
    }

    fn answer_unknown(&mut self, _alloc: Global, _line: &[u8]) -> LineAnswer {
        LineAnswer::BadCommand
    }
}
