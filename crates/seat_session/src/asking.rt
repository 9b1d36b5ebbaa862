//! A user's seat at a shared heap, which answers questions too.
ghost use Rattle.std.specs.Prelude.{◌≡◌};
ghost use Rattle.heap_lock.specs.declared.role.Role.TheVariants.{User};

use crate::joined::Joined;
use heap_lock::{Action, Heap, Reply, Seat};
use session_text::{Commands, LineAnswer};
use std::alloc::Global;
use std::marker::Model;
use std::sync::Wait;

/// A user's seat, with its heap, that acts on the lines of a session and answers questions about the heap. Each is answered
/// under the lock, so it is about one state, and others wait for it; so they do for lines that ask for something to be done, which
/// are acts of the seat. No question has an entry. Contracts see what they see of `Joined`.
#[derive(Drop)]
pub struct AskingSeat<'a, L: Heap, R: Wait> {
    joined: Joined<'a, L, R>,
}

impl<'a, L: Heap, R: Wait> Model for AskingSeat<'a, L, R> {
    ghost use Rattle.seat_session.specs.SeatStations.{Station};

    ghost Value = { Station };

    ghost view = { λ a. a.joined };
}

impl<'a, L: Heap, R: Wait> AskingSeat<'a, L, R> {
    /// Creates the commands that answer questions too.
    pub fn new(joined: Joined<'a, L, R>) -> AskingSeat<'a, L, R>
        ensures { result ≡ joined.entry }
    {
        AskingSeat { joined }
    }

    /// Gives the seat back.
    pub fn into_seat(self) -> Seat<L>
        ensures seat { result ≡ self.entry.seat }
        ensures role { result.role ≡ User }
    {
        self.joined.into_seat()
    }
}

impl<'a, L: Heap, R: Wait> Commands for AskingSeat<'a, L, R> {
    ghost use Rattle.std.specs.Prelude.{true};
    ghost use Rattle.seat_session.specs.SeatStations.{seat_acts, seat_answers};

    ghost acts = { seat_acts L.config };

    ghost unknown = { seat_answers L.config true };

    fn act(&mut self, action: Action) -> Reply {
        self.joined.act(action)
    }

    fn answer_unknown(&mut self, alloc: Global, line: &[u8]) -> LineAnswer {
        match self.joined.place_opened(line) {
            Some(place) => LineAnswer::Known(self.joined.act(Action::OpenPin(place))),
            None => self.joined.answer_line(alloc, true, line),
        }
    }
}
