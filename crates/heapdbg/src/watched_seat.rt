//! A seat of a shared heap, of which a prompt shows the place.
ghost use Rattle.std.specs.Prelude.{◌≡◌};
ghost use Rattle.heap_server.specs.Calls.{IsLegalLedger};
ghost use Rattle.heap_server.specs.Role.TheVariants.{User};
ghost use Rattle.question_grammar.specs.Bookmarks.{no_bookmarks};

use heap_console::{Console, Hinting};
use heap_server::{Action, AskingSeat, Heap, Joined, Reply, Seat, Shared};
use question_grammar::{Bookmarks, name_set, place_set};
use session_text::{Commands, LineAnswer};
use std::alloc::Global;
use std::marker::Model;
use std::sync::Wait;

/// A user's seat that acts on the lines of a session and answers questions, as `AskingSeat` does, and tells a console the place
/// after each, and what answers leave out. Contracts see what they see of `AskingSeat`.
#[derive(Drop)]
pub(crate) struct WatchedSeat<'a, L: Heap, R: Wait> {
    asking: AskingSeat<'a, L, R>,
    shared: &'a Shared<L>,
    rt: &'a R,
    console: &'a Console,
    // What the seat notes of places, as far as there is memory for it here.
    bookmarks: Bookmarks,
}

impl<'a, L: Heap, R: Wait> Model for WatchedSeat<'a, L, R> {
    ghost use Rattle.heap_server.specs.SeatStations.{Station};

    ghost Value = { Station };

    ghost view = { λ s. s.asking };
}

impl<'a, L: Heap, R: Wait> WatchedSeat<'a, L, R> {
    /// Creates the commands of a seat.
    pub(crate) fn new(
        alloc: Global,
        rt: &'a R,
        shared: &'a Shared<L>,
        seat: Seat<L>,
        console: &'a Console,
    ) -> WatchedSeat<'a, L, R>
        requires { seat.role ≡ User }
        ensures seat { result.seat ≡ seat }
        ensures legal { IsLegalLedger L.config result.seen }
        ensures unnamed { result.bookmarks ≡ no_bookmarks }
    {
        let joined = Joined::new(alloc, shared, rt, seat, shared.witness(rt));
        WatchedSeat {
            asking: AskingSeat::new(joined),
            shared,
            rt,
            console,
            bookmarks: Bookmarks::new(alloc),
        }
    }
}

// Notes in bookmarks what a line set, whose answer is this, while a heap was at a place.
fn note_set(
    alloc: Global,
    bookmarks: &mut Bookmarks,
    line: &[u8],
    answer: &LineAnswer,
    place: u64,
) {
    let LineAnswer::Number(_, _) = answer else {
        return;
    };
    if let Some(to) = place_set(bookmarks, line) {
        bookmarks.set_at(to);
    } else if let Some(word) = name_set(line) {
        let _ = bookmarks.set_name(alloc, word, place);
    }
}

impl<'a, L: Heap, R: Wait> Commands for WatchedSeat<'a, L, R> {
    ghost use Rattle.std.specs.Prelude.{true};
    ghost use Rattle.heap_server.specs.SeatStations.{seat_acts, seat_answers};

    ghost acts = { seat_acts L.config };

    ghost unknown = { seat_answers L.config true };

    fn act(&mut self, action: Action) -> Reply {
        let reply = self.asking.act(action);
        let kept = self.shared.lock(self.rt);
        self.console.watch.note_reply(kept.machine(), &reply);
        Hinting::new(&self.console.hints).note_reply(kept.machine(), &reply);
        reply
    }

    fn answer_unknown(&mut self, alloc: Global, line: &[u8]) -> LineAnswer {
        let answer = self.asking.answer_unknown(alloc, line);
        let kept = self.shared.lock(self.rt);
        let machine = kept.machine();
        self.console.watch.note_answer(machine, &answer);
        note_set(alloc, &mut self.bookmarks, line, &answer, machine.place());
        Hinting::new(&self.console.hints).note_answer(
            alloc,
            machine,
            &self.bookmarks,
            line,
            &answer,
        );
        answer
    }
}
