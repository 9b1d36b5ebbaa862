//! Sources that are watched.
ghost use Rattle.std.specs.Prelude.{◌≡◌};

use dump_pipe::{AskSeat, Cancel};
use dump_pump::{Next, Source};
use std::sync::atomic::{AtomicU64, Ordering};

/// A source that counts how often it was asked.
#[derive(Drop)]
pub struct Counted<'a, S: Source> {
    pub source: S,
    pub asked: &'a AtomicU64,
}

impl<'a, S: Source> Source for Counted<'a, S> {
    ghost Kept = { S.Kept };

    ghost kept = { λ c. S.kept c.source };

    ghost seen = { λ c. S.seen c.source };

    fn next(&mut self) -> Next {
        self.asked.fetch_add(1, Ordering::SeqCst);
        self.source.next()
    }

    fn parts_left(&self) -> u64 {
        self.source.parts_left()
    }
}

/// A source that asks to cancel before it gives its second part.
#[derive(Drop)]
pub struct AskingSource<'a, S: Source> {
    pub source: S,
    pub cancel: Cancel<'a>,
    pub seat: &'a mut AskSeat,
    pub turn: u64,
    ghost met: { seat.now.meter ≡ cancel },
}

impl<'a, S: Source> Source for AskingSource<'a, S> {
    ghost Kept = { S.Kept };

    ghost kept = { λ a. S.kept a.source };

    ghost seen = { λ a. S.seen a.source };

    fn next(&mut self) -> Next {
        if self.turn == 1 {
            self.cancel.ask(self.seat);
        }
        self.turn = self.turn.saturating_add(1);
        self.source.next()
    }

    fn parts_left(&self) -> u64 {
        self.source.parts_left()
    }
}
