//! Sources that can be cancelled.
ghost use Rattle.std.specs.Prelude.{◌≡◌};

use crate::cancel::Cancel;
use crate::seats::FeedSeat;
use dump_pump::{Next, Source};

/// A source that looks before each part whether anybody asked to cancel. It gives Cancelled if so, else the answer of its own
/// source. The seat is one of the meter whose cancel word it is.
#[derive(Drop)]
pub struct Cancellable<'a, S: Source> {
    pub source: S,
    pub cancel: Cancel<'a>,
    pub seat: FeedSeat,
    ghost met: { seat.meter ≡ cancel },
}

impl<'a, S: Source> Source for Cancellable<'a, S> {
    ghost use Rattle.atomic_table.specs.Seated.{TableId};
    ghost use Rattle.dump_pipe.specs.Cancellables.{cancellable};

    ghost Kept = { S.Kept × TableId };

    ghost kept = { λ w. (S.kept w.source, w.cancel) };

    ghost seen = { λ w. cancellable (S.seen w.source) w.seat.known };

    fn next(&mut self) -> Next {
        if self.cancel.is_asked(&mut self.seat) {
            return Next::Cancelled;
        }
        self.source.next()
    }

    fn parts_left(&self) -> u64 {
        self.source.parts_left()
    }
}
