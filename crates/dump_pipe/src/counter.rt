//! The counter of a stream.
ghost use Rattle.std.specs.Prelude.{◌≡◌, ◌+◌, ◌<◌, ◌^◌};
ghost use Rattle.dump_pipe.specs.Seats.{after_bytes};

use crate::progress::Progress;
use crate::seats::OutSeat;
use std::marker::Model;

/// A meter's progress word, lent, with the seat that adds to it. Contracts see the meter, and the sum of the bytes that the seat
/// added.
#[derive(Drop)]
pub struct Counter<'a> {
    progress: Progress<'a>,
    seat: OutSeat,
}

impl<'a> Model for Counter<'a> {
    ghost use Rattle.std.specs.Prelude.{◌≡◌, ℕ};
    ghost use Rattle.dump_pipe.specs.Seats.{SeatState};

    ghost Value = { SeatState ℕ };

    ghost view = { λ c. c.seat };

    ghost invariant = { λ c. c.seat.meter ≡ c.progress };
}

impl<'a> Counter<'a> {
    /// Creates a counter that goes on from the sum of the seat, which is one of the progress's meter.
    pub fn new(progress: Progress<'a>, seat: OutSeat) -> Counter<'a>
        requires { seat.meter ≡ progress }
        ensures { result ≡ seat }
    {
        Counter { progress, seat }
    }

    /// Adds `n` bytes. The sum must stay below 2^64. Waits for nothing.
    pub fn add(&mut self, n: u64)
        requires { self.old.known + n < 2 ^ 64 }
        ensures { self.new ≡ after_bytes self.old n }
    {
        self.progress.add(&mut self.seat, n);
    }

    /// Returns the seat.
    pub fn into_seat(self) -> OutSeat
        ensures { result ≡ self.entry }
    {
        let Counter { progress: _, seat } = self;
        seat
    }
}
