//! The progress word of a meter.
ghost use Rattle.std.specs.Prelude.{◌≡◌, ◌+◌, ◌<◌, ◌≤◌, ◌^◌};
ghost use Rattle.dump_pipe.specs.Seats.{after_bytes, knows};

use crate::seats::{OutSeat, ReadSeat};
use crate::word::Word;

/// The name of the progress word.
pub struct Sums;

/// The progress word of a meter: the bytes that its out seat added. Contracts see the meter.
pub type Progress<'a> = Word<'a, Sums>;

impl<'a> Word<'a, Sums> {
    /// Adds `n` bytes to the sum of a seat of this meter. The sum must stay below 2^64. Waits for nothing.
    pub fn add(&self, seat: &mut OutSeat, n: u64)
        requires meter { seat.old.meter ≡ self.now }
        requires fits { seat.old.known + n < 2 ^ 64 }
        ensures { seat.new ≡ after_bytes seat.old n }
    {
        let _ = self.table.fetch_add::<OutSeat>(&mut seat.seat, 0, n);
    }

    /// Returns the bytes added so far, by a seat of this meter: no fewer than it read before. Waits for nothing.
    pub fn read(&self, seat: &mut ReadSeat) -> u64
        requires { seat.old.meter ≡ self.now }
        ensures seen { seat.new ≡ knows self.now result }
        ensures later { seat.old.known ≤ result }
    {
        self.table.load::<ReadSeat>(&mut seat.seat, 0)
    }
}
