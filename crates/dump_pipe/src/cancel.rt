//! The cancel word of a meter.
ghost use Rattle.std.specs.Prelude.{◌≡◌, true};
ghost use Rattle.dump_pipe.specs.Seats.{knows};

use crate::rule::Settles;
use crate::seats::{AskSeat, FeedSeat, MeterSeat};
use crate::word::Word;

/// The name of the cancel word.
pub struct Marks;

/// The cancel word of a meter: whether its asker asked. Contracts see the meter.
pub type Cancel<'a> = Word<'a, Marks>;

impl<'a> Word<'a, Marks> {
    /// Asks to cancel, by a seat of this meter. The request can't be withdrawn. Waits for nothing.
    pub fn ask(&self, seat: &mut AskSeat)
        requires { seat.old.meter ≡ self.now }
        ensures { seat.new ≡ knows self.now true }
    {
        let _ = self.table.fetch_or::<AskSeat>(&mut seat.seat, 1, 1);
    }

    /// Tells whether the asker asked, by a seat of this meter. Once it is true it stays so. Waits for nothing.
    pub fn is_asked(&self, seat: &mut FeedSeat) -> bool
        requires { seat.old.meter ≡ self.now }
        ensures found { seat.new ≡ knows self.now result }
        ensures lasting { seat.old.known ≡ true → result ≡ true }
    {
        self.table.load::<FeedSeat>(&mut seat.seat, 1) == 1
    }

    /// Takes in the seat that looked and the one that asks, of this meter: if the first found that the asker had asked, the
    /// second did. Waits for nothing.
    pub fn settle(&self, feed: FeedSeat, asker: AskSeat)
        requires feed { feed.meter ≡ self.now }
        requires asker { asker.meter ≡ self.now }
        ensures { feed.known ≡ true → asker.known ≡ true }
    {
        let MeterSeat { seat, of: _ } = asker;
        let MeterSeat {
            seat: mut looked,
            of: _,
        } = feed;
        self.table.join_seat::<Settles>(&mut looked, seat);
        let _ = self.table.load::<Settles>(&mut looked, 1);
    }
}
