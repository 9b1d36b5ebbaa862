//! The seats of a meter.
ghost use Rattle.std.specs.Prelude.{◌≡◌, []};
ghost use Rattle.dump_pipe.specs.Seats.{knows};

use crate::meter_side::MeterSide;
use crate::rule::{Adds, Asks, Looks, Reads};
use atomic_table::{Play, Seat, Split};
use std::marker::{Model, PhantomData};

/// What a seat of a meter can know.
pub trait SeatFact {
    ghost use Rattle.dump_pipe.specs.declared.meter_side.MeterSide.{MeterSide};

    // What a seat with this side knows.
    ghost within: { MeterSide → Self };
}

impl SeatFact for u64 {
    ghost use Rattle.dump_pipe.specs.Seats.{count_of_seat};

    ghost within = { count_of_seat };
}

impl SeatFact for bool {
    ghost use Rattle.dump_pipe.specs.Seats.{flag};

    ghost within = { flag };
}

/// A kind of seats of a meter, which know a `T`.
pub trait SeatKind<T> {
    ghost use Rattle.std.specs.Prelude.{ℕ};
    ghost use Rattle.atomic_table.specs.Table.{Step};
    ghost use Rattle.dump_pipe.specs.declared.meter_side.MeterSide.{MeterSide};
    ghost use Rattle.dump_pipe.specs.Meters.{Sat};

    // The side of a seat that knows this.
    ghost view: { T → MeterSide };

    // What a new seat knows.
    ghost first: { T };

    // The effect of a step of a seat.
    ghost then: { Step (Unit {0}) → Sat → ℕ → Sat → Type 0 };
}

/// A seat of a meter, of the kind `K`. Contracts see its meter and what it knows. The type names the steps of its seats, too, and
/// the making of one beside another seat.
#[derive(Drop)]
pub struct MeterSeat<K: SeatKind<T>, T: SeatFact> {
    pub(crate) seat: Seat<(), MeterSide>,
    pub(crate) of: PhantomData<(K, T)>,
}

impl<K: SeatKind<T>, T: SeatFact> Model for MeterSeat<K, T> {
    ghost use Rattle.std.specs.Prelude.{◌≡◌, []};
    ghost use Rattle.dump_pipe.specs.Seats.{SeatState};

    ghost Value = { SeatState T };

    ghost view = { λ s. record { meter = s.seat.table_id; known = T.within s.seat.me.0 } };

    ghost invariant = { λ s. s.seat.me ≡ (K.view (T.within s.seat.me.0), []) };
}

impl<K: SeatKind<T>, T: SeatFact> Split<MeterSide> for MeterSeat<K, T> {
    ghost left = { λ v. v };

    ghost right = { λ _. K.view K.first };
}

impl<K: SeatKind<T>, T: SeatFact> Play<(), MeterSide> for MeterSeat<K, T> {
    ghost then = { K.then };
}

impl<K: SeatKind<T>, T: SeatFact> MeterSeat<K, T> {
    // Makes a seat of one with its side.
    pub(crate) fn of(seat: Seat<(), MeterSide>) -> MeterSeat<K, T>
        requires { seat.me ≡ (K.view (T.within seat.me.0), []) }
        ensures { result ≡ knows seat.table_id (T.within seat.me.0) }
    {
        MeterSeat {
            seat,
            of: PhantomData,
        }
    }
}

/// The seat that adds bytes. A meter has one. It knows the sum of the bytes that it added.
pub type OutSeat = MeterSeat<Adds, u64>;

/// A seat that reads the sum. It knows the sum that it read last, 0 at first.
pub type ReadSeat = MeterSeat<Reads, u64>;

/// The seat that asks to cancel. A meter has one. It knows whether it asked.
pub type AskSeat = MeterSeat<Asks, bool>;

/// The seat that looks whether the asker asked. It knows whether it found that it had.
pub type FeedSeat = MeterSeat<Looks, bool>;
