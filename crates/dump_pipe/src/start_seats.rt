//! The seats of a start.
ghost use Rattle.std.specs.Prelude.{◌≡◌, []};
ghost use Rattle.dump_pipe.specs.Starts.{was_told, told_to};

use crate::start_rule::{Begins, StartKind, Waits};
use crate::start_side::StartSide;
use atomic_table::{Play, Seat};
use std::marker::{Model, PhantomData};

/// A seat of a start, of the kind `K`. Contracts see its start, and what it was told. The type names the step of its seats, too.
#[derive(Drop)]
pub struct StartSeat<K: StartKind> {
    pub(crate) seat: Seat<(), StartSide>,
    pub(crate) of: PhantomData<K>,
}

impl<K: StartKind> Model for StartSeat<K> {
    ghost use Rattle.std.specs.Prelude.{◌≡◌, []};
    ghost use Rattle.dump_pipe.specs.Starts.{StartState, was_told, told_to};

    ghost Value = { StartState };

    ghost view = { λ s. was_told s.seat.table_id (told_to s.seat.me.0) };

    ghost invariant = { λ s. s.seat.me ≡ (K.view (told_to s.seat.me.0), []) };
}

impl<K: StartKind> Play<(), StartSide> for StartSeat<K> {
    ghost use Rattle.dump_pipe.specs.Starts.{WasToldBy};

    ghost then = { λ _ m found n. WasToldBy K.view (K.told found) m n };
}

impl<K: StartKind> StartSeat<K> {
    // Makes a seat of one with its side.
    pub(crate) fn of(seat: Seat<(), StartSide>) -> StartSeat<K>
        requires { seat.me ≡ (K.view (told_to seat.me.0), []) }
        ensures { result ≡ was_told seat.table_id (told_to seat.me.0) }
    {
        StartSeat {
            seat,
            of: PhantomData,
        }
    }
}

/// The seat of the thread that begins. It knows whether it was told to go on.
pub type BeginSeat = StartSeat<Begins>;

/// The seat of the thread that waits. It knows whether it was told that the other has begun.
pub type WaitSeat = StartSeat<Waits>;
