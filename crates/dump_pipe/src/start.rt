//! Waiting, with a time limit, for a thread that may fail to start.
ghost use Rattle.std.specs.Prelude.{◌≡◌, IfOk, IfSome, Some, None};
ghost use Rattle.dump_pipe.specs.Starts.{was_told, Agree};

use crate::start_rule::{Compares, Parts, Starts};
use crate::start_seats::{BeginSeat, StartSeat, WaitSeat};
use crate::start_side::StartSide;
use atomic_table::Table;
use std::alloc::{AllocError, Global};
use std::marker::Model;
use std::sync::Wait;
use std::time::Duration;

/// The number of turns that a thread is waited for: some 100 ms. A thread mostly begins within one of them. To give it up
/// costs that one dump its second thread, and nothing else; a dump for which no thread starts loses just that time.
pub const START_TURNS: u64 = 100;

// The longest time of a turn, in milliseconds.
const TURN_LIMIT: u64 = 1;

/// Whether a thread has begun, or was given up. Of the two, the first stands. Contracts see which start it is.
#[derive(Drop)]
pub struct Start {
    table: Table<(), StartSide, (), Starts, Global>,
}

impl Model for Start {
    ghost use Rattle.std.specs.Prelude.{◌≡◌};
    ghost use Rattle.atomic_table.specs.Seated.{TableId, table_id_coded};

    ghost Value = { TableId };

    ghost coded = { table_id_coded };

    ghost view = { λ s. s.table.shared.table_id };

    ghost invariant = { λ s. s.table.shared.table_id.words ≡ 1 };
}

/// A start with its two seats.
#[derive(Drop)]
pub struct NewStart {
    /// The start.
    pub start: Start,
    /// The seat of the thread that begins.
    pub beginner: BeginSeat,
    /// The seat of the thread that waits.
    pub waiter: WaitSeat,
}

impl Start {
    // The word while the thread hasn't begun and isn't given up.
    const IDLE: u64 = 0;

    // The word once the thread has begun.
    const BEGUN: u64 = 1;

    // The word once the thread is given up.
    const GIVEN_UP: u64 = 2;

    /// Creates a start that nobody has made. Fails if an allocation fails.
    pub fn new(alloc: Global) -> Result<NewStart, AllocError>
        ensures beginner { IfOk result (λ s. s.beginner ≡ was_told s.start None) }
        ensures waiter { IfOk result (λ s. s.waiter ≡ was_told s.start None) }
    {
        let (table, mut whole) = Table::of_words(alloc, &[Start::IDLE], &())?;
        let waiter = table.shared.split_seat::<Parts>(&mut whole);
        Ok(NewStart {
            start: Start { table },
            beginner: StartSeat::of(whole),
            waiter: StartSeat::of(waiter),
        })
    }

    /// Begins, and wakes the waiter. Returns false if the thread was given up. A seat that was told once is told the same again.
    pub fn begin(&self, seat: &mut BeginSeat) -> bool
        requires { seat.old.start ≡ self.now }
        ensures told { seat.new ≡ was_told self.now (Some result) }
        ensures lasting { IfSome seat.old.told (λ b. b ≡ result) }
    {
        let shared = &self.table.shared;
        let found = shared.compare_exchange::<BeginSeat>(
            &mut seat.seat,
            0,
            Start::IDLE,
            Start::BEGUN,
        );
        shared.wake_one(0);
        found != Start::GIVEN_UP
    }

    /// Returns true once the thread has begun, and gives it up if it hasn't after `START_TURNS` turns of a millisecond.
    /// Sleeps in between. A seat that was told once is told the same again.
    pub fn is_begun<R: Wait>(&self, rt: &R, seat: &mut WaitSeat) -> bool
        requires { seat.old.start ≡ self.now }
        ensures told { seat.new ≡ was_told self.now (Some result) }
        ensures lasting { IfSome seat.old.told (λ b. b ≡ result) }
    {
        self.sleep(rt);
        let shared = &self.table.shared;
        let found = shared.compare_exchange::<WaitSeat>(
            &mut seat.seat,
            0,
            Start::IDLE,
            Start::GIVEN_UP,
        );
        found == Start::BEGUN
    }

    // Sleeps until the word is set, for `START_TURNS` turns at most.
    fn sleep<R: Wait>(&self, rt: &R) {
        let shared = &self.table.shared;
        for _ in 0..START_TURNS {
            if shared.peek(0) != Start::IDLE {
                return;
            }
            shared.park_timeout(rt, 0, Start::IDLE as u32, Duration::from_millis(TURN_LIMIT));
        }
    }

    /// Takes in both seats of this start. The one that waits was told that the thread has begun only if the other was told to go
    /// on, which was told otherwise only if the first gave it up. If both were told, they were told the same.
    pub fn settle(&self, beginner: BeginSeat, waiter: WaitSeat)
        requires beginner { beginner.start ≡ self.now }
        requires waiter { waiter.start ≡ self.now }
        ensures { Agree beginner.told waiter.told }
    {
        let StartSeat { mut seat, of: _ } = beginner;
        let StartSeat { seat: other, of: _ } = waiter;
        self.table.shared.join_seat::<Compares>(&mut seat, other);
        let _ = self.table.shared.load::<Compares>(&mut seat, 0);
    }
}
