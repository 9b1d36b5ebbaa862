//! The pace of mutators and a collector: nobody begins before the others have done what it waits for.
use crate::locked::sinks::{Flags, reaches};
use heap_runtime::Pace;
use std::sync::Wait;
use std::sync::atomic::Ordering;
use std::test::Fail;
use std::thread;
use std::thread::{Threads, yield_now};

// The number of times that other threads are let run before the test looks whether one still waits.
const YIELDS: u64 = 50_000;

// Who waits for the others, by the pace of two mutators, none of which is more than two rounds ahead.
#[derive(Clone, Copy)]
enum Waiter {
    // A mutator, before its fourth round, for the first sweep.
    Mutator,
    // The marker, before its first cycle, for the second mutator.
    Marker,
    // The marker, before its second cycle, for the first sweep.
    NextMarker,
    // The sweeper, before its first cycle, for the marker.
    Sweeper,
}

const WAITERS: &[Waiter] = &[
    Waiter::Mutator,
    Waiter::Marker,
    Waiter::NextMarker,
    Waiter::Sweeper,
];

#[test]
fn nobody_begins_a_round_too_early(rt: HostRuntime) -> Result<(), Fail> {
    assert!(rt; all_keep(&rt));
    Ok(())
}

// Returns whether each waiter waits just as long as it must, and a mutator begins its third round at once.
fn all_keep<R: Threads + Wait>(rt: &R) -> bool {
    for waiter in WAITERS {
        if !keeps(rt, *waiter) {
            return false;
        }
    }
    Pace::new(2, 2).begin_round(2).is_some()
}

// Returns whether a waiter waits until it is let go on, and no longer.
fn keeps<R: Threads + Wait>(rt: &R, waiter: Waiter) -> bool {
    let pace = &Pace::new(2, 2);
    let flags = &Flags::new();
    end_rounds(pace, waiter);
    let (waited, let_go) = thread::join(
        rt,
        move || waits(pace, waiter, flags),
        move || lets_go(pace, waiter, flags),
    );
    waited && let_go
}

// Ends the rounds that have to be over before the waiter lacks one thing alone.
fn end_rounds(pace: &Pace, waiter: Waiter) {
    let rounds: u64 = match waiter {
        Waiter::Mutator | Waiter::Sweeper => 0,
        Waiter::Marker => 1,
        Waiter::NextMarker => 4,
    };
    for _ in 0..rounds {
        pace.end_round();
    }
}

// Waits, and tells that it begins to wait and that it has waited. Returns whether it was let go on.
fn waits(pace: &Pace, waiter: Waiter, flags: &Flags) -> bool {
    flags.here.store(1, Ordering::SeqCst);
    let waited = match waiter {
        Waiter::Mutator => pace.begin_round(3),
        Waiter::Marker => pace.begin_marking(0),
        Waiter::NextMarker => pace.begin_marking(1),
        Waiter::Sweeper => pace.begin_sweeping(0),
    };
    flags.done.store(1, Ordering::SeqCst);
    waited.is_some()
}

// Lets other threads run for a while once the waiter waits, and then does what it waits for. Returns whether it waited until then.
fn lets_go(pace: &Pace, waiter: Waiter, flags: &Flags) -> bool {
    let here = reaches(&flags.here, 1);
    for _ in 0..YIELDS {
        yield_now();
    }
    let still = flags.done.load(Ordering::SeqCst) == 0;
    match waiter {
        Waiter::Mutator | Waiter::NextMarker => pace.end_sweeping(),
        Waiter::Marker => pace.end_round(),
        Waiter::Sweeper => pace.end_marking(),
    }
    here && still
}
