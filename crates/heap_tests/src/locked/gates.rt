//! Gates of workers: each is passed once before each act, and without the lock.
use super::scenes::{Scene, play_scene};
use super::shared::did;
use super::sinks::reaches;
use super::workers::{WorkEnd, began, run_worker};
use heap_lock::{Event, Heap, Seat, Shared};
use heap_work::{Gate, MarkEnd, SweepEnd};
use std::alloc::Global;
use std::sync::Wait;
use std::sync::atomic::{AtomicU64, Ordering};
use std::test::*;
use std::thread;
use std::thread::Threads;

// The turn that a gate was told, and the turn at which another seat acted.
#[derive(Drop)]
struct Turns {
    here: AtomicU64,
    seen: AtomicU64,
}

// A gate at which another seat acts: each pass waits until that is answered, and lets no act begin if it never is. Counts the
// passes.
#[derive(Drop)]
struct WatchedGate<'a> {
    passes: u64,
    turns: &'a Turns,
}

impl<'a> Gate for WatchedGate<'a> {
    fn pass(&mut self, turn: u64) -> bool {
        self.passes = self.passes.saturating_add(1);
        self.turns.here.store(turn, Ordering::SeqCst);
        reaches(&self.turns.seen, turn)
    }
}

/// Acts by a user at each pass of a marker, which has five turns, and then of a sweeper, which has one for each region. Returns
/// whether both went as they must.
pub fn watched_workers<L: Heap + Send + Sync, R: Threads + Wait + Sync>(
    rt: &R,
    alloc: Global,
    shared: &Shared<L>,
    user: &mut Seat<L>,
    marker: &mut Seat<L>,
    sweeper: &mut Seat<L>,
) -> bool {
    began(rt, alloc, shared, user)
        && both_go(rt, shared, marker, user, 3, 5)
        && both_go(rt, shared, sweeper, user, 13, 16)
}

// Runs a worker in one thread, and acts at each of its passes in another, after `first` entries. Returns whether both went as
// they must.
fn both_go<L: Heap + Send + Sync, R: Threads + Wait + Sync>(
    rt: &R,
    shared: &Shared<L>,
    worker: &mut Seat<L>,
    user: &mut Seat<L>,
    first: u64,
    count: u64,
) -> bool {
    let turns = &Turns {
        here: AtomicU64::new(0),
        seen: AtomicU64::new(0),
    };
    let (worked, acted) = thread::join(
        rt,
        move || works(rt, shared, worker, count, turns),
        move || acts_at_each(rt, shared, user, first, count, turns),
    );
    worked && acted
}

// Runs the worker of a seat for `count` turns. Returns whether it used them up, and passed the gate as often.
fn works<L: Heap, R: Wait>(
    rt: &R,
    shared: &Shared<L>,
    seat: &mut Seat<L>,
    count: u64,
    turns: &Turns,
) -> bool {
    let mut gate = WatchedGate { passes: 0, turns };
    let ended = matches!(
        run_worker(rt, shared, seat, &mut gate, count),
        Some((
            WorkEnd::Marked(MarkEnd::TurnsOver) | WorkEnd::Swept(SweepEnd::Swept),
            _
        ))
    );
    ended && gate.passes == count
}

// Acts at each of `passes` passes of a gate. Returns whether the gate was told the number of the worker's act, counted from 1,
// and there was an entry for each act of the two before, after the first `first`, and no other.
fn acts_at_each<L: Heap, R: Wait>(
    rt: &R,
    shared: &Shared<L>,
    user: &mut Seat<L>,
    first: u64,
    passes: u64,
    turns: &Turns,
) -> bool {
    let mut entries = first;
    for before in 0..passes {
        let turn = before + 1;
        if !reaches(&turns.here, turn)
            || turns.here.load(Ordering::SeqCst) != turn
            || clears(rt, shared, user) != entries.saturating_add(1)
        {
            return false;
        }
        entries = entries.saturating_add(2);
        turns.seen.store(turn, Ordering::SeqCst);
    }
    true
}

// Returns the turn of an act, or 0 if it has none.
fn clears<L: Heap, R: Wait>(rt: &R, shared: &Shared<L>, seat: &mut Seat<L>) -> u64 {
    match did(rt, shared, seat, Event::Clear { m: 0, r: 5 }) {
        Some(receipt) => receipt.turn,
        None => 0,
    }
}

#[test]
fn gates_are_passed_before_each_act(rt: HostRuntime) -> Result<(), Fail> {
    assert!(rt; play_scene(&rt, rt.alloc(), Scene::WatchedWorkers));
    Ok(())
}
