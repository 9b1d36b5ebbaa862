//! Threads that tend the collector of a shared heap.
ghost use Rattle.std.specs.Prelude.{◌≡◌};
ghost use Rattle.heap_lock.specs.Collector.{SeesState};
ghost use Rattle.heap_server.specs.Tending.{TakesTurn, Tends, rests_in, role_for};

use heap_lock::{Heap, Phase, Seat, Shared, Witness};
use heap_work::{Gate, MarkEnd, SweepEnd, pending_worker, resume_worker};
use std::sync::Wait;
use std::sync::atomic::{AtomicBool, Ordering};
use std::thread;
use std::time::{Clock, Duration};

// The acts of a run at most: as many as a chronicle keeps.
const RUN_TURNS: u64 = 1_000_000;

// A gate that is open until the stop word is set. It yields at each pass, so that the lock is free between two acts.
#[derive(Clone, Copy)]
struct Unstopped<'a> {
    stop: &'a AtomicBool,
}

impl<'a> Gate for Unstopped<'a> {
    fn pass(&mut self, turn: u64) -> bool {
        let _ = turn;
        thread::yield_now();
        !self.stop.load(Ordering::SeqCst)
    }
}

/// Does its work until the stop word is set or an act is refused, NoMemory or ChronicleFull. Returns the seat within one act of
/// the stop, or within a millisecond if it sleeps. May wait.
#[tactic(auto, using(crate::proofs::WorkerRuns::works_none))]
pub fn tend<L: Heap, R: Clock + Wait>(
    rt: &R,
    shared: &Shared<L>,
    seat: Seat<L>,
    duty: Duty,
    stop: &AtomicBool,
) -> Seat<L>
    requires { seat.role ≡ role_for duty }
    ensures { Tends duty L.config seat result }
{
    let mut seat = seat;
    let mut witness = shared.witness(rt);
    for _ in rt.forever() {
        if stop.load(Ordering::SeqCst) {
            return seat;
        }
        if !works_on(rt, shared, &mut seat, &mut witness, duty, stop) {
            return seat;
        }
    }
    unreachable!()
}

/// The work of a thread that tends the collector.
#[derive(Clone, Copy)]
pub enum Duty {
    /// To go on with each cycle that others begin, by runs of a worker that begins none.
    Mark,
    /// To sweep the regions that wait for it, by runs of a worker that asks for no others.
    Sweep,
}

// Runs the worker, or sleeps if there is nothing to do or a region has to be swept before a cycle. Returns whether to go on.
#[tactic(auto, using(crate::proofs::WorkerRuns::worker_with_nothing_rests, crate::proofs::WorkerRuns::is_marker, crate::proofs::WorkerRuns::role_stays, crate::proofs::WorkerRuns::is_sweeper, crate::proofs::WorkerRuns::role_keeps))]
fn works_on<L: Heap, R: Clock + Wait>(
    rt: &R,
    shared: &Shared<L>,
    seat: &mut Seat<L>,
    witness: &mut Witness<L>,
    duty: Duty,
    stop: &AtomicBool,
) -> bool
    requires { seat.old.role ≡ role_for duty }
    ensures works { TakesTurn duty L.config seat.old witness.old seat.new witness.new }
    ensures role { seat.new.role ≡ role_for duty }
{
    if is_idle(rt, shared, witness, duty) {
        pause(rt);
        return true;
    }
    let mut gate = Unstopped { stop };
    match duty {
        Duty::Mark => match resume_worker(shared, rt, seat, &mut gate, RUN_TURNS) {
            MarkEnd::Refused(_) => false,
            MarkEnd::Pending(_) => {
                pause(rt);
                true
            }
            _ => true,
        },
        Duty::Sweep => match pending_worker(shared, rt, seat, witness, &mut gate, RUN_TURNS) {
            SweepEnd::Refused(_) => false,
            _ => true,
        },
    }
}

// Tells whether there is nothing to do: no cycle runs, or no region waits to be swept.
fn is_idle<L: Heap, R: Wait>(
    rt: &R,
    shared: &Shared<L>,
    witness: &mut Witness<L>,
    duty: Duty,
) -> bool
    ensures { SeesState L.config witness.old (λ w. result ≡ rests_in duty w) witness.new }
{
    match duty {
        Duty::Mark => matches!(shared.phase(rt, witness), Phase::Idle),
        Duty::Sweep => shared.pending(rt, witness).is_none(),
    }
}

// Sleeps a millisecond.
fn pause<R: Clock>(rt: &R) {
    thread::sleep(rt, Duration::from_millis(1));
}
