//! Seats that serve one client after another, over a heap whose collector is tended in two threads.
ghost use Rattle.std.specs.Prelude.{◌∷◌, IfOk, length};
ghost use Rattle.heap_server.specs.Staying.{AreStays};
ghost use Rattle.heap_server.specs.Tending.{AreStaff, MarkRuns, SweepRuns};

use crate::sessions::{Ports, Terms};
use crate::staying::{Stayed, serve_staying};
use crate::tended::{Staff, begin_workers};
use heap_lock::{Heap, Seat, Shared};
use std::alloc::{AllocError, Global};
use std::sync::Wait;
use std::sync::atomic::{AtomicBool, Ordering};
use std::thread;
use std::thread::Threads;
use std::time::Clock;

/// What the seats of a heap did that stays, and the two seats of its workers as their runs left them.
#[derive(Drop)]
pub struct StayTended<L: Heap> {
    pub stayed: Stayed,
    pub marker: Seat<L>,
    pub sweeper: Seat<L>,
}

/// Serves clients from all users' seats at a time as `serve_staying` does, while two threads tend the collector. They begin before
/// the first accept, and are told to stop and joined after the last session. Fails as `serve_staying` does, and if a thread for
/// them can't be started. May wait.
pub fn serve_staying_tended<L: Heap + Send + Sync, R>(
    rt: &R,
    alloc: Global,
    shared: &Shared<L>,
    staff: Staff<L>,
    ports: Ports,
    terms: Terms,
) -> Result<StayTended<L>, AllocError>
where
    R: Clock + Eprint + Print + Threads + Wait + Sync,
    requires { AreStaff (length staff.users) (staff.marker ∷ staff.sweeper ∷ staff.users) }
    ensures seats { IfOk result
        (λ s. AreStays L.config L.tables terms staff.users s.stayed.seats.items) }
    ensures marks { IfOk result (λ s. MarkRuns L.config staff.marker s.marker) }
    ensures sweeps { IfOk result (λ s. SweepRuns L.config staff.sweeper s.sweeper) }
{
    let stop = &AtomicBool::new(false);
    thread::scope(
        thread::scope_env(),
        rt,
        move |scope| -> Result<StayTended<L>, AllocError>
            requires { AreStaff (length staff.users) (staff.marker ∷ staff.sweeper ∷ staff.users) }
            ensures seats { IfOk result
                (λ s. AreStays L.config L.tables terms staff.users s.stayed.seats.items) }
            ensures marks { IfOk result (λ s. MarkRuns L.config staff.marker s.marker) }
            ensures sweeps { IfOk result (λ s. SweepRuns L.config staff.sweeper s.sweeper) }
        {
            let workers = begin_workers(scope, rt, shared, staff.marker, staff.sweeper, stop)?;
            let stayed = serve_staying(rt, alloc, shared, staff.users, ports, terms);
            stop.store(true, Ordering::SeqCst);
            let marker = workers.marking.join(rt);
            let sweeper = workers.sweeping.join(rt);
            Ok(StayTended {
                stayed: stayed?,
                marker,
                sweeper,
            })
        },
    )
}
