//! Sessions over one shared heap whose collector is tended in two threads.
ghost use Rattle.std.specs.Prelude.{◌≡◌, ◌∷◌, ◌+◌, ◌≤◌, IfOk, IfErr, length, replicate};
ghost use Rattle.heap_lock.specs.Refusal.TheVariants.{NoMemory};
ghost use Rattle.heap_lock.specs.declared.role.Role.TheVariants as role;
ghost use Rattle.heap_server.specs.SessionSeats.{IsFor, session_limit};
ghost use Rattle.heap_server.specs.Tending.{AreStaff, MarkRuns, SweepRuns};

use crate::sessions::{Ports, Served, Terms, serve_clients};
use crate::tending::{Duty, tend};
use heap_lock::{Blank, Config, Heap, Refusal, Role, Seat, Seats, Shared};
use std::alloc::{AllocError, Global};
use std::snapshot::Snapshot;
use std::sync::Wait;
use std::sync::atomic::{AtomicBool, Ordering};
use std::thread;
use std::thread::{Promise, PromisedHandle, Scope, Threads};
use std::time::Clock;

/// The seats of a heap whose collector is tended.
#[derive(Drop)]
pub struct Staff<L: Heap> {
    pub marker: Seat<L>,
    pub sweeper: Seat<L>,
    pub users: Seats<L>,
}

/// How the sessions over a heap that a type names ended, and the seats of its workers.
#[derive(Drop)]
pub struct Tended<L: Heap> {
    pub served: Served,
    pub marker: Seat<L>,
    pub sweeper: Seat<L>,
}

// The promise that a marker's seat comes back as runs of its worker leave it.
#[derive(Drop)]
pub(crate) struct MarksFrom<L: Heap>(pub(crate) Snapshot<Seat<L>>);

impl<L: Heap> Promise<Seat<L>> for MarksFrom<L> {
    ghost use Rattle.heap_server.specs.Tending.{MarkRuns};

    ghost kept_by = { λ p seat. MarkRuns L.config p.0.value seat };
}

// The promise that a sweeper's seat comes back as runs of its worker leave it.
#[derive(Drop)]
pub(crate) struct SweepsFrom<L: Heap>(pub(crate) Snapshot<Seat<L>>);

impl<L: Heap> Promise<Seat<L>> for SweepsFrom<L> {
    ghost use Rattle.heap_server.specs.Tending.{SweepRuns};

    ghost kept_by = { λ p seat. SweepRuns L.config p.0.value seat };
}

/// Creates a heap of these settings with the marker's seat, the sweeper's, and a user's for each of 1 to 1,001 sessions, in
/// this order: one more than are served, for a session that is run first. Fails with NoMemory.
pub fn workers_and_users(alloc: Global, config: Config, sessions: u64) -> Result<Blank, Refusal>
    requires { (1 ≤ sessions) × (sessions ≤ session_limit + 1) }
    ensures settings { IfOk result (λ b. b.config ≡ config) }
    ensures seats { IfOk result (λ b. AreStaff sessions b.seats) }
    ensures refused { IfErr result (λ e. e ≡ NoMemory) }
{
    let Ok(roles) = roles(alloc, sessions) else {
        return Err(Refusal::NoMemory);
    };
    Blank::new(alloc, config, roles.as_slice())
}

// Returns the roles of the marker, the sweeper and `sessions` users, in this order. Fails if they can't be allocated.
fn roles(alloc: Global, sessions: u64) -> Result<Vec<Role>, AllocError>
    requires { sessions ≤ session_limit + 1 }
    ensures { IfOk result
        (λ v. v.items ≡ role.Marker ∷ role.Sweeper ∷ replicate sessions role.User) }
{
    let mut users = vec![in alloc; Role::User; sessions as usize]?;
    let mut roles = Vec::new(alloc);
    roles.push(Role::Marker)?;
    roles.push(Role::Sweeper)?;
    roles.append(&mut users)?;
    Ok(roles)
}

// The threads of both workers.
#[derive(Drop)]
pub(crate) struct Workers<L: Heap> {
    pub(crate) marking: PromisedHandle<Seat<L>, MarksFrom<L>>,
    pub(crate) sweeping: PromisedHandle<Seat<L>, SweepsFrom<L>>,
}

// Begins the threads of both workers. Fails if one can't be started; the other is then told to stop, and joined.
pub(crate) fn begin_workers<'s, E, L: Heap + Send + Sync, R: Clock + Threads + Wait + Sync>(
    scope: &Scope<'s, E>,
    rt: &'s R,
    shared: &'s Shared<L>,
    marker: Seat<L>,
    sweeper: Seat<L>,
    stop: &'s AtomicBool,
) -> Result<Workers<L>, AllocError>
    requires { (marker.role ≡ role.Marker) × (sweeper.role ≡ role.Sweeper) }
    ensures { IfOk result
        (λ w. (w.marking.promise.0.value ≡ marker) × (w.sweeping.promise.0.value ≡ sweeper)) }
{
    let marks = MarksFrom(Snapshot::of(&marker));
    let mark = move || tend(rt, shared, marker, Duty::Mark, stop);
    let marking = scope.spawn_with(marks, mark)?;
    let sweeps = SweepsFrom(Snapshot::of(&sweeper));
    let sweep = move || tend(rt, shared, sweeper, Duty::Sweep, stop);
    let Ok(sweeping) = scope.spawn_with(sweeps, sweep) else {
        stop.store(true, Ordering::SeqCst);
        let _ = marking.join(rt);
        return Err(AllocError);
    };
    Ok(Workers { marking, sweeping })
}

/// Serves clients as `serve_clients` does, while two threads tend the collector. They begin before the first accept, and are
/// told to stop and joined after the last session. Fails if a thread for them can't be started, or memory is refused to the
/// endings, and accepts nothing. May wait.
pub fn serve_tended<L: Heap + Send + Sync, R: Clock + Eprint + Threads + Wait + Sync>(
    rt: &R,
    alloc: Global,
    shared: &Shared<L>,
    staff: Staff<L>,
    ports: Ports,
    terms: Terms,
) -> Result<Tended<L>, AllocError>
    requires { AreStaff (length staff.users) (staff.marker ∷ staff.sweeper ∷ staff.users) }
    ensures served { IfOk result (λ t. IsFor L.config L.tables terms staff.users t.served) }
    ensures marks { IfOk result (λ t. MarkRuns L.config staff.marker t.marker) }
    ensures sweeps { IfOk result (λ t. SweepRuns L.config staff.sweeper t.sweeper) }
{
    let word = AtomicBool::new(false);
    let stop = &word;
    thread::scope(
        thread::scope_env(),
        rt,
        move |scope| -> Result<Tended<L>, AllocError>
            requires { AreStaff (length staff.users)
                (staff.marker ∷ staff.sweeper ∷ staff.users) }
            ensures served { IfOk result
                (λ t. IsFor L.config L.tables terms staff.users t.served) }
            ensures marks { IfOk result (λ t. MarkRuns L.config staff.marker t.marker) }
            ensures sweeps { IfOk result (λ t. SweepRuns L.config staff.sweeper t.sweeper) }
        {
            let workers = begin_workers(scope, rt, shared, staff.marker, staff.sweeper, stop)?;
            let served = serve_clients(rt, alloc, shared, staff.users, ports, terms);
            stop.store(true, Ordering::SeqCst);
            let marker = workers.marking.join(rt);
            let sweeper = workers.sweeping.join(rt);
            let served = served?;
            Ok(Tended {
                served,
                marker,
                sweeper,
            })
        },
    )
}
