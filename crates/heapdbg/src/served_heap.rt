//! A heap that the sessions of clients share, after what is run first.
ghost use Rattle.std.specs.Prelude.{◌≡◌, ◌∷◌, IfErr, IfOk, false, length, true};
ghost use Rattle.session_text.specs.Limits.{session_limits};
ghost use Rattle.heap_server.specs.Blanks.{IsNamed, seat_model_of};
ghost use Rattle.heap_server.specs.Calls.{IsLegalLedger};
ghost use Rattle.heap_server.specs.LockStates.{IsSeatModel};
ghost use Rattle.heap_server.specs.Role.TheVariants.{User};
ghost use Rattle.heap_server.specs.Tending.{AreStaff};
ghost use Rattle.question_grammar.specs.Bookmarks.{no_bookmarks};
ghost use Rattle.private_tasks.specs.Explorations.{IsHindrance, has_area};
ghost use Rattle.heapdbg.specs.ServedHeaps.{AreSeatsFor, AreSessionsFrom, AreWorkersLeft, IsHeapServed, IsSeatLoaded};

use heap_server::{
    AskingSeat, Blank, Heap, Joined, Ports, Seat, Seats, Served, Shared, Staff, Stayed, Terms,
    UnnamedSeat, serve_clients, serve_staying, serve_staying_tended, serve_tended,
};
use heapdbg_options::settings::{Origin, Service};
use private_tasks::{Fault, Request, run_first};
use std::alloc::{AllocError, Global};
use std::fs::Files;
use std::marker::Brand;
use std::snapshot::Snapshot;
use std::sync::Wait;
use std::thread::Threads;
use std::time::Clock;

/// The seats of the two workers of a heap, as their runs left them.
#[derive(Drop)]
pub struct WorkersLeft {
    pub marker: UnnamedSeat,
    pub sweeper: UnnamedSeat,
}

/// How the sessions over a heap ended.
#[derive(Drop)]
pub enum Sessions {
    /// One session from each seat.
    Once(Served),
    /// One after another from each seat, for as long as clients could be accepted.
    Stayed(Stayed),
}

/// A heap that was served: as it was made, the terms of its sessions, the seat that was first to act, as that left it, the seats of
/// its workers, if there were any, and its sessions.
#[derive(Drop)]
pub struct HeapServed {
    pub made: Snapshot<Blank>,
    pub terms: Terms,
    pub first: UnnamedSeat,
    pub workers: Option<WorkersLeft>,
    pub sessions: Sessions,
}

/// Opens a heap, runs from a seat of its own what the service says, as `run_first` does, and then serves clients from the others:
/// a session from each seat, or one after another if the heap stays. Two threads tend the collector meanwhile if there are workers.
/// Says on standard error, if that is a terminal, that clients are accepted, right before they are. Fails as `run_first` does, and
/// with Memory if memory or a thread is refused. May wait.
pub(crate) fn serve_blank<R>(
    rt: &R,
    request: Request<'_>,
    service: Service,
    blank: Blank,
    ports: Ports,
    terms: Terms,
    is_terminal: bool,
) -> Result<HeapServed, Fault>
where
    R: AllocGlobal + Clock + Eprint + Files + Print + Threads + Wait + Sync,
    requires { AreSeatsFor service.sessions blank.seats }
    ensures served { IfOk result (IsHeapServed request.entry.settings service blank terms) }
    ensures hindrance { IfErr result (IsHindrance service.origin) }
{
    serve_named::<Brand, R>(rt, request, service, blank, ports, terms, is_terminal)
}

// Opens a heap that a type names, and serves it as `serve_blank` does.
#[tactic(auto, using(private_tasks::proofs::Hindrances::no_memory_hinders))]
fn serve_named<L: Heap + Send + Sync, R>(
    rt: &R,
    request: Request<'_>,
    service: Service,
    blank: Blank,
    ports: Ports,
    terms: Terms,
    is_terminal: bool,
) -> Result<HeapServed, Fault>
where
    R: AllocGlobal + Clock + Eprint + Files + Print + Threads + Wait + Sync,
    requires named { IsNamed L.config L.tables L.ledger L.rolls blank }
    requires seats { AreSeatsFor service.sessions blank.seats }
    ensures served { IfOk result (IsHeapServed request.entry.settings service blank terms) }
    ensures hindrance { IfErr result (IsHindrance service.origin) }
{
    let made = Snapshot::of(&blank);
    let (shared, seats) = blank.open::<L>();
    let (seat, staff) = seats_for(seats, service.sessions);
    let seat = match load(rt, request, service.origin, &shared, seat, is_terminal) {
        Ok(seat) => seat,
        Err(fault) => return Err(fault),
    };
    let first = seat.into_unnamed();
    announce(rt, service.port, is_terminal);
    let own = &terms;
    match serve_staff(rt, rt.alloc(), &shared, service, staff, ports, *own) {
        Ok((sessions, workers)) => Ok(HeapServed {
            made,
            terms: *own,
            first,
            workers,
            sessions,
        }),
        Err(_) => Err(Fault::Memory),
    }
}

// Returns the seat that is first to act, and the others with those of the workers.
fn seats_for<L: Heap>(seats: Seats<L>, sessions: u64) -> (Seat<L>, Staff<L>)
    requires { AreSeatsFor sessions seats }
    ensures seats { seats ≡ result.1.marker ∷ result.1.sweeper ∷ result.0 ∷ result.1.users }
    ensures first { result.0.role ≡ User }
    ensures staff { AreStaff sessions (result.1.marker ∷ result.1.sweeper ∷ result.1.users) }
{
    // Only the contract uses it.
    let _sessions = sessions;
    let mut users = seats;
    let Some(marker) = users.take() else {
        unreachable!()
    };
    let Some(sweeper) = users.take() else {
        unreachable!()
    };
    let Some(first) = users.take() else {
        unreachable!()
    };
    let staff = Staff {
        marker,
        sweeper,
        users,
    };
    (first, staff)
}

// Runs from a seat what `origin` says, as `run_first` does, and gives the seat back.
#[tactic(auto, using(crate::proofs::LoadedSeats::run_from_a_seat_loads_it))]
fn load<L: Heap, R: AllocGlobal + Clock + Eprint + Files + Wait>(
    rt: &R,
    request: Request<'_>,
    origin: Origin,
    shared: &Shared<L>,
    seat: Seat<L>,
    is_terminal: bool,
) -> Result<Seat<L>, Fault>
    requires { seat.role ≡ User }
    ensures loaded { IfOk result (IsSeatLoaded (session_limits request.entry.settings.wide)
        (has_area request.entry.settings) L.config origin request.entry.settings.time seat) }
    ensures hindrance { IfErr result (IsHindrance origin) }
{
    let commands = asking_from(rt.alloc(), rt, shared, seat);
    match run_first(rt, request, origin, is_terminal, commands) {
        Ok(asking) => Ok(asking.into_seat()),
        Err(fault) => Err(fault),
    }
}

// Creates the commands of a seat, which answer questions, too.
fn asking_from<'a, L: Heap, R: Wait>(
    alloc: Global,
    rt: &'a R,
    shared: &'a Shared<L>,
    seat: Seat<L>,
) -> AskingSeat<'a, L, R>
    requires { seat.role ≡ User }
    ensures seat { result.seat ≡ seat }
    ensures legal { IsLegalLedger L.config result.seen }
    ensures unnamed { result.bookmarks ≡ no_bookmarks }
{
    AskingSeat::new(Joined::new(alloc, shared, rt, seat, shared.witness(rt)))
}

// Says that clients are accepted at a port, if standard error is a terminal.
fn announce<R: Eprint>(rt: &R, port: u16, is_terminal: bool) {
    if is_terminal {
        let _ = eprintln!(rt; "heapdbg: listening on 127.0.0.1:{port}");
    }
}

// Serves clients from the seats of users, with two threads that tend the collector if there are workers.
fn serve_staff<L: Heap + Send + Sync, R>(
    rt: &R,
    alloc: Global,
    shared: &Shared<L>,
    service: Service,
    staff: Staff<L>,
    ports: Ports,
    terms: Terms,
) -> Result<(Sessions, Option<WorkersLeft>), AllocError>
where
    R: Clock + Eprint + Print + Threads + Wait + Sync,
    requires { AreStaff (length staff.users) (staff.marker ∷ staff.sweeper ∷ staff.users) }
    ensures sessions { IfOk result (λ r. AreSessionsFrom service.stays L.config L.tables terms
        staff.users r.0) }
    ensures workers { IfOk result (λ r. AreWorkersLeft service.workers L.config L.tables
        staff.marker staff.sweeper r.1) }
{
    if service.stays {
        serve_on(rt, alloc, shared, service.workers, staff, ports, terms)
    } else {
        serve_once(rt, alloc, shared, service.workers, staff, ports, terms)
    }
}

// Serves one session after another from each seat.
fn serve_on<L: Heap + Send + Sync, R: Clock + Eprint + Print + Threads + Wait + Sync>(
    rt: &R,
    alloc: Global,
    shared: &Shared<L>,
    workers: u64,
    staff: Staff<L>,
    ports: Ports,
    terms: Terms,
) -> Result<(Sessions, Option<WorkersLeft>), AllocError>
    requires { AreStaff (length staff.users) (staff.marker ∷ staff.sweeper ∷ staff.users) }
    ensures sessions { IfOk result
        (λ r. AreSessionsFrom true L.config L.tables terms staff.users r.0) }
    ensures workers { IfOk result (λ r. AreWorkersLeft workers L.config L.tables staff.marker
        staff.sweeper r.1) }
{
    if workers == 0 {
        return match serve_staying(rt, alloc, shared, staff.users, ports, terms) {
            Ok(stayed) => Ok((Sessions::Stayed(stayed), None)),
            Err(error) => Err(error),
        };
    }
    match serve_staying_tended(rt, alloc, shared, staff, ports, terms) {
        Ok(stays) => {
            let left = workers_left(stays.marker, stays.sweeper);
            Ok((Sessions::Stayed(stays.stayed), Some(left)))
        }
        Err(error) => Err(error),
    }
}

// Gives up the seats of the workers.
fn workers_left<L: Heap>(marker: Seat<L>, sweeper: Seat<L>) -> WorkersLeft
    ensures marker { seat_model_of result.marker ≡ marker }
    ensures marker_seat { IsSeatModel L.tables result.marker.number result.marker.share }
    ensures sweeper { seat_model_of result.sweeper ≡ sweeper }
    ensures sweeper_seat { IsSeatModel L.tables result.sweeper.number result.sweeper.share }
{
    WorkersLeft {
        marker: marker.into_unnamed(),
        sweeper: sweeper.into_unnamed(),
    }
}

// Serves one session from each seat.
fn serve_once<L: Heap + Send + Sync, R: Clock + Eprint + Threads + Wait + Sync>(
    rt: &R,
    alloc: Global,
    shared: &Shared<L>,
    workers: u64,
    staff: Staff<L>,
    ports: Ports,
    terms: Terms,
) -> Result<(Sessions, Option<WorkersLeft>), AllocError>
    requires { AreStaff (length staff.users) (staff.marker ∷ staff.sweeper ∷ staff.users) }
    ensures sessions { IfOk result
        (λ r. AreSessionsFrom false L.config L.tables terms staff.users r.0) }
    ensures workers { IfOk result (λ r. AreWorkersLeft workers L.config L.tables staff.marker
        staff.sweeper r.1) }
{
    if workers == 0 {
        return match serve_clients(rt, alloc, shared, staff.users, ports, terms) {
            Ok(served) => Ok((Sessions::Once(served), None)),
            Err(error) => Err(error),
        };
    }
    match serve_tended(rt, alloc, shared, staff, ports, terms) {
        Ok(tended) => {
            let left = workers_left(tended.marker, tended.sweeper);
            Ok((Sessions::Once(tended.served), Some(left)))
        }
        Err(error) => Err(error),
    }
}
