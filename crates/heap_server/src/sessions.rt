//! Sessions over one shared heap.
ghost use Rattle.std.specs.Prelude.{◌≡◌, ◌≤◌, IfOk, IfErr, length};
ghost use Rattle.heap_lock.specs.Refusal.TheVariants.{NoMemory};
ghost use Rattle.heap_lock.specs.declared.role.Role.TheVariants.{User};
ghost use Rattle.heap_server.specs.SessionSeats.{AreUsers, IsFor, session_limit};
ghost use Rattle.heap_server.specs.Clients.{IsToldAs};
ghost use Rattle.heap_server.specs.Stations.{IsAttended, IsAttendedOn, IsAttendedStaying, IsClientOf};

use crate::ahead::read_line;
use crate::beside::Beside;
use crate::client_session::{SessionEnd, serve_client};
use crate::paced::Paced;
use crate::sittings::{await_all, begin_session, end_words, join_ended};
use crate::socket::{Half, SocketTraffic};
use crate::time_limits::limit_times;
use byte_io::{Inlet, Outlet};
use heap_lock::{Blank, Config, Heap, Refusal, Role, Seat, Seats, Shared, UnnamedSeat};
use heap_page::PagePort;
use seat_session::{AskingSeat, Joined, StayingSeat};
use secret_word::Secret;
use session_text::{Ended, SessionLimits};
use shared_dump::DumpListener;
use std::alloc::{AllocError, Global};
use std::net::{TcpListener, TcpStream};
use std::snapshot::Snapshot;
use std::sync::Wait;
use std::sync::atomic::AtomicBool;
use std::thread;
use std::thread::{Promise, Scope, Threads};
use std::time::Clock;

/// The listener for the clients of sessions, the one for the clients of dumps, if there is one, and the port of the page, if there
/// is one.
#[derive(Drop)]
pub struct Ports {
    pub sessions: TcpListener,
    pub dumps: Option<DumpListener>,
    pub page: Option<PagePort>,
}

/// What all sessions over a heap have in common. Contracts see the record itself.
#[derive(Clone, Copy)]
pub struct Terms {
    /// The time in the headers of dumps, in milliseconds since 1970.
    pub time: u64,
    /// Whether questions are answered.
    pub questions: bool,
    /// The word that the first line of each client has to be, or None if there is none.
    pub secret: Option<Secret>,
    /// The seconds after which a session ends from which nothing comes, at least 1, or 0 if it goes on.
    pub idle: u64,
    /// Whether the pins of a session are closed at its end, unless it kept them.
    pub stays: bool,
    /// What each session may have at most.
    pub limits: SessionLimits,
}

/// How a session ended, what went through its socket, and its seat as it left it. A session without memory for its socket has no
/// traffic, and one without a thread no seat either.
#[derive(Drop)]
pub struct SeatEnd {
    pub end: SessionEnd,
    pub traffic: Option<SocketTraffic>,
    pub unnamed_seat: Option<UnnamedSeat>,
}

/// How the sessions ended, each beside its seat, in order of acceptance, and whether an accept failed.
#[derive(Drop)]
pub struct Served {
    pub sessions: Vec<SeatEnd>,
    pub refused: bool,
}

/// Creates a heap of these settings with a user's seat for each of 1 to 1,000 sessions. Fails with NoMemory.
pub fn users(alloc: Global, config: Config, sessions: u64) -> Result<Blank, Refusal>
    requires { (1 ≤ sessions) × (sessions ≤ session_limit) }
    ensures settings { IfOk result (λ b. b.config ≡ config) }
    ensures seats { IfOk result (λ b. AreUsers b.seats × (length b.seats ≡ sessions)) }
    ensures refused { IfErr result (λ e. e ≡ NoMemory) }
{
    let Ok(roles) = vec![in alloc; Role::User; sessions as usize] else {
        return Err(Refusal::NoMemory);
    };
    Blank::new(alloc, config, roles.as_slice())
}

// How a session ended, its inlet, and its seat as it left it.
#[derive(Drop)]
struct Attended<L: Heap, I: Inlet + Drop> {
    end: SessionEnd,
    inlet: I,
    seat: Seat<L>,
}

// How the session of a socket ended, and what went through the socket.
#[derive(Drop)]
pub(crate) struct SocketEnd {
    pub(crate) end: SessionEnd,
    pub(crate) traffic: Option<SocketTraffic>,
}

// The promise that the client of a socket was served from this seat on these terms.
#[derive(Drop)]
pub(crate) struct AttendsFrom<L: Heap> {
    pub(crate) seat: Snapshot<Seat<L>>,
    pub(crate) terms: Terms,
}

impl<L: Heap> Promise<(SocketEnd, Seat<L>)> for AttendsFrom<L> {
    ghost use Rattle.heap_server.specs.Stations.{IsClientOf};

    ghost kept_by = { λ p r. IsClientOf L.config p.terms p.seat.value r.1 r.0.end r.0.traffic };
}

// Serves the client of a socket from a seat, and gives the seat back. Ends by NoMemory, and does nothing, if memory for the socket
// is refused.
pub(crate) fn session<L: Heap, R: Clock + Wait>(
    rt: &R,
    alloc: Global,
    shared: &Shared<L>,
    seat: Seat<L>,
    stream: TcpStream,
    terms: Terms,
) -> (SocketEnd, Seat<L>)
    requires { seat.role ≡ User }
    ensures client { IsClientOf L.config terms seat result.1 result.0.end result.0.traffic }
    ensures role { result.1.role ≡ User }
{
    limit_times(rt, &stream, &terms);
    let Ok(socket) = Half::new(alloc, stream) else {
        return (no_memory(), seat);
    };
    let Ok((inlet, outlet)) = socket.directions() else {
        return (no_memory(), seat);
    };
    let mut outlet = outlet;
    let hurry = socket.hurry();
    let done = attend_on(rt, alloc, shared, seat, inlet, &mut outlet, hurry, &terms);
    let Attended { end, inlet, seat } = done;
    let traffic = Some(SocketTraffic::of(&inlet, &outlet));
    let end = told(terms.idle, socket.has_waited(), end);
    (SocketEnd { end, traffic }, seat)
}

// Returns how the session of a socket ended for which memory was refused.
fn no_memory() -> SocketEnd
    ensures end { result.end ≡ SessionEnd.Ran Ended.NoMemory }
    ensures traffic { result.traffic ≡ None }
{
    SocketEnd {
        end: SessionEnd::Ran(Ended::NoMemory),
        traffic: None,
    }
}

// Serves one client from a seat of a heap that stays or doesn't.
fn attend_on<L: Heap, R: Wait, I: Inlet + Drop, O: Outlet>(
    rt: &R,
    alloc: Global,
    shared: &Shared<L>,
    seat: Seat<L>,
    inlet: I,
    outlet: &mut O,
    hurry: &AtomicBool,
    terms: &Terms,
) -> Attended<L, I>
    requires { seat.role ≡ User }
    ensures attended { IsAttendedOn terms.now.stays L.config terms.now seat (I.seen inlet)
        (I.seen result.inlet) (O.seen outlet.old) (O.seen outlet.new) result.seat result.end }
    ensures role { result.seat.role ≡ User }
{
    if terms.stays {
        attend_staying(rt, alloc, shared, seat, inlet, outlet, hurry, terms)
    } else {
        attend(rt, alloc, shared, seat, inlet, outlet, hurry, terms)
    }
}

// Serves one client from a seat of a heap that stays, as `attend` does, and then closes the pins that it opened and didn't keep.
fn attend_staying<L: Heap, R: Wait, I: Inlet + Drop, O: Outlet>(
    rt: &R,
    alloc: Global,
    shared: &Shared<L>,
    seat: Seat<L>,
    inlet: I,
    outlet: &mut O,
    hurry: &AtomicBool,
    terms: &Terms,
) -> Attended<L, I>
    requires { seat.role ≡ User }
    ensures attended { IsAttendedStaying L.config terms.now seat (I.seen inlet)
        (I.seen result.inlet)
        (O.seen outlet.old) (O.seen outlet.new) result.seat result.end }
    ensures role { result.seat.role ≡ User }
{
    let mut inlet = inlet;
    let Ok(ahead) = read_line(alloc, &mut inlet, terms.limits) else {
        let end = SessionEnd::Ran(Ended::NoMemory);
        return Attended { end, inlet, seat };
    };
    let joined = Joined::new(alloc, shared, rt, seat, shared.witness(rt));
    let mut staying = Paced::new(StayingSeat::new(alloc, joined, terms.questions), hurry);
    let (end, inlet) = serve_client(alloc, inlet, ahead, outlet, &mut staying, terms);
    let seat = staying.into_commands().into_seat();
    Attended { end, inlet, seat }
}

// Serves one client from a seat, between an inlet and an outlet, unless its first line turns it away: if it isn't the secret word,
// or without one, begins an HTTP request. Then it reads nothing more, and puts out and runs nothing. Each part of an answer goes
// out at once. The word `hurry` is set while a piece of a dump is the last that was answered. Closes no pin at its end. May wait.
fn attend<L: Heap, R: Wait, I: Inlet + Drop, O: Outlet>(
    rt: &R,
    alloc: Global,
    shared: &Shared<L>,
    seat: Seat<L>,
    inlet: I,
    outlet: &mut O,
    hurry: &AtomicBool,
    terms: &Terms,
) -> Attended<L, I>
    requires { seat.role ≡ User }
    ensures attended { IsAttended L.config terms.now seat (I.seen inlet) (I.seen result.inlet)
        (O.seen outlet.old) (O.seen outlet.new) result.seat result.end }
    ensures role { result.seat.role ≡ User }
{
    let mut inlet = inlet;
    let Ok(ahead) = read_line(alloc, &mut inlet, terms.limits) else {
        let end = SessionEnd::Ran(Ended::NoMemory);
        return Attended { end, inlet, seat };
    };
    let joined = Joined::new(alloc, shared, rt, seat, shared.witness(rt));
    if terms.questions {
        let mut asking = Paced::new(AskingSeat::new(joined), hurry);
        let (end, inlet) = serve_client(alloc, inlet, ahead, outlet, &mut asking, terms);
        let seat = asking.into_commands().into_seat();
        Attended { end, inlet, seat }
    } else {
        let mut acting = Paced::new(joined, hurry);
        let (end, inlet) = serve_client(alloc, inlet, ahead, outlet, &mut acting, terms);
        let seat = acting.into_commands().into_seat();
        Attended { end, inlet, seat }
    }
}

// Returns how a session is told to have ended whose reads may wait for `idle` seconds, or for any time if they are 0: as idle if a
// read has waited so long and failed.
fn told(idle: u64, waited: bool, end: SessionEnd) -> SessionEnd
    ensures { IsToldAs idle end result }
{
    if idle > 0 && waited && end == SessionEnd::Ran(Ended::ReadFault) {
        SessionEnd::Idle
    } else {
        end
    }
}

/// Accepts as many clients as there are seats, in turn, and serves each in a thread of its own, which is joined at the next accept
/// after its end. After the last of them, or after an accept that failed, it stops listening, so that a further client is refused
/// at once. Returns once all sessions have ended, with their seats; that of a client whose thread can't be started ends by
/// NoMemory, and its seat is gone. If the ports have a listener for dumps, three threads send a dump to each of its clients, and if
/// they have a page, another answers its clients, from before the first accept until the last session has ended. Fails if such a
/// thread can't be started, or memory is refused to the endings, and accepts nothing. May wait.
pub fn serve_clients<L: Heap + Send + Sync, R: Clock + Eprint + Threads + Wait + Sync>(
    rt: &R,
    alloc: Global,
    shared: &Shared<L>,
    seats: Seats<L>,
    ports: Ports,
    terms: Terms,
) -> Result<Served, AllocError>
    requires { AreUsers seats }
    ensures { IfOk result (IsFor L.config L.tables terms seats) }
{
    let word = AtomicBool::new(false);
    let stop = &word;
    let ends = end_words(alloc, seats.count())?;
    let words = ends.as_slice();
    let Terms { secret, .. } = terms;
    let secret = &secret;
    thread::scope(
        thread::scope_env(),
        rt,
        move |scope| -> Result<Served, AllocError>
            requires users { AreUsers seats }
            requires words { length seats ≤ length words.now }
            ensures { IfOk result (IsFor L.config L.tables terms seats) }
        {
            let Ports {
                sessions,
                dumps,
                page,
            } = ports;
            let time = terms.time;
            let beside = Beside::begin(scope, rt, alloc, shared, dumps, secret, page, time, stop)?;
            let served = serve_seats(scope, rt, alloc, shared, &terms, seats, sessions, words);
            beside.end(rt, stop);
            served
        },
    )
}

// Accepts clients and serves them, as `serve_clients` says.
fn serve_seats<'s, E, L: Heap + Send + Sync, R: Clock + Threads + Wait + Sync>(
    scope: &Scope<'s, E>,
    rt: &'s R,
    alloc: Global,
    shared: &'s Shared<L>,
    terms: &Terms,
    seats: Seats<L>,
    listener: TcpListener,
    words: &'s [AtomicBool],
) -> Result<Served, AllocError>
    requires users { AreUsers seats }
    requires words { length seats ≤ length words.now }
    ensures { IfOk result (IsFor L.config L.tables terms.now seats) }
{
    let mut seats = seats;
    let count = seats.count();
    let mut sittings = Vec::with_capacity(alloc, count)?;
    let mut sessions = Vec::with_capacity(alloc, count)?;
    let mut refused = false;
    while let Some(seat) = seats.take() {
        let Ok((stream, _)) = listener.accept() else {
            refused = true;
            break;
        };
        join_ended(rt, &mut sittings, words);
        let word = &words[sittings.len()];
        let sitting = begin_session(scope, rt, alloc, shared, seat, stream, terms, word);
        sittings.push_reserved(sitting);
    }
    drop(listener);
    await_all(rt, sittings, &mut sessions);
    Ok(Served { sessions, refused })
}
