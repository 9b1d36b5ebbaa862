//! Sessions in threads of their own, until they are joined.
ghost use Rattle.std.specs.Prelude.{◌≡◌, ◌<◌, ◌≤◌, [], IfOk, None, length, vec_capacity, vec_len};
ghost use Rattle.heap_lock.specs.declared.role.Role.TheVariants.{User};
ghost use Rattle.heap_server.specs.SessionSeats.{EndAs, EndsAs, IsBegun, SitOn, SitsOn};
ghost use Rattle.heap_server.specs.Stations.{IsSeatEnd};
ghost use Rattle.heap_server.specs.declared.client_session.SessionEnd.TheVariants.{Ran};
ghost use Rattle.session_text.specs.declared.Ended.TheVariants.{NoMemory};

use crate::client_session::SessionEnd;
use crate::sessions::{AttendsFrom, SeatEnd, SocketEnd, Terms, session};
use core::thread::Stack;
use heap_lock::{Heap, Seat, Shared};
use session_text::Ended;
use std::alloc::{AllocError, Global};
use std::collections::VecDeque;
use std::marker::Model;
use std::net::TcpStream;
use std::snapshot::Snapshot;
use std::sync::Wait;
use std::sync::atomic::{AtomicBool, Ordering};
use std::thread::{PromisedHandle, Scope, Threads};
use std::time::Clock;

/// The size of the stack of a thread that serves sessions, in bytes. A line touches some 140 KB of it if Rattle's own compiler
/// built the program, and less if LLVM did.
pub(crate) const STACK_SIZE: usize = 262_144;

/// Returns as many words as there are seats, none of them set. The thread of a session sets its own as the last thing that it does;
/// nothing but the time of its join rests on it. Fails if the allocation fails.
pub(crate) fn end_words(alloc: Global, count: usize) -> Result<Vec<AtomicBool>, AllocError>
    ensures { IfOk result (λ v. vec_len v ≡ count) }
{
    let mut words = Vec::with_capacity(alloc, count)?;
    for _ in 0..count {
        words.push_reserved(AtomicBool::new(false));
    }
    Ok(words)
}

/// A session in a thread, if one could be started, until it is joined; and how it ended, once it is. Contracts see the seat and the
/// terms that its thread began with, and its end.
#[derive(Drop)]
pub(crate) struct Sitting<L: Heap> {
    thread: Option<PromisedHandle<(SocketEnd, Seat<L>), AttendsFrom<L>>>,
    end: Option<SeatEnd>,
}

impl<L: Heap> Model for Sitting<L> {
    ghost use Rattle.std.specs.Prelude.{option_map};
    ghost use Rattle.heap_server.specs.SessionSeats.{SittingState};

    ghost Value = { SittingState };

    ghost view = { λ s.
        (option_map (λ h. (h.promise.seat.value, h.promise.terms)) s.thread, s.end) };
}

/// Begins the session of a client, in a thread, which sets the word as it ends.
pub(crate) fn begin_session<'s, E, L: Heap + Send + Sync, R: Clock + Threads + Wait + Sync>(
    scope: &Scope<'s, E>,
    rt: &'s R,
    alloc: Global,
    shared: &'s Shared<L>,
    seat: Seat<L>,
    stream: TcpStream,
    terms: &Terms,
    word: &'s AtomicBool,
) -> Sitting<L>
    requires { seat.role ≡ User }
    ensures { IsBegun terms.now seat result }
{
    let promise = AttendsFrom {
        seat: Snapshot::of(&seat),
        terms: *terms,
    };
    let terms = *terms;
    let attend = move || {
        let ended = session(rt, alloc, shared, seat, stream, terms);
        word.store(true, Ordering::SeqCst);
        ended
    };
    let stack = Stack::new().stack_size(STACK_SIZE);
    Sitting {
        thread: stack.spawn_scoped_with(scope, promise, attend).ok(),
        end: None,
    }
}

// Waits for a session's thread, and gives its seat up.
fn end_of<L: Heap, R: Threads>(
    rt: &R,
    thread: PromisedHandle<(SocketEnd, Seat<L>), AttendsFrom<L>>,
) -> SeatEnd
    ensures { IsSeatEnd L.config L.tables thread.promise.terms thread.promise.seat.value result }
{
    let (SocketEnd { end, traffic }, seat) = thread.join(rt);
    let unnamed_seat = Some(seat.into_unnamed());
    SeatEnd {
        end,
        traffic,
        unnamed_seat,
    }
}

// The end of a session whose thread couldn't be started.
fn unstarted() -> SeatEnd
    ensures { (result.end ≡ Ran NoMemory) × (result.unnamed_seat ≡ None) }
{
    SeatEnd {
        end: SessionEnd::Ran(Ended::NoMemory),
        traffic: None,
        unnamed_seat: None,
    }
}

impl<L: Heap> Sitting<L> {
    // Waits for the session's thread, unless it has been joined.
    fn join<R: Threads>(&mut self, rt: &R)
        ensures { SitsOn L.config L.tables self.old self.new }
    {
        if let Some(thread) = self.thread.take() {
            self.end = Some(end_of(rt, thread));
        }
    }

    // Waits for the session, and tells how it ended, with its seat. One whose thread couldn't be started ended by NoMemory.
    fn into_end<R: Threads>(self, rt: &R) -> SeatEnd
        ensures { EndsAs L.config L.tables self result }
    {
        let Sitting { thread, end } = self;
        match (thread, end) {
            (Some(thread), _) => end_of(rt, thread),
            (None, Some(end)) => end,
            (None, None) => unstarted(),
        }
    }
}

/// Joins each session whose thread has set its word.
pub(crate) fn join_ended<L: Heap, R: Threads>(
    rt: &R,
    sittings: &mut Vec<Sitting<L>>,
    words: &[AtomicBool],
)
    requires { vec_len sittings.old ≤ length words.now }
    ensures sit { SitOn L.config L.tables sittings.old.items sittings.new.items }
    ensures len { vec_len sittings.new ≡ vec_len sittings.old }
    ensures room { vec_capacity sittings.new ≡ vec_capacity sittings.old }
{
    for i in 0..sittings.len() {
        join_if_ended(rt, sittings, i, &words[i]);
    }
}

// Joins a session if its thread has set its word.
fn join_if_ended<L: Heap, R: Threads>(
    rt: &R,
    sittings: &mut Vec<Sitting<L>>,
    i: usize,
    word: &AtomicBool,
)
    requires { i < vec_len sittings.old }
    ensures sit { SitOn L.config L.tables sittings.old.items sittings.new.items }
    ensures len { vec_len sittings.new ≡ vec_len sittings.old }
    ensures room { vec_capacity sittings.new ≡ vec_capacity sittings.old }
{
    if !word.swap(false, Ordering::SeqCst) {
        return;
    }
    sittings[i].join(rt);
}

/// Waits for each session in turn.
pub(crate) fn await_all<L: Heap, R: Threads>(
    rt: &R,
    sittings: Vec<Sitting<L>>,
    ends: &mut Vec<SeatEnd>,
)
    requires room { vec_len sittings ≤ vec_capacity ends.old }
    requires first { ends.old.items ≡ [] }
    ensures { EndAs L.config L.tables sittings.items ends.new.items }
{
    let mut left = VecDeque::from_vec(sittings);
    while let Some(sitting) = left.pop_front() {
        ends.push_reserved(sitting.into_end(rt));
    }
}
