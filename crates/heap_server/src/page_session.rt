//! A session of the calling thread, beside a thread that answers the clients of the heap's page.
ghost use Rattle.std.specs.Prelude.{◌≡◌, IfErr, IfNone, IfOk, IfSome};
ghost use Rattle.heap_server.specs.PageSessions.{IsServedBeside};

use crate::beside::Beside;
use byte_io::{Inlet, Outlet};
use heap_lock::{Heap, Shared};
use heap_page::PagePort;
use secret_word::Secret;
use session_text::{Commands, Ended, SessionLimits, serve};
use std::alloc::{AllocError, Global};
use std::sync::Wait;
use std::sync::atomic::AtomicBool;
use std::thread;
use std::thread::Threads;
use std::time::Clock;

// A session for the closure of a scope. Contracts say nothing of a `&mut` that such a closure holds, so it holds a value of a
// type parameter, and gives that back.
trait Talk {
    ghost use Rattle.session_text.specs.declared.Ended.{Ended};

    ghost talks: { Self → Ended → Self → Type 0 };

    // Serves the session. Returns how it ended, beside what it was served with.
    fn talk(self) -> (Self, Ended)
        ensures { talks self result.1 result.0 };
}

// What a session is served with.
#[derive(Drop)]
struct Loan<'a, I, O, C> {
    alloc: Global,
    reader: &'a mut I,
    writer: &'a mut O,
    commands: &'a mut C,
    time: u64,
    limits: SessionLimits,
}

impl<'a, I: Inlet, O: Outlet, C: Commands> Talk for Loan<'a, I, O, C> {
    ghost use Rattle.std.specs.Prelude.{◌≡◌};
    ghost use Rattle.heap_server.specs.PageSessions.{IsServedBeside};

    ghost talks = { λ old ended new.
        (new.reader.ghost_name ≡ old.reader.ghost_name)
        × (new.writer.ghost_name ≡ old.writer.ghost_name)
        × (new.commands.ghost_name ≡ old.commands.ghost_name)
        × IsServedBeside old.limits C.acts C.unknown old.time (I.seen old.reader.now)
        (I.seen new.reader.now) old.commands.now (O.seen old.writer.now) new.commands.now
        (O.seen new.writer.now) ended };

    fn talk(self) -> (Self, Ended) {
        let Loan {
            alloc,
            reader,
            writer,
            commands,
            time,
            limits,
        } = self;
        let ended = serve(alloc, reader, writer, commands, time, limits);
        let loan = Loan {
            alloc,
            reader,
            writer,
            commands,
            time,
            limits,
        };
        (loan, ended)
    }
}

/// Serves a session between a reader and a writer as `serve` does, while a thread answers the clients of the heap's page: from
/// before the first read until the session has ended. Fails if the thread can't be started, and has read and written nothing
/// then. May wait.
pub fn serve_beside_page<L: Heap + Send + Sync, R, I: Inlet, O: Outlet, C: Commands>(
    rt: &R,
    alloc: Global,
    shared: &Shared<L>,
    page: PagePort,
    reader: &mut I,
    writer: &mut O,
    commands: &mut C,
    time: u64,
    limits: SessionLimits,
) -> Result<Ended, AllocError>
where
    R: Clock + Eprint + Threads + Wait + Sync,
    ensures served { IfOk result (IsServedBeside limits C.acts C.unknown time (I.seen reader.old)
        (I.seen reader.new) commands.old (O.seen writer.old) commands.new (O.seen writer.new)) }
    ensures reader { IfErr result (λ e. reader.new ≡ reader.old) }
    ensures writer { IfErr result (λ e. writer.new ≡ writer.old) }
    ensures commands { IfErr result (λ e. commands.new ≡ commands.old) }
{
    let session = Loan {
        alloc,
        reader,
        writer,
        commands,
        time,
        limits,
    };
    let (session, ended) = talk_beside(rt, alloc, shared, page, session);
    let Loan {
        reader,
        writer,
        commands,
        ..
    } = session;
    give_back(reader, writer, commands);
    match ended {
        Some(ended) => Ok(ended),
        None => Err(AllocError),
    }
}

// Serves a session while a thread answers the clients of the page. Returns how it ended, or None if the thread can't be
// started, and what it was to be served with.
fn talk_beside<L: Heap + Send + Sync, R: Clock + Eprint + Threads + Wait + Sync, T: Talk + Drop>(
    rt: &R,
    alloc: Global,
    shared: &Shared<L>,
    page: PagePort,
    session: T,
) -> (T, Option<Ended>)
    ensures talked { IfSome result.1 (λ ended. T.talks session ended result.0) }
    ensures silent { IfNone result.1 (result.0 ≡ session) }
{
    let word = AtomicBool::new(false);
    let stop = &word;
    let nothing: Option<Secret> = None;
    let secret = &nothing;
    thread::scope(
        thread::scope_env(),
        rt,
        move |scope| -> (T, Option<Ended>)
            ensures talked { IfSome result.1 (λ ended. T.talks session ended result.0) }
            ensures silent { IfNone result.1 (result.0 ≡ session) }
        {
            let begun = Beside::begin(scope, rt, alloc, shared, None, secret, Some(page), 0, stop);
            let Ok(beside) = begun else {
                return (session, None);
            };
            let (session, ended) = session.talk();
            beside.end(rt, stop);
            (session, Some(ended))
        },
    )
}

// Ends the loans of a session, so that their lenders know the last values.
fn give_back<I, O, C>(reader: &mut I, writer: &mut O, commands: &mut C)
    ensures reader { reader.new ≡ reader.old }
    ensures writer { writer.new ≡ writer.old }
    ensures commands { commands.new ≡ commands.old }
{}
