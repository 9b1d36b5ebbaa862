//! A session of `run`, with questions or without.
ghost use Rattle.std.specs.Prelude.{◌≡◌};
ghost use Rattle.session_text.specs.Machine.{opening_machine};
ghost use Rattle.heapdbg_options.specs.CommandLine.{IsHeapWithin, limits_of};
ghost use Rattle.private_tasks.specs.PrivateRuns.{IsRun, IsRunWith};

use crate::asked_run::run_asked;
use crate::failure::{Fault, outcome};
use crate::first_lines::run_first;
use crate::opening::open_local;
use crate::request::Request;
use crate::terminals::Screen;
use byte_io::{Inlet, Outlet};
use heapdbg_options::settings::{Origin, Settings};
use session_text::{Local, serve_local, session_limits};
use std::fs::Files;
use std::time::Clock;

/// Runs one session over a private heap, in which questions are answered if the settings say so; none of its lines writes a file.
/// If `origin` says so, the lines of the session of a dump are run first, as by `explore`. Fails as that does.
pub fn run<R: AllocGlobal + Clock + Eprint + Files, I: Inlet, O: Outlet>(
    rt: &R,
    request: Request<'_>,
    origin: Origin,
    screen: Screen<'_>,
    reader: &mut I,
    writer: &mut O,
) -> Result<(), Fault>
    requires { IsHeapWithin request.settings }
    ensures { IsRunWith request.entry.settings.questions origin request.entry.settings
        (I.seen reader.old) (I.seen reader.new) (O.seen writer.old) (O.seen writer.new) result }
{
    if request.settings.questions {
        run_asked(rt, request, origin, screen, reader, writer)
    } else {
        run_plain(rt, request, origin, screen.is_terminal, reader, writer)
    }
}

// Runs one session without questions over a private heap.
#[tactic(auto, using(crate::proofs::Hindrances::no_memory_hinders))]
fn run_plain<R: AllocGlobal + Clock + Eprint + Files, I: Inlet, O: Outlet>(
    rt: &R,
    request: Request<'_>,
    origin: Origin,
    is_terminal: bool,
    reader: &mut I,
    writer: &mut O,
) -> Result<(), Fault>
    requires { IsHeapWithin request.settings }
    ensures { IsRun origin request.entry.settings (I.seen reader.old) (I.seen reader.new)
        (O.seen writer.old) (O.seen writer.new) result }
{
    match open_local(rt.alloc(), &request.settings) {
        Ok(local) => run_plain_on(rt, request, origin, is_terminal, local, reader, writer),
        Err(fault) => Err(fault),
    }
}

// Runs one session without questions over a heap as it begins, after what `origin` says.
fn run_plain_on<R: AllocGlobal + Clock + Eprint + Files, I: Inlet, O: Outlet>(
    rt: &R,
    request: Request<'_>,
    origin: Origin,
    is_terminal: bool,
    local: Local,
    reader: &mut I,
    writer: &mut O,
) -> Result<(), Fault>
    requires { local.machine ≡ opening_machine (limits_of request.settings)
        request.settings.ids request.settings.regions request.settings.mutators
        request.settings.keep }
    ensures { IsRun origin request.entry.settings (I.seen reader.old) (I.seen reader.new)
        (O.seen writer.old) (O.seen writer.new) result }
{
    let mut local = run_first(rt, request, origin, is_terminal, local)?;
    let Settings { time, wide, .. } = request.settings;
    let limits = session_limits(wide);
    outcome(serve_local(rt.alloc(), reader, writer, &mut local, time, limits))
}
