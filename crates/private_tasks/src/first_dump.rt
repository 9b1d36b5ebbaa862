//! The session of a heap dump, which is run before a session.
ghost use Rattle.std.specs.Prelude.{◌≡◌, Some, Ok, IfErr, IfOk, IsOk};
ghost use Rattle.session_text.specs.Answers.{AnswersCommand, Begins};
ghost use Rattle.session_text.specs.Limits.{session_limits};
ghost use Rattle.heapdbg_options.specs.declared.settings.Origin.TheVariants.{Dump};
ghost use Rattle.private_tasks.specs.Explorations.{IsDumpHindrance, IsDumpRunFrom, IsHindrance, IsLoadFault, IsRunFirst, has_area, load_fault};

use crate::failure::Fault;
use crate::reasons::tell_path;
use crate::request::Request;
use heap_console::{LineReports, LoadOutlet, LoadStart};
use hprof_convert::{Converted, Failure, convert, tell_left_out};
use session_text::{Commands, Ended, session_limits};
use std::fs;
use std::fs::Files;
use std::marker::Brand;
use std::time::Clock;

/// How many refused lines of the session of a dump are reported: of a heap that is too small there may be millions.
pub(crate) const REPORTED_LINES: u64 = 8;

/// Runs by these commands the lines of the session of the dump in the file of the path, and returns them as the lines left them.
/// Reports the first refused lines as `run_first` does, and how many more were refused, and on standard error what of the dump is
/// left out, and its first fault. Fails with Memory, and with Hprof if the file can't be read, if it has no header of a dump, or if
/// a line ends the session. (With Cut or Reads if lines are put to be run that end in the middle of one, or need too many reads.)
#[tactic(auto, using(crate::proofs::RunDumps::dump_is_run_first, crate::proofs::RunDumps::dump_hindrance_hinders))]
pub(crate) fn load_dump<R: AllocGlobal + Clock + Eprint + Files, C: Commands + Drop>(
    rt: &R,
    request: Request<'_>,
    is_terminal: bool,
    commands: C,
) -> Result<C, Fault>
    ensures run { IfOk result (IsRunFirst
        (session_limits request.entry.settings.wide) (has_area request.entry.settings) Dump
        (AnswersCommand C.acts C.unknown request.entry.settings.time)
        (Begins C.acts C.unknown request.entry.settings.time) commands) }
    ensures hindrance { IfErr result (IsHindrance Dump) }
{
    let dump = read_dump(rt, is_terminal, request.first)?;
    run_dump::<R, C, Brand>(rt, request, is_terminal, commands, &dump)
}

// Runs the lines of the session of a dump by these commands, which are those that `B` says.
fn run_dump<R: AllocGlobal + Clock + Eprint, C: Commands + Drop, B: LoadStart<C>>(
    rt: &R,
    request: Request<'_>,
    is_terminal: bool,
    commands: C,
    dump: &[u8],
) -> Result<C, Fault>
    requires start { B.start ≡ Some commands }
    requires limits { session_limits request.settings.wide ≡ B.limits }
    requires time { request.settings.time ≡ B.time }
    ensures run { IfOk result (IsDumpRunFrom B.limits (has_area request.entry.settings)
        (AnswersCommand C.acts C.unknown B.time)
        (Begins C.acts C.unknown B.time) dump.now B.start) }
    ensures hindrance { IfErr result (IsDumpHindrance B.limits (has_area request.entry.settings)
        (AnswersCommand C.acts C.unknown B.time) dump.now B.start) }
{
    let path = request.first.unwrap_or("");
    let (alloc, time) = (rt.alloc(), request.settings.time);
    let limits = session_limits(request.settings.wide);
    let mut reports = LineReports::new(rt, path, REPORTED_LINES);
    if request.shows_progress(is_terminal) {
        reports.begin_count();
    }
    let mut outlet: LoadOutlet<'_, R, C, B> = LoadOutlet::new(
        alloc, reports, commands, time, limits,
    );
    let area = request.settings.area > 0;
    let converted = convert(alloc, &mut outlet, area, dump);
    let left = outlet.into_commands();
    tell_outcome(rt, path, area, &converted);
    commands_left(converted, left)
}

// Tells on standard error what of a dump is left out of the session for a heap with an area, or without one, or that it is none. A
// write that fails changes nothing.
fn tell_outcome<R: Eprint>(rt: &R, path: &str, area: bool, converted: &Result<Converted, Failure>) {
    match converted {
        Ok(converted) => tell_left_out(rt, "heapdbg", path, area, converted),
        Err(Failure::Header) => {
            let _ = eprintln!(rt; "heapdbg: {path}: no header of a dump");
        }
        Err(Failure::Memory | Failure::Write) => {}
    }
}

// Returns the commands as the session of a dump left them, if all of it was run. Fails with Hprof if the dump has no header or a
// line ended the session, and with Memory, Cut, Read, Reads and Write if that was why not all of it was run.
fn commands_left<C: Drop>(
    converted: Result<Converted, Failure>,
    left: Result<C, Ended>,
) -> Result<C, Fault>
    ensures run { IfOk result (λ d. IsOk converted × (left ≡ Ok d)) }
    ensures fault { IfErr result (IsLoadFault converted left) }
{
    match converted {
        Ok(_) => match left {
            Ok(commands) => Ok(commands),
            Err(ended) => Err(fault_of_load(ended)),
        },
        Err(Failure::Header) => Err(Fault::Hprof),
        Err(Failure::Memory) => Err(Fault::Memory),
        Err(Failure::Write) => match left {
            Ok(_) => Err(Fault::Write),
            Err(ended) => Err(fault_of_load(ended)),
        },
    }
}

/// Reads the file of a dump. Fails with Hprof if it can't be read; why, it says on standard error, if that is a terminal. Fails
/// with Memory if there is no path.
pub(crate) fn read_dump<R: AllocGlobal + Eprint + Files>(
    rt: &R,
    is_terminal: bool,
    path: Option<&str>,
) -> Result<Vec<u8>, Fault>
    ensures { IfErr result (IsHindrance Dump) }
{
    let Some(path) = path else {
        return Err(Fault::Memory);
    };
    match fs::read(rt, path) {
        Ok(dump) => Ok(dump),
        Err(error) => {
            tell_path(rt, is_terminal, path, &error);
            Err(Fault::Hprof)
        }
    }
}

/// Returns the fault of a dump whose lines were run until this.
pub(crate) fn fault_of_load(ended: Ended) -> Fault
    ensures { result ≡ load_fault ended }
{
    match ended {
        Ended::Quit | Ended::Eof | Ended::TooLong => Fault::Hprof,
        Ended::CutLine => Fault::Cut,
        Ended::ReadFault => Fault::Read,
        Ended::TooManyReads => Fault::Reads,
        Ended::WriteFault => Fault::Write,
        Ended::NoMemory => Fault::Memory,
    }
}
