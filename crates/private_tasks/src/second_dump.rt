//! The session of two heap dumps of one program, which is run before a session.
ghost use Rattle.std.specs.Prelude.{◌≡◌, Some, Ok, IfErr, IfOk, IsOk};
ghost use Rattle.session_text.specs.Answers.{AnswersCommand, Begins};
ghost use Rattle.session_text.specs.Limits.{session_limits};
ghost use Rattle.heapdbg_options.specs.declared.settings.Origin.TheVariants.{Dumps};
ghost use Rattle.private_tasks.specs.Explorations.{IsHindrance, IsPairFault, IsPairHindrance, IsPairRunFrom, IsRunFirst, has_area};

use crate::failure::Fault;
use crate::first_dump::{REPORTED_LINES, fault_of_load, read_dump};
use crate::request::Request;
use heap_console::{LineReports, LoadOutlet, LoadStart};
use hprof_convert::tell_left_out;
use hprof_pair::{BothConverted, PairFailure, convert_pair};
use session_text::{Commands, Ended, session_limits};
use std::fs::Files;
use std::marker::Brand;
use std::time::Clock;

/// Runs by these commands the lines of the session of the dumps in the two files of the paths, and returns them as the lines left
/// them. Reports and fails as `load_dump` does.
#[tactic(auto, using(crate::proofs::RunPairs::pair_is_run_first, crate::proofs::RunPairs::pair_hindrance_hinders))]
pub(crate) fn load_dumps<R: AllocGlobal + Clock + Eprint + Files, C: Commands + Drop>(
    rt: &R,
    request: Request<'_>,
    is_terminal: bool,
    commands: C,
) -> Result<C, Fault>
    ensures run { IfOk result (IsRunFirst
        (session_limits request.entry.settings.wide) (has_area request.entry.settings) Dumps
        (AnswersCommand C.acts C.unknown request.entry.settings.time)
        (Begins C.acts C.unknown request.entry.settings.time) commands) }
    ensures hindrance { IfErr result (IsHindrance Dumps) }
{
    let first = read_dump(rt, is_terminal, request.first)?;
    let second = read_dump(rt, is_terminal, request.second)?;
    run_dumps::<R, C, Brand>(rt, request, is_terminal, commands, &first, &second)
}

// Runs the lines of the session of two dumps by these commands, which are those that `B` says.
fn run_dumps<R: AllocGlobal + Clock + Eprint, C: Commands + Drop, B: LoadStart<C>>(
    rt: &R,
    request: Request<'_>,
    is_terminal: bool,
    commands: C,
    first: &[u8],
    second: &[u8],
) -> Result<C, Fault>
    requires start { B.start ≡ Some commands }
    requires limits { session_limits request.settings.wide ≡ B.limits }
    requires time { request.settings.time ≡ B.time }
    ensures run { IfOk result (IsPairRunFrom B.limits (has_area request.entry.settings)
        (AnswersCommand C.acts C.unknown B.time) (Begins C.acts C.unknown B.time) first.now
        second.now B.start) }
    ensures hindrance { IfErr result (IsPairHindrance B.limits (has_area request.entry.settings)
        (AnswersCommand C.acts C.unknown B.time) first.now second.now B.start) }
{
    let path = request.first.unwrap_or("");
    let (alloc, time) = (rt.alloc(), request.settings.time);
    let limits = session_limits(request.settings.wide);
    let mut reports = LineReports::new(rt, path, REPORTED_LINES);
    if request.shows_progress(is_terminal) {
        reports.begin_count();
    }
    let mut outlet: LoadOutlet<'_, R, C, B> = LoadOutlet::new(
        alloc, reports, commands, time, limits,
    );
    let area = request.settings.area > 0;
    let converted = convert_pair(alloc, &mut outlet, area, first, second);
    let left = outlet.into_commands();
    tell_outcomes(rt, path, request.second.unwrap_or(""), area, &converted);
    commands_left(converted, left)
}

// Tells on standard error what of each dump is left out of the session for a heap with an area, or without one, or that it is none.
// A write that fails changes nothing.
fn tell_outcomes<R: Eprint>(
    rt: &R,
    first: &str,
    second: &str,
    area: bool,
    converted: &Result<BothConverted, PairFailure>,
) {
    match converted {
        Ok(both) => {
            tell_left_out(rt, "heapdbg", first, area, &both.first);
            tell_left_out(rt, "heapdbg", second, area, &both.second);
        }
        Err(PairFailure::FirstHeader) => {
            let _ = eprintln!(rt; "heapdbg: {first}: no header of a dump");
        }
        Err(PairFailure::SecondHeader) => {
            let _ = eprintln!(rt; "heapdbg: {second}: no header of a dump");
        }
        Err(PairFailure::Memory | PairFailure::Write) => {}
    }
}

// Returns the commands as the session of two dumps left them, if all of it was run. Fails with Hprof if a dump has no header or a
// line ended the session, and with Memory, Cut, Read, Reads and Write if that was why not all of it was run.
fn commands_left<C: Drop>(
    converted: Result<BothConverted, PairFailure>,
    left: Result<C, Ended>,
) -> Result<C, Fault>
    ensures run { IfOk result (λ d. IsOk converted × (left ≡ Ok d)) }
    ensures fault { IfErr result (IsPairFault converted left) }
{
    match converted {
        Ok(_) => match left {
            Ok(commands) => Ok(commands),
            Err(ended) => Err(fault_of_load(ended)),
        },
        Err(PairFailure::FirstHeader | PairFailure::SecondHeader) => Err(Fault::Hprof),
        Err(PairFailure::Memory) => Err(Fault::Memory),
        Err(PairFailure::Write) => match left {
            Ok(_) => Err(Fault::Write),
            Err(ended) => Err(fault_of_load(ended)),
        },
    }
}
