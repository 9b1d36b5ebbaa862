//! A file of lines that is read before a session.
ghost use Rattle.std.specs.Prelude.{IfOk};
ghost use Rattle.session_text.specs.Answers.{AnswersCommand, Begins};
ghost use Rattle.heap_console.specs.Loads.{IsLoaded};

use crate::discard::Discard;
use crate::line_inlet::LineInlet;
use crate::line_reports::LineReports;
use crate::newest::{NewestLine, NotingOutlet};
use session_text::{Commands, Ended, SessionLimits, serve};
use std::alloc::{AllocError, Global};
use std::io::Read;
use std::time::Clock;

/// Serves the lines of a file as a session of these commands, within these limits, whose answers go nowhere. Reports on
/// standard error, by the file's name and the line's number, answer and text, each line that is no command or is refused, and
/// why reading ended early; and, if `counts` says so, about once a second how many lines were read. Fails if an allocation for
/// reading the file fails, and reads nothing.
pub fn load_lines<F: Read + Drop, R: Clock + Eprint, C: Commands>(
    rt: &R,
    alloc: Global,
    name: &str,
    file: F,
    commands: &mut C,
    time: u64,
    limits: SessionLimits,
    counts: bool,
) -> Result<Ended, AllocError>
    ensures { IfOk result
        (IsLoaded limits (AnswersCommand C.acts C.unknown time) (Begins C.acts C.unknown time)
        commands.old commands.new) }
{
    let newest = NewestLine::new(alloc);
    let mut lines = LineInlet::new(rt, alloc, &newest, name, file)?;
    if counts {
        lines.reports.begin_count();
    }
    let mut answers = NotingOutlet::new(Discard::new(), &newest);
    let ended = serve(alloc, &mut lines, &mut answers, commands, time, limits);
    lines.reports.end_count();
    report_ending(&lines.reports, ended, limits);
    Ok(ended)
}

// Reports why no line was read after the newest, unless the file was read to its end or to a line `end`.
pub(crate) fn report_ending<R: Clock + Eprint>(
    lines: &LineReports<'_, R>,
    ended: Ended,
    limits: SessionLimits,
) {
    let reason = match ended {
        Ended::Quit | Ended::Eof => return,
        Ended::TooManyReads => return lines.report_reads(limits.reads()),
        Ended::CutLine => "the last line has no end",
        Ended::TooLong => "the line is too long",
        Ended::ReadFault => "a read failed after this line",
        Ended::WriteFault | Ended::NoMemory => "out of memory",
    };
    lines.report_end(reason);
}
