//! What is run before a session.
ghost use Rattle.std.specs.Prelude.{IfErr, IfOk};
ghost use Rattle.session_text.specs.Answers.{AnswersCommand, Begins};
ghost use Rattle.session_text.specs.Limits.{session_limits};
ghost use Rattle.heapdbg_options.specs.declared.settings.Origin.TheVariants.{Lines};
ghost use Rattle.private_tasks.specs.Explorations.{IsHindrance, IsRunFirst, has_area};

use crate::failure::Fault;
use crate::first_dump::load_dump;
use crate::folder::is_folder;
use crate::reasons::tell_path;
use crate::request::Request;
use crate::second_dump::load_dumps;
use heap_console::load_lines;
use heapdbg_options::settings::Origin;
use session_text::{Commands, session_limits};
use std::fs;
use std::fs::Files;
use std::io::Error;
use std::time::Clock;

/// Runs by these commands the lines of the file of the path, or of the session of the dump in it, or of the session of two dumps,
/// if `origin` says so, and returns them as the lines left them. Answers are not shown, and each line that is refused is reported
/// on standard error, and if that is a terminal, about once a second how many lines were read, unless the settings are quiet. Fails
/// with Memory, with From if a file of lines can't be opened or is a folder, and with Hprof as `load_dump` does; why, it says on
/// standard error, if that is a terminal.
pub fn run_first<R: AllocGlobal + Clock + Eprint + Files, C: Commands + Drop>(
    rt: &R,
    request: Request<'_>,
    origin: Origin,
    is_terminal: bool,
    commands: C,
) -> Result<C, Fault>
    ensures run { IfOk result (IsRunFirst
        (session_limits request.entry.settings.wide) (has_area request.entry.settings) origin
        (AnswersCommand C.acts C.unknown request.entry.settings.time)
        (Begins C.acts C.unknown request.entry.settings.time) commands) }
    ensures hindrance { IfErr result (IsHindrance origin) }
{
    match origin {
        Origin::Fresh => Ok(commands),
        Origin::Lines => load(rt, request, is_terminal, commands),
        Origin::Dump => load_dump(rt, request, is_terminal, commands),
        Origin::Dumps => load_dumps(rt, request, is_terminal, commands),
    }
}

// Runs the lines of the file of the path.
fn load<R: AllocGlobal + Clock + Eprint + Files, C: Commands + Drop>(
    rt: &R,
    request: Request<'_>,
    is_terminal: bool,
    commands: C,
) -> Result<C, Fault>
    ensures run { IfOk result (IsRunFirst
        (session_limits request.entry.settings.wide) (has_area request.entry.settings) Lines
        (AnswersCommand C.acts C.unknown request.entry.settings.time)
        (Begins C.acts C.unknown request.entry.settings.time) commands) }
    ensures hindrance { IfErr result (IsHindrance Lines) }
{
    let Some(path) = request.first else {
        return Err(Fault::Memory);
    };
    let file = match open_lines(rt, path) {
        Ok(file) => file,
        Err(error) => {
            tell_path(rt, is_terminal, path, &error);
            return Err(Fault::From);
        }
    };
    let (alloc, time) = (rt.alloc(), request.settings.time);
    let limits = session_limits(request.settings.wide);
    let counts = request.shows_progress(is_terminal);
    let mut commands = commands;
    let loaded = load_lines(rt, alloc, path, file, &mut commands, time, limits, counts);
    match loaded {
        Ok(_) => Ok(commands),
        Err(_) => Err(Fault::Memory),
    }
}

// The number of the error that a folder is no file to read.
const A_FOLDER: i32 = 21;

// Opens a file of lines. Fails if the path is that of a folder, too.
pub(crate) fn open_lines<R: Files>(rt: &R, path: &str) -> Result<R::File, Error> {
    if is_folder(rt, path) {
        return Err(Error::from_raw_os_error(A_FOLDER));
    }
    fs::open(rt, path)
}
