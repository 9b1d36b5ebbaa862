//! The command lines of the tasks over sockets.
ghost use Rattle.std.specs.Prelude.{◌≡◌, codes, option_and_then};
ghost use Rattle.clap.specs.Words.{first_of, found_of, rows_of};
ghost use Rattle.heapdbg_options.specs.CommandLine.{ask_in, dumps_with, fetch_in, has_secret, number_in, other_port, page_with, port_in, serve_in, third_port};
ghost use Rattle.heapdbg_options.specs.Numbers.{port_limit};
ghost use Rattle.heapdbg_options.specs.Refusals.{IsReadOrMistake};

use crate::command_line::{flag_from, has_dump, number, number_of};
use crate::option_rows::{
    CommandRow, DUMP_AREA, DUMP_KEEP, DUMP_REGIONS, DUMP_WIDE, DUMPS, HPROF, IDLE, IDS, MUTATORS,
    NEEDED_OUT, PORT, QUESTIONS, QUIET, ROLL, SECRET, SERVED_PAGE, SESSIONS, STAY, TIME, WORKERS,
};
use crate::refusal::Mistake;
use crate::session_options::dump_origin;
use crate::settings::{Service, Task};
use clap::ArgMatches;

// The command `serve`.
pub(crate) const SERVE: CommandRow = CommandRow {
    name: "serve",
    about: "Serves sessions over one heap to clients on 127.0.0.1, and tells how each ended",
    usage: None,
    options: &[
        DUMP_REGIONS,
        MUTATORS,
        DUMP_KEEP,
        DUMP_WIDE,
        DUMP_AREA,
        TIME,
        IDS,
        QUIET,
        PORT,
        SESSIONS,
        WORKERS,
        DUMPS,
        SERVED_PAGE,
        QUESTIONS,
        ROLL,
        STAY,
        IDLE,
        SECRET,
        HPROF,
    ],
};

// The command `ask`.
pub(crate) const ASK: CommandRow = CommandRow {
    name: "ask",
    about: "Sends standard input to a session that is served, and copies what comes back to standard output",
    usage: None,
    options: &[PORT, SECRET],
};

// The command `fetch`.
pub(crate) const FETCH: CommandRow = CommandRow {
    name: "fetch",
    about: "Fetches a dump of a heap that is served",
    usage: None,
    options: &[PORT, NEEDED_OUT, SECRET, QUIET],
};

// Returns the task of the options of `serve`, or the mistake in them.
pub(crate) fn serve_task(options: &ArgMatches<'_>) -> Result<Task, Mistake>
    ensures { IsReadOrMistake serve_in (rows_of (found_of options.now)) result }
{
    let port = port(options)?;
    let sessions = number_of(options, SESSIONS)?;
    let workers = number_of(options, WORKERS)?;
    let Some(dumps) = dumps(options, port) else {
        return Err(Mistake::Value(DUMPS));
    };
    let Some(page) = page(options, port, dumps) else {
        return Err(Mistake::Value(SERVED_PAGE));
    };
    let idle = number_of(options, IDLE)?;
    let stays = flag_from(options, STAY)?;
    Ok(Task::Serve(Service {
        port,
        sessions,
        workers,
        dumps,
        page,
        idle,
        stays,
        secret: has_secret(options),
        origin: dump_origin(has_dump(options)),
    }))
}

// Returns the port that the options give, or the mistake in it.
fn port(options: &ArgMatches<'_>) -> Result<u16, Mistake>
    ensures { IsReadOrMistake port_in (rows_of (found_of options.now)) result }
{
    match given_port(options) {
        Some(port) => Ok(port),
        None => Err(Mistake::Value(PORT)),
    }
}

// Returns the port that the options give.
fn given_port(options: &ArgMatches<'_>) -> Option<u16>
    ensures { result ≡ port_in (rows_of (found_of options.now)) }
{
    match options.get_str("port") {
        Some(text) => port_of(text),
        None => None,
    }
}

// Returns the port for dumps that the options give beside that of the sessions.
fn dumps(options: &ArgMatches<'_>, port: u16) -> Option<Option<u16>>
    ensures { result ≡ dumps_with port (first_of (codes "dumps") (rows_of (found_of options.now))) }
{
    match options.get_str("dumps") {
        Some(text) => port_beside(port, text),
        None => Some(None),
    }
}

// Returns the port for dumps that a text writes beside that of the sessions.
fn port_beside(port: u16, text: &str) -> Option<Option<u16>>
    ensures { result ≡ option_and_then (other_port port) (number_in 1 port_limit text.now) }
{
    match port_of(text) {
        Some(dumps) => other_port(port, dumps),
        None => None,
    }
}

// Returns a port for dumps beside that of the sessions.
fn other_port(port: u16, dumps: u16) -> Option<Option<u16>>
    ensures { result ≡ other_port port dumps }
{
    if dumps == port {
        return None;
    }
    Some(Some(dumps))
}

// Returns the port of the page that the options give beside that of the sessions and that for dumps.
fn page(options: &ArgMatches<'_>, port: u16, dumps: Option<u16>) -> Option<Option<u16>>
    ensures { result
        ≡ page_with port dumps (first_of (codes "page") (rows_of (found_of options.now))) }
{
    match options.get_str("page") {
        Some(text) => third_port_of(port, dumps, text),
        None => Some(None),
    }
}

// Returns the port of the page that a text writes beside those two.
fn third_port_of(port: u16, dumps: Option<u16>, text: &str) -> Option<Option<u16>>
    ensures { result
        ≡ option_and_then (third_port port dumps) (number_in 1 port_limit text.now) }
{
    match port_of(text) {
        Some(page) => third_port(port, dumps, page),
        None => None,
    }
}

// Returns a port of the page beside those two.
fn third_port(port: u16, dumps: Option<u16>, page: u16) -> Option<Option<u16>>
    ensures { result ≡ third_port port dumps page }
{
    if page == port {
        return None;
    }
    match dumps {
        Some(dumps) if page == dumps => None,
        _ => Some(Some(page)),
    }
}

// Tells whether the options give a secret.
pub(crate) fn has_secret(options: &ArgMatches<'_>) -> bool
    ensures { result ≡ has_secret (rows_of (found_of options.now)) }
{
    options.get_str("secret").is_some()
}

// Returns the task of the options of `fetch`, or the mistake in them.
pub(crate) fn fetch_task(options: &ArgMatches<'_>) -> Result<Task, Mistake>
    ensures { IsReadOrMistake fetch_in (rows_of (found_of options.now)) result }
{
    let port = port(options)?;
    let secret = has_secret(options);
    Ok(Task::Fetch { port, secret })
}

// Returns the task of the options of `ask`, or the mistake in them.
pub(crate) fn ask_task(options: &ArgMatches<'_>) -> Result<Task, Mistake>
    ensures { IsReadOrMistake ask_in (rows_of (found_of options.now)) result }
{
    let port = port(options)?;
    let secret = has_secret(options);
    Ok(Task::Ask { port, secret })
}

// Returns the port that a text writes.
pub(crate) fn port_of(text: &str) -> Option<u16>
    ensures { result ≡ number_in 1 port_limit text.now }
{
    let port = number(text, PORT.least, PORT.most)?;
    Some(port as u16)
}
