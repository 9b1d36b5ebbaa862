//! The command lines of the tasks between standard input and standard output.
ghost use Rattle.std.specs.Prelude.{◌≡◌, Some, option_map, true};
ghost use Rattle.clap.specs.Words.{found_of, rows_of};
ghost use Rattle.heapdbg_options.specs.CommandLine.{draw_in, dump_origin, explore_in, has_second, origin_in, own_page, run_in, second_task};
ghost use Rattle.heapdbg_options.specs.Numbers.{page_numbers, port_limit, taken_text};
ghost use Rattle.heapdbg_options.specs.Refusals.{IsExploreOrMistake, IsOutside, IsReadOrMistake, IsValueOrMistake, second_rule};
ghost use Rattle.heapdbg_options.specs.declared.settings.Task.TheVariants.{Explore};

use crate::command_line::has_dump;
use crate::option_rows::{
    ASKED_PORT, CommandRow, DUMP_AREA, DUMP_KEEP, DUMP_REGIONS, DUMP_WIDE, EXPLORE_KEEP, FROM,
    HPROF, IDS, MUTATORS, NEEDED_OUT, OptionRow, PAGE, QUESTIONS, QUIET, SECRET, THEN, TIME,
};
use crate::refusal::Mistake;
use crate::settings::{Origin, Task};
use crate::socket_options::{has_secret, port_of};
use clap::ArgMatches;

// The command `run`.
pub(crate) const RUN: CommandRow = CommandRow {
    name: "run",
    about: "Reads commands from standard input and writes replies to standard output",
    usage: None,
    options: &[
        DUMP_REGIONS,
        MUTATORS,
        DUMP_KEEP,
        DUMP_WIDE,
        DUMP_AREA,
        TIME,
        IDS,
        QUIET,
        QUESTIONS,
        HPROF,
    ],
};

// The command `explore`.
pub(crate) const EXPLORE: CommandRow = CommandRow {
    name: "explore",
    about: "Reads commands and questions from standard input and writes answers to standard output",
    usage: None,
    options: &[
        DUMP_REGIONS,
        MUTATORS,
        EXPLORE_KEEP,
        DUMP_WIDE,
        DUMP_AREA,
        TIME,
        IDS,
        QUIET,
        FROM,
        OptionRow {
            help: "File of a heap dump in HPROF, whose heap is made first; not with --from",
            ..HPROF
        },
        THEN,
        ASKED_PORT,
        PAGE,
        OptionRow {
            help: "File with the word that the heap at --port has to be sent first; only with --port",
            ..SECRET
        },
    ],
};

// The command `draw`.
pub(crate) const DRAW: CommandRow = CommandRow {
    name: "draw",
    about: "Runs a session, and draws the regions of the state that it leaves",
    usage: None,
    options: &[
        DUMP_REGIONS,
        MUTATORS,
        DUMP_KEEP,
        DUMP_WIDE,
        DUMP_AREA,
        TIME,
        IDS,
        QUIET,
        OptionRow {
            help: "File that the picture goes to, as SVG",
            ..NEEDED_OUT
        },
        HPROF,
    ],
};

// Returns the task of the options of `run`.
pub(crate) fn run_task(options: &ArgMatches<'_>) -> Task
    ensures { run_in (rows_of (found_of options.now)) ≡ Some result }
{
    Task::Run(dump_origin(has_dump(options)))
}

// Returns what is run before a session, if a dump is given, or isn't.
pub(crate) fn dump_origin(dump: bool) -> Origin
    ensures { result ≡ dump_origin dump }
{
    if dump { Origin::Dump } else { Origin::Fresh }
}

// Returns the task of the options of `draw`.
pub(crate) fn draw_task(options: &ArgMatches<'_>) -> Task
    ensures { draw_in (rows_of (found_of options.now)) ≡ Some result }
{
    Task::Draw(dump_origin(has_dump(options)))
}

// Returns the task of the options of `explore`, or the mistake in them: the session is over a heap of its own, or the questions
// are about a heap that is served.
pub(crate) fn explore_task(options: &ArgMatches<'_>) -> Result<Task, Mistake>
    ensures { IsReadOrMistake explore_in (rows_of (found_of options.now)) result }
{
    let from = options.get_str("from");
    let hprof = options.get_str("hprof");
    let page = options.get_str("page");
    let port = options.get_str("port");
    let secret = has_secret(options);
    match choose_task(from, hprof, page, port, secret) {
        Ok(task) => second_task(has_second(options), task),
        Err(mistake) => Err(mistake),
    }
}

// Returns the task of `explore` to which this file of lines or this dump, this page or this port is given, and a secret or none.
fn choose_task(
    from: Option<&str>,
    hprof: Option<&str>,
    page: Option<&str>,
    port: Option<&str>,
    secret: bool,
) -> Result<Task, Mistake>
    ensures { IsExploreOrMistake (option_map (λ s. s.now) from.entry)
        (option_map (λ s. s.now) hprof.entry) (option_map (λ s. s.now) page.entry)
        (option_map (λ s. s.now) port.entry) secret result }
{
    let Some(text) = port else {
        if secret {
            return Err(Mistake::Rule("explore takes --secret with --port alone"));
        }
        let Some(origin) = origin_in(from.is_some(), hprof.is_some()) else {
            return Err(Mistake::Rule("explore takes --from without --hprof"));
        };
        return own_task(origin, page);
    };
    if from.is_some() || hprof.is_some() || page.is_some() {
        return Err(Mistake::Rule("explore takes --port without --from, --hprof and --page"));
    }
    match port_of(text) {
        Some(port) => Ok(Task::Ask { port, secret }),
        None => Err(Mistake::Value(ASKED_PORT)),
    }
}

// Returns what is run first, if a file of lines is given or not, and a dump or not; or None if both are.
fn origin_in(from: bool, hprof: bool) -> Option<Origin>
    ensures { result ≡ origin_in from hprof }
{
    match (from, hprof) {
        (false, false) => Some(Origin::Fresh),
        (true, false) => Some(Origin::Lines),
        (false, true) => Some(Origin::Dump),
        (true, true) => None,
    }
}

// Returns the task of `explore` over a heap of its own, to which this page is given.
fn own_task(origin: Origin, page: Option<&str>) -> Result<Task, Mistake>
    ensures { IsValueOrMistake
        (option_map (λ p. Explore origin p) (own_page (option_map (λ s. s.now) page.entry)))
        (λ said. (said ≡ taken_text page_numbers)
        × IsOutside 1 port_limit (option_map (λ s. s.now) page.entry)) result }
{
    let Some(text) = page else {
        return Ok(Task::Explore { origin, page: None });
    };
    match port_of(text) {
        Some(port) => {
            let page = Some(port);
            Ok(Task::Explore { origin, page })
        }
        None => Err(Mistake::Value(PAGE)),
    }
}

// The rule on a second dump.
const SECOND_RULE: &str = "explore takes --then with --hprof alone";

// Returns the task of `explore`, in which the session of two dumps is run first if a second one is given.
fn second_task(second: bool, task: Task) -> Result<Task, Mistake>
    ensures { IsValueOrMistake (second_task second task)
        (λ said. (said ≡ second_rule) × (second ≡ true)) result }
{
    if !second {
        return Ok(task);
    }
    match task {
        Task::Explore { origin, page } => match origin {
            Origin::Dump => {
                let origin = Origin::Dumps;
                Ok(Task::Explore { origin, page })
            }
            Origin::Fresh => Err(Mistake::Rule(SECOND_RULE)),
            Origin::Lines => Err(Mistake::Rule(SECOND_RULE)),
            Origin::Dumps => Err(Mistake::Rule(SECOND_RULE)),
        },
        Task::Run(_) => Err(Mistake::Rule(SECOND_RULE)),
        Task::Draw(_) => Err(Mistake::Rule(SECOND_RULE)),
        Task::Save(_) => Err(Mistake::Rule(SECOND_RULE)),
        Task::Serve(_) => Err(Mistake::Rule(SECOND_RULE)),
        Task::Ask { port: _, secret: _ } => Err(Mistake::Rule(SECOND_RULE)),
        Task::Fetch { port: _, secret: _ } => Err(Mistake::Rule(SECOND_RULE)),
    }
}

// Tells whether a second dump is given.
fn has_second(options: &ArgMatches<'_>) -> bool
    ensures { result ≡ has_second (rows_of (found_of options.now)) }
{
    options.get_str("then").is_some()
}
