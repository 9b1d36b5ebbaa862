//! The command line of a session that is saved.
ghost use Rattle.std.specs.Prelude.{option_map};
ghost use Rattle.clap.specs.Words.{found_of, rows_of};
ghost use Rattle.heapdbg_options.specs.CommandLine.{save_in, target_in};
ghost use Rattle.heapdbg_options.specs.Refusals.{IsChoiceOrMistake, IsTargetMistake, IsReadOrMistake};

use crate::option_rows::{
    AREA, CommandRow, IDS, KEEP, MUTATORS, OUT, QUESTIONS, QUIET, REGIONS, TIME, TO, WIDE,
};
use crate::refusal::Mistake;
use crate::settings::{Target, Task};
use crate::socket_options::port_of;
use clap::ArgMatches;

// The command `save`.
pub(crate) const SAVE: CommandRow = CommandRow {
    name: "save",
    about: "Runs a session, and dumps the state that it leaves; one of --out and --to is required",
    usage: Some("heapdbg save [OPTIONS] <--out <PATH>|--to <N>>"),
    options: &[
        REGIONS, MUTATORS, KEEP, WIDE, AREA, TIME, IDS, QUIET, OUT, TO, QUESTIONS,
    ],
};

// The rule on the two places.
const ONE_PLACE: &str = "save takes one of --out and --to";

// Returns the task of the options of `save`: one of the two places has to be given.
pub(crate) fn save_task(options: &ArgMatches<'_>) -> Result<Task, Mistake>
    ensures { IsReadOrMistake save_in (rows_of (found_of options.now)) result }
{
    let path = options.get_str("out");
    let port = options.get_str("to");
    match target(path, port) {
        Ok(target) => Ok(Task::Save(target)),
        Err(mistake) => Err(mistake),
    }
}

// Returns the target of a dump of which this path or this port is given.
fn target(path: Option<&str>, port: Option<&str>) -> Result<Target, Mistake>
    ensures { IsChoiceOrMistake target_in IsTargetMistake (option_map (λ s. s.now) path.entry)
        (option_map (λ s. s.now) port.entry) result }
{
    match path {
        Some(_) => match port {
            Some(_) => Err(Mistake::Rule(ONE_PLACE)),
            None => Ok(Target::Out),
        },
        None => match port {
            Some(text) => match port_of(text) {
                Some(port) => Ok(Target::To(port)),
                None => Err(Mistake::Value(TO)),
            },
            None => Err(Mistake::Rule(ONE_PLACE)),
        },
    }
}
