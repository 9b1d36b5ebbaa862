//! Tables of the commands and their options, and the parsers that they make.
ghost use Rattle.std.specs.Prelude.{◌≡◌, false, IfOk, map};
ghost use Rattle.clap.specs.Words.{app_of, new_app, rule_of};
ghost use Rattle.clap.specs.declared.builder.Command.TheViews.{out-Command};
ghost use Rattle.heapdbg_options.specs.Parsers.{AddsCommand, IsParserOf, line_of_row, rule_of_row, valued_rule, with_command_rows, with_rules};

use clap::{Arg, ArgAction, Command};
use std::alloc::{AllocError, Global};

// An option `--NAME VALUE`, and what it takes. One that takes no number has 0 for all its numbers.
#[derive(Clone, Copy)]
pub(crate) struct OptionRow {
    // The name, without `--`.
    pub(crate) name: &'static str,
    // What help calls its value.
    pub(crate) value: &'static str,
    // Its help.
    pub(crate) help: &'static str,
    // Whether it has to be given.
    pub(crate) is_required: bool,
    // Whether it is a flag: `--NAME` without a value is `--NAME 1`.
    pub(crate) is_flag: bool,
    // Its value if it isn't given, unless that depends on other options.
    pub(crate) default: u64,
    // The least number that it takes.
    pub(crate) least: u64,
    // What stands between the least and the largest number where both are told.
    pub(crate) joint: &'static str,
    // The largest number that it takes, in a heap that isn't wide.
    pub(crate) most: u64,
    // The largest number that it takes in a wide heap.
    pub(crate) wide_most: u64,
    // What is told behind the numbers if it takes one.
    pub(crate) but: &'static str,
}

// A command: its name, what help says about it, the usage that help shows if that is another than clap's, and its options.
#[derive(Clone, Copy)]
pub(crate) struct CommandRow {
    pub(crate) name: &'static str,
    pub(crate) about: &'static str,
    pub(crate) usage: Option<&'static str>,
    pub(crate) options: &'static [OptionRow],
}

// Writes the row of an option that takes a number: its name, what help calls its value and says of it, its least and largest number
// with what joins them, its default, and what else help says.
macro_rules! number_row {
    (
        $name:literal, $value:literal, $about:literal, $least:literal $joint:literal $most:literal,
        $default:literal, $rest:literal
    ) => {
        OptionRow {
            name: $name,
            value: $value,
            help: concat!($about, ", ", $least, $joint, $most, $rest),
            is_required: false,
            is_flag: false,
            default: $default,
            least: $least,
            joint: $joint,
            most: $most,
            wide_most: $most,
            but: "",
        }
    };
}

// Writes the row of an option that takes a size, whose largest is another in a wide heap: its name, what help says of it, its least
// and its two largest numbers, and what else help says. Its default depends on other options.
macro_rules! size_row {
    (
        $name:literal, $about:literal, $least:literal to $most:literal to $wide_most:literal,
        $rest:literal
    ) => {
        OptionRow {
            name: $name,
            value: "N",
            help: concat!(
                $about, ", ", $least, " to ", $most, ", or to ", $wide_most, " with --wide 1",
                $rest
            ),
            is_required: false,
            is_flag: false,
            default: 0,
            least: $least,
            joint: " to ",
            most: $most,
            wide_most: $wide_most,
            but: "",
        }
    };
}

// Writes the row of an option that takes a port: its name, what help says of it and what else, and what is told behind the numbers.
macro_rules! port_row {
    ($name:literal, $about:literal, $rest:literal, $but:literal) => {
        OptionRow {
            name: $name,
            value: "N",
            help: concat!($about, ", ", 1, " to ", 65535, $rest),
            is_required: false,
            is_flag: false,
            default: 0,
            least: 1,
            joint: " to ",
            most: 65535,
            wide_most: 65535,
            but: $but,
        }
    };
}

// Writes the row of an option `--NAME [N]`: its name, what help says of it, what it says of 0 and 1, and what of the default.
macro_rules! flag_row {
    ($name:literal, $about:literal, $of:literal, $rest:literal) => {
        OptionRow {
            name: $name,
            value: "N",
            help: concat!($about, ", ", 0, " or ", 1, $of, " [default: ", 0, $rest, "]"),
            is_required: false,
            is_flag: true,
            default: 0,
            least: 0,
            joint: " or ",
            most: 1,
            wide_most: 1,
            but: "",
        }
    };
}

// Writes the row of an option that takes no number of a range of its own: its name, what help calls its value, and its help.
macro_rules! plain_row {
    ($name:literal, $value:literal, $help:literal) => {
        OptionRow {
            name: $name,
            value: $value,
            help: $help,
            is_required: false,
            is_flag: false,
            default: 0,
            least: 0,
            joint: "",
            most: 0,
            wide_most: 0,
            but: "",
        }
    };
}

// Writes the row of `--regions N`, and of `--keep N`, with what its help says of the default.
macro_rules! regions_row {
    ($rest:literal) => { size_row!("regions", "Regions of the heap", 1 to 256 to 65536, $rest) };
}

macro_rules! keep_row {
    ($rest:literal) => {
        size_row!("keep", "Steps that can be undone", 1 to 65536 to 16777216, $rest)
    };
}

// The option `--regions N`.
pub(crate) const REGIONS: OptionRow = regions_row!(" [default: 16]");

// The option `--mutators N`.
pub(crate) const MUTATORS: OptionRow = number_row!(
    "mutators", "N", "Mutators of the heap", 1 " to " 16, 2, " [default: 2]"
);

// The option `--keep N`.
pub(crate) const KEEP: OptionRow = keep_row!(" [default: 1024]");

// The option `--wide [N]`.
pub(crate) const WIDE: OptionRow = flag_row!(
    "wide",
    "Whether the heap has wider limits, of classes, names and pins too",
    "",
    ""
);

// The option `--area N`.
pub(crate) const AREA: OptionRow = plain_row!(
    "area",
    "N",
    "Last regions of the heap, which hold arrays of more than 1024 elements, fewer than all; with --wide 1 alone [default: 0]"
);

// The option `--time N`.
pub(crate) const TIME: OptionRow = OptionRow {
    joint: " to ",
    most: 18446744073709551615,
    ..TIME_OF_DUMP
};

// The option `--time N` without its range, of which help says nothing.
const TIME_OF_DUMP: OptionRow = plain_row!(
    "time",
    "N",
    "Milliseconds since 1970 in the header of a dump [default: 0]"
);

// The option `--ids N`.
pub(crate) const IDS: OptionRow = number_row!(
    "ids", "N", "Bytes of an identifier in a dump", 4 " or " 8, 8, " [default: 8]"
);

// The option `--quiet [N]`.
pub(crate) const QUIET: OptionRow = flag_row!(
    "quiet",
    "Whether no progress is shown on a terminal",
    "",
    ""
);

// The option `--questions [N]`.
pub(crate) const QUESTIONS: OptionRow = flag_row!(
    "questions",
    "Whether questions are answered",
    "",
    ""
);

// The option `--page N`.
pub(crate) const PAGE: OptionRow = port_row!(
    "page",
    "Port on 127.0.0.1 of a page that shows the heap to a browser",
    " [default: none]",
    ""
);

// The option `--secret PATH`.
pub(crate) const SECRET: OptionRow = plain_row!(
    "secret",
    "PATH",
    "File with the word that each client has to send first [default: none]"
);

// The option `--regions N` of a command that takes a dump.
pub(crate) const DUMP_REGIONS: OptionRow = regions_row!(" [default: 16, or with --hprof the most]");

// The option `--keep N` of a command that takes a dump, but of `explore`.
pub(crate) const DUMP_KEEP: OptionRow = keep_row!(" [default: 1024, or with --hprof 65536]");

// The option `--keep N` of `explore`.
pub(crate) const EXPLORE_KEEP: OptionRow = keep_row!(" [default: the most, or with --hprof 65536]");

// The option `--wide [N]` of a command that takes a dump.
pub(crate) const DUMP_WIDE: OptionRow = flag_row!(
    "wide",
    "Whether the heap has wider limits, of classes, names and pins too",
    "",
    ", or with --hprof 1"
);

// The option `--area N` of a command that takes a dump.
pub(crate) const DUMP_AREA: OptionRow = OptionRow {
    help: "Last regions of the heap, which hold arrays of more than 1024 elements, fewer than all; with --wide 1 alone [default: 0, or with --hprof a quarter]",
    ..AREA
};

// The option `--hprof PATH`.
pub(crate) const HPROF: OptionRow = plain_row!(
    "hprof",
    "PATH",
    "File of a heap dump in HPROF, whose heap is made first"
);

// The option `--from PATH`.
pub(crate) const FROM: OptionRow = plain_row!(
    "from",
    "PATH",
    "File of lines that are run first; their replies are not shown"
);

// The option `--then PATH`.
pub(crate) const THEN: OptionRow = plain_row!(
    "then",
    "PATH",
    "File of a later heap dump of the same program: pin 1 keeps the heap of --hprof, out of which the heap of this dump is made; only with --hprof"
);

// The option `--out PATH`.
pub(crate) const OUT: OptionRow = plain_row!(
    "out",
    "PATH",
    "File that the last state is dumped to; if not given, --to is required"
);

// The option `--out PATH` of `fetch`, which has to be given.
pub(crate) const NEEDED_OUT: OptionRow = OptionRow {
    help: "File that the dump goes to",
    is_required: true,
    ..OUT
};

// The option `--port N` of a command that needs it.
pub(crate) const PORT: OptionRow = OptionRow {
    is_required: true,
    ..SERVED_PORT
};

// The option `--port N` of a command that needs it, but for this need.
const SERVED_PORT: OptionRow = port_row!("port", "Port on 127.0.0.1", "", "");

// The option `--port N` of `explore`.
pub(crate) const ASKED_PORT: OptionRow = port_row!(
    "port",
    "Port on 127.0.0.1 of a heap that is served, to ask about that",
    "; not with --from, --hprof or --page",
    ""
);

// The option `--to N`.
pub(crate) const TO: OptionRow = port_row!(
    "to",
    "Port on 127.0.0.1 that the last state is dumped to",
    "; if not given, --out is required",
    ""
);

// The option `--sessions N`.
pub(crate) const SESSIONS: OptionRow = number_row!(
    "sessions", "N", "Sessions over the one heap, in all or with --stay 1 at a time", 1 " to " 1000,
    1, " [default: 1]"
);

// The option `--workers [N]`.
pub(crate) const WORKERS: OptionRow = flag_row!(
    "workers",
    "Threads that mark, and threads that sweep",
    " of each",
    ""
);

// The option `--dumps N`.
pub(crate) const DUMPS: OptionRow = port_row!(
    "dumps",
    "Port on 127.0.0.1 that sends a dump to each client",
    " [default: none]",
    ", and not the number of --port"
);

// The option `--page N` of `serve`.
pub(crate) const SERVED_PAGE: OptionRow = OptionRow {
    but: ", and not the number of --port or --dumps",
    ..PAGE
};

// The option `--roll [N]`.
pub(crate) const ROLL: OptionRow = flag_row!(
    "roll",
    "Whether the heap drops old acts in place of refusing new ones",
    "",
    ""
);

// The option `--stay [N]`.
pub(crate) const STAY: OptionRow = flag_row!(
    "stay",
    "Whether the heap is served until it is ended from outside, and drops old acts",
    "",
    ""
);

// The option `--idle SECONDS`.
pub(crate) const IDLE: OptionRow = number_row!(
    "idle", "SECONDS", "Seconds without input after which a session is ended", 1 " to " 86400, 0,
    " [default: none]"
);

// Returns the parser with the commands of these rows added in turn.
pub(crate) fn with_commands<'a>(
    alloc: Global,
    named: Command<'a>,
    rows: &[CommandRow],
) -> Result<Command<'a>, AllocError>
    requires { (out-Command named).has_globals ≡ false }
    ensures { IsParserOf (with_command_rows (app_of named.entry) rows.now) result }
{
    let mut parser = named;
    for row in rows {
        parser = with_command(alloc, parser, row)?;
    }
    Ok(parser)
}

// Returns the parser with the command of a row added.
fn with_command<'a>(
    alloc: Global,
    parser: Command<'a>,
    row: &CommandRow,
) -> Result<Command<'a>, AllocError>
    ensures { IfOk result (λ c. AddsCommand (line_of_row row.now) parser.entry c) }
{
    match with_options(alloc, named_command(alloc, row), row.options) {
        Ok(command) => parser.subcommand(command),
        Err(error) => Err(error),
    }
}

// Returns the parser with the options of these rows added in turn.
fn with_options<'a>(
    alloc: Global,
    named: Command<'a>,
    rows: &[OptionRow],
) -> Result<Command<'a>, AllocError>
    requires { (out-Command named).has_globals ≡ false }
    ensures { IsParserOf (with_rules (app_of named.entry) (map rule_of_row rows.now)) result }
{
    let mut parser = named;
    for row in rows {
        parser = parser.arg(option_of_row(alloc, row))?;
    }
    Ok(parser)
}

// Creates a row's option.
fn option_of_row<'a>(alloc: Global, row: &OptionRow) -> Arg<'a>
    ensures rule { rule_of result ≡ rule_of_row row.now }
    ensures local { result.global ≡ false }
{
    let option = valued_option(alloc, row);
    if row.is_flag {
        option.num_args(..=1).default_missing_value("1")
    } else {
        option
    }
}

// Creates a row's option, which takes a value.
fn valued_option<'a>(alloc: Global, row: &OptionRow) -> Arg<'a>
    ensures rule { rule_of result ≡ valued_rule row.now }
    ensures local { result.global ≡ false }
{
    Arg::new(alloc, row.name)
        .long(row.name)
        .action(ArgAction::Set)
        .value_name(row.value)
        .help(row.help)
        .required(row.is_required)
}

// Creates the parser of a row's command without its options.
fn named_command<'a>(alloc: Global, row: &CommandRow) -> Command<'a>
    ensures app { app_of result ≡ new_app row.now.name.now }
    ensures local { (out-Command result).has_globals ≡ false }
{
    let named = Command::new(alloc, row.name).about(row.about);
    match row.usage {
        Some(usage) => named.override_usage(usage),
        None => named,
    }
}
