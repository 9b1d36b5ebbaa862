//! Reads the command line.
ghost use Rattle.std.specs.Prelude.{◌≡◌, ◌<◌, None, Some, false, IfOk, IfErr, IfSome, option_map};
ghost use Rattle.std.specs.List.{list_all};
ghost use Rattle.std.specs.Prelude.{option_and_then};
ghost use Rattle.std.specs.Char.{is_ascii_digit};
ghost use Rattle.clap.specs.Words.{FailsBy, app_of, fault_of, found_of, kind_of, rows_of, subcommand_of, subcommand_rows_of};
ghost use Rattle.clap.specs.declared.builder.Command.TheViews.{out-Command};
ghost use Rattle.heapdbg_options.specs.Parsers.{IsParserOf, with_command_rows};
ghost use Rattle.heapdbg_options.specs.CommandLine.{AreSettingsWithin, HasDefaults, heapdbg_line, named_line, number_in};
ghost use Rattle.heapdbg_options.specs.CommandLine.{settings_in, settings_of, settings_over, settings_under, texts, option_size, option_value, counted_in, size_in, text_before};
ghost use Rattle.heapdbg_options.specs.CommandLine.{id_size_in, id_size_of, flag_in, has_dump, keep_after, keep_default, origin_of, path_of, regions_after, regions_default, regions_in, task_in, usual_keep, value_in, wide_default, wide_in};
ghost use Rattle.heapdbg_options.specs.Numbers.{flag_numbers, most_kept, most_regions, option_named, number_options, row_numbers_in, row_numbers, size_options};
ghost use Rattle.heapdbg_options.specs.CommandLine.{area_after, area_default, most_area, with_area_in};
ghost use Rattle.heapdbg_options.specs.Refusals.{IsMistake, IsReadOrMistake, IsRefusalOf, IsSaidOf, IsValueOrMistake, area_rule, is_help};

use crate::line_words::{is_help, is_version};
use crate::option_rows::{
    AREA, CommandRow, IDS, KEEP, MUTATORS, OptionRow, QUESTIONS, QUIET, REGIONS, ROLL, TIME, WIDE,
    with_commands,
};
use crate::refusal::{Mistake, VERSION, version_by_command, version_by_option};
use crate::save_options::{SAVE, save_task};
use crate::session_options::{DRAW, EXPLORE, RUN, draw_task, explore_task, run_task};
use crate::settings::{LineFault, Origin, Settings, Task};
use crate::socket_options::{ASK, FETCH, SERVE, ask_task, fetch_task, serve_task};
use crate::tip::with_tip;
use clap::error::ErrorKind;
use clap::{ArgMatches, Command, Error};
use heap_class::IdSize;
use heap_world::NARROW_KEEP;
use std::alloc::{AllocError, Global};

/// Returns the settings that the words ask for, the first of which is the program's name. Fails with Bad if they are no command
/// line of this program, with OptionText or CommandText if they ask for help or for the version, and with Memory only if an
/// allocation fails.
pub fn settings(alloc: Global, words: &[&str]) -> Result<Settings, LineFault>
    ensures ok { IfOk result (λ s. settings_of (texts words.now) ≡ Some s) }
    ensures refused { IfErr result (IsRefusalOf (texts words.now)) }
    ensures limits { IfOk result AreSettingsWithin }
    ensures defaults { IfOk result (HasDefaults (texts words.now)) }
{
    if is_version(words) {
        return Err(version_by_command(alloc));
    }
    let matches = match parse(alloc, words) {
        Ok(matches) => matches,
        Err(error) => return Err(refusal(alloc, words, &error)),
    };
    match settings_of_matches(&matches) {
        Ok(settings) => Ok(settings),
        Err(mistake) => Err(mistake.refusal(alloc)),
    }
}

// Parses the words.
fn parse<'a>(alloc: Global, words: &'a [&'a str]) -> Result<ArgMatches<'a>, Error>
    ensures ok { IfOk result
        (λ m. subcommand_rows_of m ≡ subcommand_of heapdbg_line (texts words.now)) }
    ensures faults { FailsBy (fault_of heapdbg_line (texts words.now)) result }
{
    let parser = parser(alloc)?;
    parser.try_get_matches_from(words)
}

// Creates the parser of the command line: the program's name, and a command that has to follow.
fn parser<'a>(alloc: Global) -> Result<Command<'a>, AllocError>
    ensures { IsParserOf heapdbg_line result }
{
    let rows = commands();
    with_commands(alloc, named_parser(alloc), &rows)
}

// Returns the commands, in the order of help.
fn commands() -> [CommandRow; 7]
    ensures { with_command_rows named_line result ≡ heapdbg_line }
{
    [RUN, EXPLORE, SAVE, DRAW, SERVE, ASK, FETCH]
}

// Creates the parser of the program's name.
fn named_parser<'a>(alloc: Global) -> Command<'a>
    ensures app { app_of result ≡ named_line }
    ensures local { (out-Command result).has_globals ≡ false }
{
    Command::new(alloc, "heapdbg")
        .version(VERSION)
        .subcommand_required(true)
}

// Returns the refusal of words for an error of the parser: the version or a help that is asked for, and else the parser's text,
// of which no contract speaks.
fn refusal(alloc: Global, words: &[&str], error: &Error) -> LineFault
    ensures { IsSaidOf (kind_of error.now) (is_help (texts words.now)) result }
{
    if error.kind() == ErrorKind::OutOfMemory {
        return LineFault::Memory;
    }
    if error.kind() == ErrorKind::DisplayVersion {
        return version_by_option(alloc);
    }
    let Ok(text) = error.to_string(alloc) else {
        return LineFault::Memory;
    };
    if error.kind() == ErrorKind::DisplayHelp {
        return help_text(words, text);
    }
    match with_tip(alloc, words, text) {
        Ok(text) => LineFault::Bad(text),
        Err(_) => LineFault::Memory,
    }
}

// Returns the refusal of words that ask for a help, by the command `help` or by an option.
fn help_text(words: &[&str], text: String) -> LineFault
    ensures { IsSaidOf ErrorKind.DisplayHelp (is_help (texts words.now)) result }
{
    if is_help(words) {
        LineFault::CommandText(text)
    } else {
        LineFault::OptionText(text)
    }
}

// Returns the settings that the matches ask for, or the mistake in them.
fn settings_of_matches(matches: &ArgMatches<'_>) -> Result<Settings, Mistake>
    ensures { IsValueOrMistake (option_and_then settings_under (subcommand_rows_of matches.now))
        (λ said. IsMistake said (subcommand_rows_of matches.now)) result }
{
    let Some((name, options)) = matches.subcommand() else {
        return Err(Mistake::Command);
    };
    match task_of(name, options) {
        Ok(task) => settings_from(task, options),
        Err(mistake) => Err(mistake),
    }
}

// Returns the task of a command's name and options, or the mistake in them.
fn task_of(name: &str, options: &ArgMatches<'_>) -> Result<Task, Mistake>
    ensures { IsValueOrMistake (task_in name.now (rows_of (found_of options.now)))
        (λ said. IsMistake said (Some (name.now, rows_of (found_of options.now)))) result }
{
    if name == "run" {
        return Ok(run_task(options));
    }
    if name == "explore" {
        return explore_task(options);
    }
    if name == "draw" {
        return Ok(draw_task(options));
    }
    if name == "save" {
        return save_task(options);
    }
    if name == "serve" {
        return serve_task(options);
    }
    if name == "ask" {
        return ask_task(options);
    }
    if name == "fetch" {
        fetch_task(options)
    } else {
        Err(Mistake::Command)
    }
}

// Returns the settings of a task's options, or the mistake in them.
fn settings_from(task: Task, options: &ArgMatches<'_>) -> Result<Settings, Mistake>
    ensures { IsReadOrMistake (settings_in task) (rows_of (found_of options.now)) result }
{
    let wide = wide_from(options)?;
    let quiet = flag_from(options, QUIET)?;
    let settings = settings_over(task, options, wide, quiet)?;
    settings_with_area(settings, options)
}

// Returns whether the heap is wide, or the mistake in that. If the option isn't given, the heap of a dump is.
fn wide_from(options: &ArgMatches<'_>) -> Result<bool, Mistake>
    ensures { IsReadOrMistake wide_in (rows_of (found_of options.now)) result }
{
    let number = number_or(options, WIDE, wide_default(has_dump(options)))?;
    Ok(number == 1)
}

// Returns the number that an option is given, `default` if it isn't given, or the mistake in it.
fn number_or(options: &ArgMatches<'_>, row: OptionRow, default: u64) -> Result<u64, Mistake>
    requires { option_named row.name.now number_options ≡ Some (row_numbers row) }
    ensures { IsReadOrMistake (option_value row.name.now default row.least row.most)
        (rows_of (found_of options.now)) result }
{
    match option_value(options, row.name, default, row.least, row.most) {
        Some(number) => Ok(number),
        None => Err(Mistake::Value(row)),
    }
}

// Returns the value of an option, `default` if it isn't given, or None if it isn't from `least` to `most`.
fn option_value(
    options: &ArgMatches<'_>,
    name: &str,
    default: u64,
    least: u64,
    most: u64,
) -> Option<u64>
    ensures { result ≡ option_value name.now default least most (rows_of (found_of options.now)) }
{
    match options.get_str(name) {
        Some(text) => number(text, least, most),
        None => Some(default),
    }
}

// Returns whether a heap is wide if the option isn't given, 1 or 0: that of a dump is.
fn wide_default(dump: bool) -> u64
    ensures { result ≡ wide_default dump }
{
    if dump { 1 } else { 0 }
}

// Returns the settings of a task's options over a heap that is wide, or isn't, without an area, with progress shown or not, or the
// mistake in them.
fn settings_over(
    task: Task,
    options: &ArgMatches<'_>,
    wide: bool,
    quiet: bool,
) -> Result<Settings, Mistake>
    requires { wide_in (rows_of (found_of options.now)) ≡ Some wide }
    ensures { IsReadOrMistake (λ rows. settings_over task rows wide quiet)
        (rows_of (found_of options.now)) result }
{
    let regions = size_or(options, REGIONS, wide, regions_default(task, wide))?;
    let mutators = number_of(options, MUTATORS)?;
    let keep = size_or(options, KEEP, wide, keep_default(task, wide))?;
    let time = number_of(options, TIME)?;
    let ids = id_size_from(options)?;
    let questions = flag_from(options, QUESTIONS)?;
    let rolls = flag_from(options, ROLL)?;
    Ok(Settings {
        task,
        wide,
        regions,
        area: 0,
        mutators,
        keep,
        time,
        ids,
        questions,
        rolls,
        quiet,
    })
}

// Returns the size that an option is given in a heap that is wide, or isn't, `default` if it isn't given, or the mistake in it.
fn size_or(
    options: &ArgMatches<'_>,
    row: OptionRow,
    wide: bool,
    default: u64,
) -> Result<u64, Mistake>
    requires wide { wide_in (rows_of (found_of options.now)) ≡ Some wide }
    requires size { option_named row.name.now (size_options wide) ≡ Some (row_numbers_in wide row) }
    ensures { IsReadOrMistake
        (option_size row.name.now default row.least (row_numbers_in wide row).most)
        (rows_of (found_of options.now)) result }
{
    let row = in_heap(row, wide);
    match option_size(options, row.name, default, row.least, row.most) {
        Some(size) => Ok(size),
        None => Err(Mistake::Value(row)),
    }
}

// Returns the row of an option in a heap that is wide, or isn't.
fn in_heap(row: OptionRow, wide: bool) -> OptionRow
    ensures { row_numbers result ≡ row_numbers_in wide row }
{
    if wide {
        OptionRow {
            most: row.wide_most,
            ..row
        }
    } else {
        row
    }
}

// Returns the size that an option is given, `default` if it isn't given, or None if it isn't from `least` to `most`.
fn option_size(
    options: &ArgMatches<'_>,
    name: &str,
    default: u64,
    least: u64,
    most: u64,
) -> Option<u64>
    ensures { result ≡ option_size name.now default least most (rows_of (found_of options.now)) }
{
    match options.get_str(name) {
        Some(text) => size(text, least, most),
        None => Some(default),
    }
}

// Returns the size that a text writes, by digits alone or with `k` or `m` behind them, or None if it isn't from `least` to `most`
// or the text is another.
fn size(text: &str, least: u64, most: u64) -> Option<u64>
    ensures { result ≡ size_in least most text.now }
{
    if let Some(digits) = text_before(text, "k") {
        return counted(digits, 1_024, least, most);
    }
    match text_before(text, "m") {
        Some(digits) => counted(digits, 1_048_576, least, most),
        None => number(text, least, most),
    }
}

// Returns the text before a suffix, or None if the text doesn't end in it.
fn text_before<'a>(text: &'a str, suffix: &str) -> Option<&'a str>
    ensures { option_map (λ front. front.now) result ≡ text_before suffix.now text.now }
{
    text.strip_suffix(suffix)
}

// Returns `times` times the number that a text of digits alone writes, or None if that isn't from `least` to `most` or the text is
// another.
fn counted(text: &str, times: u64, least: u64, most: u64) -> Option<u64>
    requires { 0 < times }
    ensures { result ≡ counted_in least most times text.now }
{
    let number = number(text, 0, most)?;
    match number.checked_mul(times) {
        Some(size) if least <= size && size <= most => Some(size),
        Some(_) => None,
        None => None,
    }
}

// Returns the number of a task's regions if the option isn't given.
fn regions_default(task: Task, wide: bool) -> u64
    ensures { result ≡ regions_default task wide }
{
    regions_after(origin_of(task), wide)
}

// Returns the number of regions if the option isn't given: for a dump the most that there may be.
fn regions_after(origin: Origin, wide: bool) -> u64
    ensures { result ≡ regions_after origin wide }
{
    match origin {
        Origin::Fresh | Origin::Lines => 16,
        Origin::Dump | Origin::Dumps => most_regions(wide),
    }
}

// Returns the largest number of regions of a heap that is wide, or isn't.
fn most_regions(wide: bool) -> u64
    ensures { result ≡ most_regions wide }
{
    in_heap(REGIONS, wide).most
}

// Returns what is run before the session of a task.
fn origin_of(task: Task) -> Origin
    ensures { result ≡ origin_of task }
{
    match task {
        Task::Run(origin) | Task::Explore { origin, .. } | Task::Draw(origin) => origin,
        Task::Serve(service) => service.origin,
        _ => Origin::Fresh,
    }
}

// Returns how many steps of a task can be undone if the option isn't given.
fn keep_default(task: Task, wide: bool) -> u64
    ensures { result ≡ keep_default task wide }
{
    keep_after(origin_of(task), usual_keep(task, wide))
}

// Returns how many steps can be undone if the option isn't given: this many, but in the heap of a dump as many as in a heap that
// isn't wide.
fn keep_after(origin: Origin, usual: u64) -> u64
    ensures { result ≡ keep_after origin usual }
{
    match origin {
        Origin::Fresh | Origin::Lines => usual,
        Origin::Dump | Origin::Dumps => NARROW_KEEP,
    }
}

// Returns how many steps can be undone in a heap of no dump if the option isn't given: of `explore` the most that there may be.
fn usual_keep(task: Task, wide: bool) -> u64
    ensures { result ≡ usual_keep task wide }
{
    match task {
        Task::Explore { .. } => most_kept(wide),
        _ => 1024,
    }
}

// Returns the largest number of steps that can be undone in a heap that is wide, or isn't.
fn most_kept(wide: bool) -> u64
    ensures { result ≡ most_kept wide }
{
    in_heap(KEEP, wide).most
}

// Returns the size of identifiers that the options give, or the mistake in it.
fn id_size_from(options: &ArgMatches<'_>) -> Result<IdSize, Mistake>
    ensures { IsReadOrMistake id_size_in (rows_of (found_of options.now)) result }
{
    let bytes = number_of(options, IDS)?;
    match id_size(bytes) {
        Some(size) => Ok(size),
        None => Err(Mistake::Value(IDS)),
    }
}

// Returns the size of an identifier of `bytes` bytes, or None if they are neither 4 nor 8.
fn id_size(bytes: u64) -> Option<IdSize>
    ensures { result ≡ id_size_of bytes }
{
    match bytes {
        4 => Some(IdSize::Four),
        8 => Some(IdSize::Eight),
        _ => None,
    }
}

// Returns the settings with the area that the options give, or the mistake in it.
fn settings_with_area(settings: Settings, options: &ArgMatches<'_>) -> Result<Settings, Mistake>
    requires wide { wide_in (rows_of (found_of options.now)) ≡ Some settings.wide }
    requires regions { regions_in settings.task settings.wide (rows_of (found_of options.now))
        ≡ Some settings.regions }
    ensures { IsReadOrMistake (λ rows. with_area_in rows settings)
        (rows_of (found_of options.now)) result }
{
    let Settings {
        task,
        wide,
        regions,
        ..
    } = settings;
    let usual = area_default(task, wide, regions);
    match option_size(options, AREA.name, usual, 0, most_area(wide, regions)) {
        Some(area) => Ok(Settings { area, ..settings }),
        None => Err(Mistake::Rule(area_rule(wide))),
    }
}

// Returns the number of regions of the area of a task's heap if the option isn't given.
fn area_default(task: Task, wide: bool, regions: u64) -> u64
    ensures { result ≡ area_default task wide regions }
{
    area_after(origin_of(task), wide, regions)
}

// Returns the number of regions of the area if the option isn't given: for a dump in a wide heap a quarter of all.
fn area_after(origin: Origin, wide: bool, regions: u64) -> u64
    ensures { result ≡ area_after origin wide regions }
{
    match origin {
        Origin::Fresh | Origin::Lines => 0,
        Origin::Dump | Origin::Dumps => if wide { regions / 4 } else { 0 },
    }
}

// Returns the largest number of regions of the area of a heap with these regions that is wide, or isn't.
fn most_area(wide: bool, regions: u64) -> u64
    ensures { result ≡ most_area wide regions }
{
    if wide { regions.saturating_sub(1) } else { 0 }
}

// Returns what is said of an area that a heap can't have that is wide, or isn't.
fn area_rule(wide: bool) -> &'static str
    ensures { result.now ≡ area_rule wide }
{
    if wide {
        "--area takes 0 to one less than the number of --regions"
    } else {
        "--area takes 0 without --wide 1"
    }
}

// Tells whether a dump is given.
pub(crate) fn has_dump(options: &ArgMatches<'_>) -> bool
    ensures { result ≡ has_dump (rows_of (found_of options.now)) }
{
    options.get_str("hprof").is_some()
}

/// Returns the path that the words give to an option, or None if they give none or an allocation fails.
pub fn path_option<'a>(alloc: Global, words: &'a [&'a str], name: &str) -> Option<&'a str>
    ensures { IfSome result (λ path. path_of name.now (texts words.now) ≡ Some path.now) }
{
    match parse(alloc, words) {
        Ok(matches) => match matches.subcommand() {
            Some((_, options)) => options.get_str(name),
            None => None,
        },
        Err(_) => None,
    }
}

// Returns whether an option is given as 1, or the mistake in it.
pub(crate) fn flag_from(options: &ArgMatches<'_>, row: OptionRow) -> Result<bool, Mistake>
    requires flag { row_numbers row ≡ flag_numbers row.name.now }
    requires number { option_named row.name.now number_options ≡ Some (row_numbers row) }
    ensures { IsReadOrMistake (flag_in row.name.now) (rows_of (found_of options.now)) result }
{
    let number = number_of(options, row)?;
    Ok(number == 1)
}

// Returns the number that an option is given, its row's default if it isn't given, or the mistake in it.
pub(crate) fn number_of(options: &ArgMatches<'_>, row: OptionRow) -> Result<u64, Mistake>
    requires { option_named row.name.now number_options ≡ Some (row_numbers row) }
    ensures { IsReadOrMistake (value_in (row_numbers row)) (rows_of (found_of options.now)) result }
{
    number_or(options, row, row.default)
}

// Returns the number that a text of digits alone writes, or None if it isn't from `least` to `most` or the text is another.
pub(crate) fn number(text: &str, least: u64, most: u64) -> Option<u64>
    ensures { result ≡ number_in least most text.now }
{
    if !is_digits(text) {
        return None;
    }
    match text.parse::<u64>() {
        Ok(number) if least <= number && number <= most => Some(number),
        Ok(_) => None,
        Err(_) => None,
    }
}

// Tells whether each byte is a decimal digit.
fn is_digits(text: &str) -> bool
    ensures { result ≡ list_all is_ascii_digit text.now }
{
    text.bytes().all(|byte| byte.is_ascii_digit())
}
