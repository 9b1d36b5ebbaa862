//! The texts for command lines that the program refuses.
ghost use Rattle.std.specs.Prelude.{◌≡◌, IfOk, string_bytes};
ghost use Rattle.heapdbg_options.specs.CommandLine.{IsBadWith};
ghost use Rattle.heapdbg_options.specs.Numbers.{row_numbers, taken_text};
ghost use Rattle.heapdbg_options.specs.Refusals.{IsCommandWith, IsOptionWith, mistake_text, said_of, version_text};

use crate::option_rows::OptionRow;
use crate::settings::LineFault;
use std::alloc::{AllocError, Global};

// The program's version.
pub(crate) const VERSION: &str = "1.0.0";

// The hash of the logic in which the program is proved, as `rt version` prints it.
const LOGIC: &str = "dac8208d650f15bf";

// The mistake in a command line whose words are all known.
#[derive(Clone, Copy)]
pub(crate) enum Mistake {
    // There is no command of the program.
    Command,
    // An option has a value that it doesn't take. It holds the option's row, whose largest number is the one that the option takes.
    Value(OptionRow),
    // Options are given that don't go together, or options lack that others need. It holds the rule that they break.
    Rule(&'static str),
}

impl Mistake {
    // Returns the refusal of a command line with this mistake, or Memory if its text can't be allocated.
    pub(crate) fn refusal(self, alloc: Global) -> LineFault
        ensures { IsBadWith (mistake_text (said_of self)) result }
    {
        match said(alloc, self) {
            Ok(text) => LineFault::Bad(text),
            Err(_) => LineFault::Memory,
        }
    }
}

// Returns the text of a refusal for a mistake, which says what has to be given instead. Fails if an allocation fails.
fn said(alloc: Global, mistake: Mistake) -> Result<String, AllocError>
    ensures { IfOk result (λ s. string_bytes s ≡ mistake_text (said_of mistake)) }
{
    match mistake {
        Mistake::Command => mistake_text(
            alloc,
            "heapdbg takes one of run, explore, draw, save, serve, ask and fetch",
        ),
        Mistake::Value(row) => {
            let taken = taken_text(alloc, row)?;
            mistake_text(alloc, taken.as_str())
        }
        Mistake::Rule(rule) => mistake_text(alloc, rule),
    }
}

// Returns the text of a refusal that says this. Fails if an allocation fails.
fn mistake_text(alloc: Global, said: &str) -> Result<String, AllocError>
    ensures { IfOk result (λ s. string_bytes s ≡ mistake_text said.now) }
{
    format!(in alloc; "error: {said}\n\nFor more information, try 'heapdbg --help'.\n")
}

// Returns what is said of a value that a row's option doesn't take. Fails if an allocation fails.
fn taken_text(alloc: Global, row: OptionRow) -> Result<String, AllocError>
    ensures { IfOk result (λ s. string_bytes s ≡ taken_text (row_numbers row)) }
{
    let OptionRow {
        name,
        least,
        joint,
        most,
        but,
        ..
    } = row;
    format!(in alloc; "--{name} takes {least}{joint}{most}{but}")
}

// Returns the answer to `--version`, or Memory if it can't be allocated.
pub(crate) fn version_by_option(alloc: Global) -> LineFault
    ensures { IsOptionWith version_text result }
{
    match version_text(alloc) {
        Ok(text) => LineFault::OptionText(text),
        Err(_) => LineFault::Memory,
    }
}

// Returns the text of the version: the program's and the logic's hash. Fails if an allocation fails.
fn version_text(alloc: Global) -> Result<String, AllocError>
    ensures { IfOk result (λ s. string_bytes s ≡ version_text) }
{
    let version = VERSION;
    let logic = LOGIC;
    format!(in alloc; "heapdbg {version} (logic {logic})\n")
}

// Returns the answer to `version`, or Memory if it can't be allocated.
pub(crate) fn version_by_command(alloc: Global) -> LineFault
    ensures { IsCommandWith version_text result }
{
    match version_text(alloc) {
        Ok(text) => LineFault::CommandText(text),
        Err(_) => LineFault::Memory,
    }
}

/// Returns a refusal with this text, or Memory if it can't be allocated.
pub fn bad(alloc: Global, text: &str) -> LineFault
    ensures { IsBadWith text.now result }
{
    match String::from_str(alloc, text) {
        Ok(text) => LineFault::Bad(text),
        Err(_) => LineFault::Memory,
    }
}
