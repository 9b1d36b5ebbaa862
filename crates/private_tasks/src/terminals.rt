//! What a person sees of a task while it runs.
use heap_console::Console;

/// The standard streams of the program that are terminals.
#[derive(Clone, Copy)]
pub struct Terminals {
    /// Standard input.
    pub input: bool,
    /// Standard output.
    pub output: bool,
    /// Standard error.
    pub error: bool,
}

/// The means to show a person how a task goes on.
#[derive(Clone, Copy)]
pub struct Screen<'a> {
    /// Whether standard error is a terminal.
    pub is_terminal: bool,
    /// What the prompt and the columns of a session with questions share.
    pub console: &'a Console,
}
