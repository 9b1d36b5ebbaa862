//! What a command line asks for.
ghost use Rattle.std.specs.Prelude.{◌≡◌, ◌&&◌, not};

use heapdbg_options::settings::Settings;

/// The settings that a command line asks for, and the paths that it names.
#[derive(Clone, Copy)]
pub struct Request<'a> {
    /// The settings.
    pub settings: Settings,
    /// The path of the file that the task makes. None if it makes none, or if an allocation failed.
    pub path: Option<&'a str>,
    /// The path of the file of which lines are run first: its own, or those of the session of the dump in it. None if there is
    /// none, or if an allocation failed.
    pub first: Option<&'a str>,
    /// The path of the second of two dumps. None if there is none, or if an allocation failed.
    pub second: Option<&'a str>,
    /// The path of the file of the secret. None if the command line names none, or if an allocation failed.
    pub secret: Option<&'a str>,
}

impl Request<'_> {
    /// Tells whether progress is shown on standard error, where that is a terminal or isn't.
    pub fn shows_progress(&self, is_terminal: bool) -> bool
        ensures { result ≡ (is_terminal && not self.now.settings.quiet) }
    {
        is_terminal && !self.settings.quiet
    }
}
