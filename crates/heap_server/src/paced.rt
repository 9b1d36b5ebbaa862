//! Commands that tell a socket which replies its reader has to take within a time.
ghost use Rattle.std.specs.Prelude.{◌≡◌};

use heap_lock::{Action, Reply};
use session_text::{Commands, LineAnswer};
use std::alloc::Global;
use std::marker::Model;
use std::sync::atomic::{AtomicBool, Ordering};

/// Commands that set a word as they give a piece of a dump, and clear it as they do anything else. Contracts see the commands.
#[derive(Drop)]
pub(crate) struct Paced<'a, C: Commands + Drop> {
    commands: C,
    hurry: &'a AtomicBool,
}

impl<'a, C: Commands + Drop> Model for Paced<'a, C> {
    ghost Value = { C };

    ghost view = { λ p. p.commands };
}

impl<'a, C: Commands + Drop> Paced<'a, C> {
    /// Creates the commands that set and clear this word.
    pub(crate) fn new(commands: C, hurry: &'a AtomicBool) -> Paced<'a, C>
        ensures { result ≡ commands }
    {
        Paced { commands, hurry }
    }

    /// Gives the commands back.
    pub(crate) fn into_commands(self) -> C
        ensures { result ≡ self.entry }
    {
        self.commands
    }
}

impl<'a, C: Commands + Drop> Commands for Paced<'a, C> {
    ghost acts = { C.acts };

    ghost unknown = { C.unknown };

    fn act(&mut self, action: Action) -> Reply {
        let dumps = matches!(action, Action::NextPiece { .. });
        self.hurry.store(dumps, Ordering::SeqCst);
        self.commands.act(action)
    }

    fn answer_unknown(&mut self, alloc: Global, line: &[u8]) -> LineAnswer {
        self.hurry.store(false, Ordering::SeqCst);
        self.commands.answer_unknown(alloc, line)
    }
}
