//! Lines in memory, each of which asks for an event.
ghost use Rattle.std.specs.Prelude.{◌≡◌, ◌++◌, [], OnOk, OnErr};
ghost use Rattle.session_lines.specs.EventLines.{line_of};
ghost use Rattle.session_lines.specs.Laws.{HasLine};
ghost use Rattle.session_lines.specs.Lines.{AreLines};

use crate::event_lines::push_event;
use heap_step::Event;
use std::alloc::{AllocError, Global};
use std::marker::Model;

/// Lines, each of which is read as an event. Contracts see their bytes.
#[derive(Drop)]
pub struct Lines {
    text: Vec<u8>,
}

impl Model for Lines {
    ghost use Rattle.std.specs.Prelude.{ℕ, List};
    ghost use Rattle.session_lines.specs.Lines.{AreLines};

    ghost Value = { List ℕ };

    ghost view = { λ l. l.text.items };

    ghost invariant = { λ l. AreLines l.text.items };
}

#[tactic(auto, using(crate::proofs::MoreLines::no_lines))]
impl Lines {
    /// Creates no lines.
    pub fn new(alloc: Global) -> Lines
        ensures { result ≡ [] }
    {
        Lines {
            text: Vec::new(alloc),
        }
    }

    /// Returns the bytes of the lines.
    pub fn as_slice(&self) -> &[u8]
        ensures { result.now ≡ self.now }
    {
        self.text.as_slice()
    }

    /// Drops all lines.
    pub fn clear(&mut self)
        ensures { self.new ≡ [] }
    {
        self.text.clear();
    }

    /// Appends the line of an event. Fails if an allocation fails; then all lines are dropped.
    pub fn push(&mut self, event: &Event) -> Result<(), AllocError>
        requires { HasLine event.now }
        ensures done { OnOk result (self.new ≡ self.old ++ line_of event.now) }
        ensures failed { OnErr result (self.new ≡ []) }
    {
        match push_event(&mut self.text, event) {
            Ok(()) => Ok(()),
            Err(e) => {
                self.text.clear();
                Err(e)
            }
        }
    }

    /// States what the lines ask for: they are the lines of some events, each of which is read as that event.
    pub fn are_read(&self)
        ensures { AreLines self.now }
    {
        let _text = &self.text;
    }
}
