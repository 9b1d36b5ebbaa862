//! Commands: the performers of a session's actions.
ghost use Rattle.std.specs.Prelude.{◌≡◌};
ghost use Rattle.session_text.specs.Local.{own_closed};

use heap_step::IntoEvent;
use heap_trail::{Action, Machine, Reply};
use std::alloc::Global;

/// The answer of a line that the grammar doesn't know.
#[derive(Drop)]
pub enum LineAnswer {
    /// `bad command`.
    BadCommand,
    /// What this reply prints.
    Known(Reply),
    /// A fixed line with its LF.
    Line(&'static [u8]),
    /// Fixed words, a space, this number and LF.
    Number(&'static [u8], u64),
    /// Lines, each with its LF.
    Text(Vec<u8>),
}

/// A performer of the actions of a session. Contracts see what an action may answer and leave.
pub trait Commands {
    ghost use Rattle.heap_trail.specs.declared.Action.{Action};
    ghost use Rattle.heap_trail.specs.declared.Action.TheVariants.{Step};
    ghost use Rattle.heap_trail.specs.declared.Reply.{Reply};
    ghost use Rattle.std.specs.Prelude.{ℕ, List};
    ghost use Rattle.heap_trail.specs.Machine.{IsSmall};
    ghost use Rattle.session_text.specs.Replies.{line_answer_text};

    ghost acts: { Self → Action → Reply → Self → Type 0 };

    ghost unknown: { List ℕ → Self → List ℕ → Self → Type 0 };

    /// Does an action and returns its reply. A piece has at most 2^27 bytes.
    fn act(&mut self, action: Action) -> Reply
        ensures acts { acts self.old action result self.new }
        ensures small { IsSmall result };

    /// Takes a step and returns its reply, as `act` does.
    fn step<E: IntoEvent>(&mut self, event: E) -> Reply
        ensures acts { acts self.old (Step (E.event event)) result self.new }
        ensures small { IsSmall result }
    {
        self.act(Action::Step(event.into_event()))
    }

    /// Answers a line that the grammar doesn't know.
    fn answer_unknown(&mut self, alloc: Global, line: &[u8]) -> LineAnswer
        ensures { unknown line.now self.old (line_answer_text result) self.new };
}

/// A private machine, which acts on the lines of a session. No action changes `first_pin`.
#[derive(Drop)]
pub struct Local {
    /// The machine.
    pub machine: Machine,
    /// The first number that a pin opened through these commands can have.
    pub first_pin: u64,
}

impl Local {
    /// Creates the commands of a machine. Pins that are open already do not count as opened through them. Takes no memory.
    pub fn new(machine: Machine) -> Local
        ensures { result ≡ record { machine = machine; first_pin = machine.pins.next } }
    {
        let first_pin = machine.next_pin();
        Local { machine, first_pin }
    }

    /// Closes each pin that was opened through these commands and is not closed, lost or not. Takes no memory.
    pub fn close_all(&mut self)
        ensures { self.new
            ≡ record self.old { machine = own_closed self.old.first_pin self.old.machine } }
    {
        self.machine.close_from(self.first_pin);
    }
}

impl Commands for Local {
    ghost use Rattle.std.specs.Prelude.{◌≡◌};
    ghost use Rattle.session_text.specs.Local.{LocalActs};
    ghost use Rattle.session_text.specs.Answers.{all_bad};

    ghost acts = { λ c a r d. LocalActs c.machine a r d.machine × (d.first_pin ≡ c.first_pin) };

    ghost unknown = { all_bad };

    #[inline(always)]
    fn act(&mut self, action: Action) -> Reply {
        self.machine.act(&action)
    }

    #[inline(always)]
    fn step<E: IntoEvent>(&mut self, event: E) -> Reply {
        self.machine.reply_to(&event)
    }

    fn answer_unknown(&mut self, _alloc: Global, _line: &[u8]) -> LineAnswer {
        LineAnswer::BadCommand
    }
}
