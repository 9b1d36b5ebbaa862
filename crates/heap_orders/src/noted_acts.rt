//! Acts of a machine, which are noted among the steps that can be taken again.
ghost use Rattle.std.specs.Prelude.{◌≡◌};
ghost use Rattle.heap_trail.specs.declared.Action.TheVariants.{Step};
ghost use Rattle.session_text.specs.Local.{LocalActs};
ghost use Rattle.session_text.specs.Replies.{line_answer_text};
ghost use Rattle.heap_orders.specs.Deeds.{ActsOnce, RewindsTo};
ghost use Rattle.heap_orders.specs.Redos.{noted};

use crate::redo::Redo;
use heap_step::Event;
use heap_trail::{Action, Machine, Reply};
use question_words::steps_ago;
use session_text::LineAnswer;

/// Rewinds a machine to the state at a place. Refused with NotRetained if this state isn't retained. Takes no memory.
pub fn rewind_to(machine: &mut Machine, redo: &mut Redo, place: u64) -> LineAnswer
    ensures { RewindsTo place machine.old redo.old (line_answer_text result) machine.new redo.new }
{
    match steps_ago(machine, Some(place)) {
        Ok(count) => LineAnswer::Known(act_and_note(machine, redo, Action::Rewind(count))),
        Err(refusal) => LineAnswer::Known(Reply::Refused(refusal)),
    }
}

// Has a machine act, notes that, and returns the reply.
fn act_and_note(machine: &mut Machine, redo: &mut Redo, action: Action) -> Reply
    ensures acts { LocalActs machine.old action result machine.new }
    ensures noted { redo.new ≡ noted action result redo.old }
{
    let reply = machine.act(&action);
    redo.note(action, &reply);
    reply
}

/// Has a machine take a step, and returns the answer.
pub fn take_step(machine: &mut Machine, redo: &mut Redo, event: Event) -> LineAnswer
    ensures { ActsOnce (Step event) machine.old redo.old (line_answer_text result) machine.new
        redo.new }
{
    LineAnswer::Known(act_and_note(machine, redo, Action::Step(event)))
}
