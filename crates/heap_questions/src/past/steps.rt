//! The newest retained steps: a walk over the records, the newest first, with a pin that shows the state after each step.
ghost use Rattle.std.specs.Prelude.{◌≡◌, ◌≤◌, IfOk, IfErr};
ghost use Rattle.heap_class.specs.declared.Refusal.TheVariants.{NoMemory};
ghost use Rattle.heap_trail.specs.Trail.{retained};
ghost use Rattle.heap_questions.specs.Newest.{steps_back, written_at};

use crate::past::events::{PastEvent, event_by};
use crate::past::seen::past_pin;
use heap_class::{ObjRef, Refusal};
use heap_step::Undo;
use heap_trail::Machine;
use std::alloc::Global;

/// A retained step: the place that it led to, and what it did and wrote.
#[derive(Clone, Copy)]
pub struct PastStep {
    pub place: u64,
    pub event: PastEvent,
}

/// Returns the newest `count` of the retained steps that led to the state of `ago` steps ago, or all if there are fewer, the newest
/// first. That state must be retained. Fails with NoMemory if an allocation fails. Reads each record of the steps since, and of
/// these, once.
pub fn history(
    alloc: Global,
    machine: &Machine,
    ago: u64,
    count: u64,
) -> Result<Vec<PastStep>, Refusal>
    requires { ago ≤ retained machine.now.trail }
    ensures steps { IfOk result (λ steps. steps.items ≡ steps_back machine.now.trail ago count) }
    ensures refused { IfErr result (λ e. e ≡ NoMemory) }
{
    let place = machine.place();
    let world = machine.world();
    let mut pin = past_pin(alloc, machine, ago)?;
    let count = count.min(machine.retained_count() - ago);
    let mut steps = Vec::with_capacity(alloc, count as usize)?;
    for n in 0..count {
        let left = machine.record_ago(ago + n);
        steps.push(PastStep {
            place: place - (ago + n),
            event: event_by(&pin, world, left),
        })?;
        pin.walk_back(world, left)?;
    }
    Ok(steps)
}

// Returns the place of the object that the step with this record wrote or created, if it did.
pub(crate) fn written_at(left: &Undo) -> Option<ObjRef>
    ensures { result ≡ written_at left.now }
{
    match left {
        Undo::Put { at, .. } | Undo::Store { at, .. } | Undo::New { at, .. } => Some(*at),
        _ => None,
    }
}
