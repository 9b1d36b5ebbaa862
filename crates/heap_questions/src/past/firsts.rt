//! The first retained state that has an object that is wanted: a walk over the records, the newest first, with a pin that shows the
//! state after each step.
ghost use Rattle.std.specs.Prelude.{◌≡◌, ◌≤◌, ◌+◌, ◌↔◌, IsTrue, IfOk, IfErr};
ghost use Rattle.heap_class.specs.declared.Refusal.TheVariants.{NoMemory};
ghost use Rattle.heap_trail.specs.Trail.{retained, rewound};
ghost use Rattle.heap_questions.specs.FirstPlaces.{HasWanted, IsFirstPlace, SeesWritten, place_if, writes_wanted};

use crate::past::seen::past_pin;
use crate::past::steps::written_at;
use crate::past::writes::{kind_at, words_at};
use crate::wanted::{Wanted, is_wanted};
use heap_class::Refusal;
use heap_pins::Pin;
use heap_step::Undo;
use heap_trail::Machine;
use heap_world::World;
use hprof_text::View;
use std::alloc::Global;

/// Returns the place of the oldest state that has an object that is wanted, of the state of `ago` steps ago and those of the
/// `count` steps before it, or None if none of them has one. They must be retained. Fails with NoMemory if an allocation fails.
/// Reads each record since the oldest of these states once, and each object of that state at most once.
pub fn first_wanted(
    alloc: Global,
    machine: &Machine,
    ago: u64,
    count: u64,
    wanted: Wanted,
) -> Result<Option<u64>, Refusal>
    requires { ago + count ≤ retained machine.now.trail }
    ensures first { IfOk result (λ first.
        IsFirstPlace (HasWanted wanted) (rewound ago machine.now.trail) count first) }
    ensures refused { IfErr result (λ e. e ≡ NoMemory) }
{
    let place = machine.place();
    let world = machine.world();
    let mut pin = past_pin(alloc, machine, ago)?;
    let mut first = None;
    for n in 0..count {
        let left = machine.record_ago(ago + n);
        let here = writes_wanted(&pin, world, left, wanted);
        first = place_if(here, place - (ago + n), first);
        pin.walk_back(world, left)?;
    }
    let oldest = has_wanted(&machine.view(&pin), wanted);
    Ok(place_if(oldest, place - (ago + count), first))
}

// Tells whether the step that left this record wrote or created an object that is wanted after the step. The pin must show the
// state after the step.
fn writes_wanted(pin: &Pin, world: &World, left: &Undo, wanted: Wanted) -> bool
    requires { SeesWritten pin.now world.now left.now }
    ensures { result ≡ writes_wanted pin.now world.now left.now wanted }
{
    match written_at(left) {
        Some(at) => is_wanted(wanted, kind_at(pin, world, at), words_at(pin, world, at)),
        None => false,
    }
}

// Tells whether a view has an object that is wanted. Reads each object at most once. Takes no memory.
fn has_wanted<V: View>(view: &V, wanted: Wanted) -> bool
    ensures { IsTrue result ↔ HasWanted wanted (V.image view.now) }
{
    // Its contract says that what the view shows is within the limits of a dump.
    let _classes = view.classes();
    let mut passed = 0usize;
    let mut here = view.first();
    while let Some(at) = here {
        if is_wanted(wanted, view.kind(at), view.words(at)) {
            return true;
        }
        passed += 1;
        here = view.next(at);
    }
    false
}

// Returns the place of a state if something holds of it, else that of a newer one.
pub(crate) fn place_if(holds: bool, place: u64, newer: Option<u64>) -> Option<u64>
    ensures { result ≡ place_if holds place newer }
{
    if holds { Some(place) } else { newer }
}
