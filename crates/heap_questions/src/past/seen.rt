//! What slots held in a retained state, as a pin on it shows them.
ghost use Rattle.std.specs.Prelude.{◌≡◌, ◌≤◌, IsSome, IfSome, IfOk, IfErr};
ghost use Rattle.heap_class.specs.declared.Refusal.TheVariants.{NoMemory};
ghost use Rattle.heap_region.specs.Regions.{object_at};
ghost use Rattle.heap_world.specs.State.{HeapState};
ghost use Rattle.heap_trail.specs.Trail.{retained};
ghost use Rattle.heap_questions.specs.PastTrails.{IsPinAgo, IsShownBeside, seen_slot};

use crate::references::is_reference_slot;
use heap_class::{ObjKind, ObjRef, Refusal};
use heap_pins::Pin;
use heap_trail::Machine;
use heap_world::World;
use std::alloc::Global;

/// What a slot holds: its word, and whether that is a reference.
#[derive(Clone, Copy)]
pub struct SeenSlot {
    pub word: u64,
    pub refers: bool,
}

// Returns a pin on the state of `ago` steps ago, beside the current one. Fails with NoMemory.
pub(crate) fn past_pin(alloc: Global, machine: &Machine, ago: u64) -> Result<Pin, Refusal>
    requires { ago ≤ retained machine.now.trail }
    ensures shown { IfOk result (λ p. IsPinAgo p machine.now.trail ago) }
    ensures refused { IfErr result (λ e. e ≡ NoMemory) }
{
    // Its contract says that each retained state came from the one before it.
    let _place = machine.place();
    let world = machine.world();
    let mut pin = Pin::open(alloc, world)?;
    for n in 0..ago {
        pin.walk_back(world, machine.record_ago(n))?;
    }
    Ok(pin)
}

// Returns what a slot of the object at `at` holds in the state that a pin shows, or None if the object has no such slot.
pub(crate) fn slot_of(pin: &Pin, world: &World, at: ObjRef, slot: u64) -> Option<SeenSlot>
    requires { (w : HeapState)
        × IsShownBeside world.now pin.now w × IsSome (object_at w.regions at) }
    ensures { (w : HeapState) → IsShownBeside world.now pin.now w → IsSome (object_at w.regions at)
        → result ≡ seen_slot w at slot }
{
    let words = pin.words(world, at);
    let count = words.len() as u64;
    if slot >= count {
        return None;
    }
    let classes = world.classes().first(pin.classes());
    let refers = is_reference_slot(&classes, pin.kind(world, at), count, slot);
    Some(SeenSlot {
        word: words[slot as usize],
        refers,
    })
}

// Returns the kind of the object at `at` in the state that a pin shows.
pub(crate) fn kind_of(pin: &Pin, world: &World, at: ObjRef) -> ObjKind
    requires { (w : HeapState)
        × IsShownBeside world.now pin.now w × IsSome (object_at w.regions at) }
    ensures { (w : HeapState) → IsShownBeside world.now pin.now w → IsSome (object_at w.regions at)
        → IfSome (object_at w.regions at) (λ o. result ≡ o.kind) }
{
    pin.kind(world, at)
}

/// Returns what a slot of the object at `at` holds in the current state, or None if the object has no such slot. Takes no memory.
pub fn slot_now(machine: &Machine, at: ObjRef, slot: u64) -> Option<SeenSlot>
    requires { IsSome (object_at machine.now.trail.current.regions at) }
    ensures { result ≡ seen_slot machine.now.trail.current at slot }
{
    let world = machine.world();
    let regions = world.regions();
    let count = regions.len(at);
    if slot >= count {
        return None;
    }
    let classes = world.classes().all();
    let refers = is_reference_slot(&classes, regions.kind(at), count, slot);
    Some(SeenSlot {
        word: regions.word(at, slot),
        refers,
    })
}
