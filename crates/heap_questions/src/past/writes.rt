//! The writes of one slot of all objects of a class in retained steps: a walk over the records, the newest first, with a pin that
//! shows the state after each step.
ghost use Rattle.std.specs.Prelude.{◌≡◌, ◌≤◌, ◌+◌, ◌++◌, [], reverse, IfOk, IfErr, OnOk};
ghost use Rattle.heap_class.specs.declared.Refusal.TheVariants.{NoMemory};
ghost use Rattle.heap_trail.specs.Trail.{retained, rewound};
ghost use Rattle.heap_questions.specs.SlotWrites.{AreLastWrites, SeesObject, SeesOverwritten, SeesSlotOf, before_others, changing_write, overwritten, seen_object, write_by};

use crate::past::seen::past_pin;
use crate::wanted::is_of_class;
use heap_class::{ClassNo, ObjKind, ObjRef, Refusal};
use heap_pins::Pin;
use heap_step::Undo;
use heap_trail::Machine;
use heap_world::World;
use std::alloc::Global;

/// A change of a slot of some object: the place that the step led to, the id of the object, and the words before and after the
/// step.
#[derive(Clone, Copy)]
pub struct SlotWrite {
    pub place: u64,
    pub id: u64,
    pub old: u64,
    pub new: u64,
}

/// Returns the changes of a slot of all objects of a class by the last `count` steps to the state of `ago` steps ago, the oldest
/// first: also of objects that aren't there any more. The steps must be retained. A class that isn't there has none. Fails with
/// NoMemory if an allocation fails. Reads each record of these steps, and of the steps since, once.
pub fn slot_writes(
    alloc: Global,
    machine: &Machine,
    ago: u64,
    count: u64,
    class: ClassNo,
    slot: u64,
) -> Result<Vec<SlotWrite>, Refusal>
    requires { ago + count ≤ retained machine.now.trail }
    ensures writes { IfOk result
        (λ writes. AreLastWrites (rewound ago machine.now.trail) class slot count writes.items) }
    ensures refused { IfErr result (λ e. e ≡ NoMemory) }
{
    let mut writes = newest_writes(alloc, machine, ago, count, class, slot)?;
    writes.reverse();
    Ok(writes)
}

// Returns the writes of a slot of the objects of a class by the last `count` steps to the state of `ago` steps ago, the newest
// first. Fails with NoMemory.
fn newest_writes(
    alloc: Global,
    machine: &Machine,
    ago: u64,
    count: u64,
    class: ClassNo,
    slot: u64,
) -> Result<Vec<SlotWrite>, Refusal>
    requires { ago + count ≤ retained machine.now.trail }
    ensures writes { IfOk result
        (λ writes. AreLastWrites (rewound ago machine.now.trail) class slot count
        (reverse writes.items)) }
    ensures refused { IfErr result (λ e. e ≡ NoMemory) }
{
    let place = machine.place();
    let world = machine.world();
    let mut pin = past_pin(alloc, machine, ago)?;
    let mut writes = Vec::new(alloc);
    for n in 0..count {
        let left = machine.record_ago(ago + n);
        push_write(
            &mut writes,
            write_by(&pin, world, left, class, slot, place - (ago + n)),
        )?;
        pin.walk_back(world, left)?;
    }
    Ok(writes)
}

// Adds a write, if there is one. Fails with NoMemory.
fn push_write(writes: &mut Vec<SlotWrite>, write: Option<SlotWrite>) -> Result<(), Refusal>
    ensures added { OnOk result (writes.new.items ≡ writes.old.items ++ before_others write []) }
    ensures refused { IfErr result (λ e. e ≡ NoMemory) }
{
    if let Some(write) = write {
        writes.push(write)?;
    }
    Ok(())
}

// Returns the write of a slot by the step that left this record and led to `place`, if it changed an object of a class. The pin
// must show the state after the step.
fn write_by(
    pin: &Pin,
    world: &World,
    left: &Undo,
    class: ClassNo,
    slot: u64,
    place: u64,
) -> Option<SlotWrite>
    requires { SeesOverwritten pin.now world.now left.now slot }
    ensures { result ≡ write_by pin.now world.now left.now class slot place }
{
    match overwritten(left, slot) {
        Some(written) => changing_write(pin, world, written, class, slot, place),
        None => None,
    }
}

// Returns the place of the object of which the step with this record wrote the slot, and the old word, or None if the step wrote
// no such slot.
fn overwritten(left: &Undo, slot: u64) -> Option<(ObjRef, u64)>
    ensures { result ≡ overwritten left.now slot }
{
    match left {
        Undo::Put {
            at,
            slot: written,
            old,
        }
        | Undo::Store {
            at,
            slot: written,
            old,
            ..
        } => {
            if *written as u64 == slot {
                Some((*at, *old))
            } else {
                None
            }
        }
        _ => None,
    }
}

// Returns the write of a slot of an object by the step that led to `place`, if the object is one of a class and its word changed.
// The object's place and its old word are given, and a pin shows the object after the step.
fn changing_write(
    pin: &Pin,
    world: &World,
    written: (ObjRef, u64),
    class: ClassNo,
    slot: u64,
    place: u64,
) -> Option<SlotWrite>
    requires { SeesSlotOf pin.now world.now written.0 slot }
    ensures { result
        ≡ changing_write class slot place written.1 (seen_object pin.now world.now written.0) }
{
    let (at, old) = written;
    let new = words_at(pin, world, at)[slot as usize];
    if is_of_class(kind_at(pin, world, at), class) && old != new {
        let id = id_at(pin, world, at);
        Some(SlotWrite {
            place,
            id,
            old,
            new,
        })
    } else {
        None
    }
}

// Returns the id of the object at `at`, as a pin shows it.
pub(crate) fn id_at(pin: &Pin, world: &World, at: ObjRef) -> u64
    requires { SeesObject pin.now world.now at }
    ensures { result ≡ (seen_object pin.now world.now at).id }
{
    pin.id(world, at)
}

// Returns the words of the object at `at`, as a pin shows it.
pub(crate) fn words_at<'a>(pin: &'a Pin, world: &'a World, at: ObjRef) -> &'a [u64]
    requires { SeesObject pin.now world.now at }
    ensures { result.now ≡ (seen_object pin.now world.now at).words }
{
    pin.words(world, at)
}

// Returns the kind of the object at `at`, as a pin shows it.
pub(crate) fn kind_at(pin: &Pin, world: &World, at: ObjRef) -> ObjKind
    requires { SeesObject pin.now world.now at }
    ensures { result ≡ (seen_object pin.now world.now at).kind }
{
    pin.kind(world, at)
}
