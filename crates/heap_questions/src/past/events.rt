//! What retained steps did, what they overwrote, and what they wrote.
ghost use Rattle.std.specs.Prelude.{◌≡◌, ◌<◌, length, slice_index_or};
ghost use Rattle.heap_world.specs.State.{register_index};
ghost use Rattle.heap_questions.specs.declared.past.events.PastEvent.TheVariants.{New, Put, Register, Store};
ghost use Rattle.heap_questions.specs.Newest.{SeesStep, event_by};
ghost use Rattle.heap_questions.specs.SlotWrites.{SeesObject, SeesSlotOf, seen_object};

use crate::past::writes::{id_at, kind_at, words_at};
use heap_class::{ObjKind, ObjRef};
use heap_pins::Pin;
use heap_step::Undo;
use heap_world::World;

/// What a step did, what it overwrote, and what it wrote. Objects are told by their ids.
#[derive(Clone, Copy)]
pub enum PastEvent {
    /// A value was written to a slot: its old word and its new one.
    Put {
        id: u64,
        slot: u64,
        old: u64,
        new: u64,
    },
    /// A reference was written to a slot: its old word and its new one.
    Store {
        id: u64,
        slot: u64,
        old: u64,
        new: u64,
    },
    /// Register `r` of mutator `m` was written: its old word and its new one.
    Register {
        m: u64,
        r: u64,
        old: u64,
        new: u64,
    },
    /// An object of this kind was made, and register `r` of mutator `m` was written: its old word.
    New {
        id: u64,
        m: u64,
        r: u64,
        old: u64,
        kind: ObjKind,
    },
    /// A class was defined.
    Class,
    /// A cycle was begun.
    Snap,
    /// An object was marked: its id, and the number of its children that were pushed.
    Mark {
        parent: u64,
        pushed: u64,
    },
    /// An entry of the log was drained: the number of objects that were pushed.
    Drain(u64),
    /// A cycle was ended: the number of entries of its log.
    Finish(u64),
    /// A region was swept that keeps objects: the number of objects that were removed.
    Sweep {
        region: u64,
        dead: u64,
    },
    /// A region was swept that is empty now.
    Reclaim(u64),
}

// Returns what the step with this record did and wrote. The pin must show the state after the step.
pub(crate) fn event_by(pin: &Pin, world: &World, left: &Undo) -> PastEvent
    requires { SeesStep pin.now world.now left.now }
    ensures { result ≡ event_by (seen_object pin.now world.now) pin.now.registers left.now }
{
    match left {
        Undo::Put { at, slot, old } => put_event(pin, world, *at, *slot as u64, *old),
        Undo::Store { at, slot, old, .. } => store_event(pin, world, *at, *slot as u64, *old),
        Undo::Reg { m, r, old } => register_event(pin, *m, *r, *old),
        Undo::New { at, m, r, old, .. } => new_event(pin, world, *at, (*m, *r), *old),
        Undo::Class => PastEvent::Class,
        Undo::Snap => PastEvent::Snap,
        Undo::Mark { parent, pushed } => PastEvent::Mark {
            parent: *parent,
            pushed: *pushed,
        },
        Undo::Drain { pushed } => PastEvent::Drain(*pushed),
        Undo::Finish { log } => PastEvent::Finish(log.len()),
        Undo::Sweep { region, dead } => PastEvent::Sweep {
            region: *region as u64,
            dead: dead.len(),
        },
        Undo::Reclaim { region, .. } => PastEvent::Reclaim(*region as u64),
    }
}

// Returns the writing of a value to a slot that held another word before.
fn put_event(pin: &Pin, world: &World, at: ObjRef, slot: u64, old: u64) -> PastEvent
    requires { SeesSlotOf pin.now world.now at slot }
    ensures { let o = seen_object pin.now world.now at in
        result ≡ Put o.id slot old (slice_index_or o.words slot 0) }
{
    PastEvent::Put {
        id: id_at(pin, world, at),
        slot,
        old,
        new: words_at(pin, world, at)[slot as usize],
    }
}

// Returns the writing of a reference to a slot that held another word before.
fn store_event(pin: &Pin, world: &World, at: ObjRef, slot: u64, old: u64) -> PastEvent
    requires { SeesSlotOf pin.now world.now at slot }
    ensures { let o = seen_object pin.now world.now at in
        result ≡ Store o.id slot old (slice_index_or o.words slot 0) }
{
    PastEvent::Store {
        id: id_at(pin, world, at),
        slot,
        old,
        new: words_at(pin, world, at)[slot as usize],
    }
}

// Returns the writing of a register that held another word before.
fn register_event(pin: &Pin, m: u8, r: u8, old: u64) -> PastEvent
    requires { register_index m r < length pin.now.registers }
    ensures { result ≡ Register m r old (slice_index_or pin.now.registers (register_index m r) 0) }
{
    PastEvent::Register {
        m: m as u64,
        r: r as u64,
        old,
        new: pin.registers()[8 * m as usize + r as usize],
    }
}

// Returns the making of an object, which a register names that held another word before.
fn new_event(pin: &Pin, world: &World, at: ObjRef, register: (u8, u8), old: u64) -> PastEvent
    requires { SeesObject pin.now world.now at }
    ensures { let o = seen_object pin.now world.now at in
        result ≡ New o.id register.0 register.1 old o.kind }
{
    PastEvent::New {
        id: id_at(pin, world, at),
        m: register.0 as u64,
        r: register.1 as u64,
        old,
        kind: kind_at(pin, world, at),
    }
}
