//! The events, their answers, and the records by which each is undone.
#![tactic(auto)]

ghost use Rattle.std.specs.Prelude.{◌≡◌, ℕ, None};
ghost use Rattle.heap_world.specs.State.{HeapState};
ghost use Rattle.heap_world.specs.Legal.{IsLegal};
ghost use Rattle.heap_step.specs.declared.Event.{Event};
ghost use Rattle.heap_step.specs.Apply.{refusal_of, state_after};
ghost use Rattle.heap_step.specs.Laws.{FindsReached, FinishSpares, IdsFit, IsRestored, KeepsLegal, StaysFound, SweepSpares};

mod events;
mod sorts;
pub mod step;

pub use events::AnyEvent;
use heap_class::{ClassNo, Fields, Kind, Name, ObjRef, Refusal};
use heap_mark::CycleLog;
use heap_region::Storage;
use heap_sweep::DeadCells;
pub use sorts::{
    ApplyEvent, ClearEvent, IntoEvent, LoadEvent, MarkEvent, MoveEvent, NewEvent, PutEvent,
    StoreEvent,
};
use std::mem::size_of;
pub use step::{apply, apply_sort, weight};

/// An event: one step that is asked for. Numbers of mutators, registers, classes and slots may be any 64-bit numbers.
#[derive(Drop)]
pub enum Event {
    /// Defines an instance class.
    Class {
        name: Name,
        sup: Option<ClassNo>,
        fields: Fields,
    },
    /// Defines a class of object arrays.
    ArrayClass {
        name: Name,
    },
    /// Makes an instance of a class in register `r` of mutator `m`.
    New {
        m: u64,
        r: u64,
        class: ClassNo,
    },
    /// Makes an object array of a class in register `r` of mutator `m`.
    NewArray {
        m: u64,
        r: u64,
        class: ClassNo,
        len: u64,
    },
    /// Makes an array of values of a kind in register `r` of mutator `m`.
    NewPrim {
        m: u64,
        r: u64,
        kind: Kind,
        len: u64,
    },
    /// Reads a slot of the object in register `from`. A reference goes to register `to`.
    Load {
        m: u64,
        to: u64,
        from: u64,
        slot: u64,
    },
    /// Writes the word of register `source` to a reference slot of the object in register `target`.
    Store {
        m: u64,
        target: u64,
        slot: u64,
        source: u64,
    },
    /// Writes a value slot of the object in register `target`.
    Put {
        m: u64,
        target: u64,
        slot: u64,
        value: u64,
    },
    /// Copies register `from` of mutator `from_m` to register `to` of mutator `m`.
    Move {
        m: u64,
        to: u64,
        from_m: u64,
        from: u64,
    },
    /// Makes register `r` of mutator `m` null.
    Clear {
        m: u64,
        r: u64,
    },
    /// Begins a marking cycle with the objects that the registers name.
    Snap,
    /// Marks the unmarked children of the newest gray object.
    Mark,
    /// Marks the object that the next entry of the log names.
    Drain,
    /// Ends the cycle: objects that aren't marked are no longer live.
    Finish,
    /// Removes the objects of a region that aren't live.
    Sweep {
        region: u64,
    },
}

/// The answer of an accepted event.
#[derive(Clone, Copy, PartialEq, Eq, Debug)]
pub enum Answer {
    /// The number of the new class.
    Class(u64),
    /// The id of an object.
    Object(u64),
    /// The null reference.
    Null,
    /// The value of a slot.
    Value(u64),
    /// Nothing but that it is done.
    Done,
    /// The number of objects that were marked and pushed on the gray stack.
    Pushed(u64),
    /// The number of objects of the heap that aren't live.
    Condemned(u64),
    /// The number of objects that were removed, and whether that left the region empty.
    Swept { emptied: bool, dead: u64 },
}

// With the flag behind the number it would be half as large again.
const _: () = prove!(size_of::<Answer>() <= 16);

/// The record of an accepted event, by which it is undone.
#[derive(Drop)]
pub enum Undo {
    /// A value was written: the place of the object, the slot, and its old word.
    Put {
        at: ObjRef,
        slot: u32,
        old: u64,
    },
    /// A reference was written: the place of the object, the slot, its old word, and whether that was logged.
    Store {
        at: ObjRef,
        slot: u32,
        old: u64,
        logged: bool,
    },
    /// Register `r` of mutator `m` was written: its old word.
    Reg {
        m: u8,
        r: u8,
        old: u64,
    },
    /// An object was made: its place, whether its region was taken from the pool, and register `r` of mutator `m` with its old
    /// word.
    New {
        at: ObjRef,
        fresh: bool,
        m: u8,
        r: u8,
        old: u64,
    },
    /// A class was defined.
    Class,
    /// A cycle was begun.
    Snap,
    /// An object was marked: its id, and the number of its children that were pushed.
    Mark {
        parent: u64,
        pushed: u64,
    },
    /// An entry of the log was drained: the number of objects that were pushed, 0 or 1.
    Drain {
        pushed: u64,
    },
    /// A cycle was ended: its log.
    Finish {
        log: CycleLog,
    },
    /// A region was swept that keeps objects: its dead objects.
    Sweep {
        region: u16,
        dead: DeadCells,
    },
    /// A region was swept that is empty now: its storage.
    Reclaim {
        region: u16,
        storage: Storage,
    },
}

// The ring has one for each step that can be undone.
const _: () = prove!(size_of::<Undo>() <= 32);

/// The effect of an event: its answer and its record, or why it was refused.
pub type Effect = Result<(Answer, Undo), Refusal>;

/// States that each event that a legal heap accepts keeps it legal.
pub fn keeps_legal()
    ensures { (e : Event) (w : HeapState) → KeepsLegal e w }
{}

/// States that the record of each event that a legal heap accepts undoes it.
pub fn undo_restores()
    ensures { (e : Event) (w : HeapState) → IsRestored e w }
{}

/// States that while a cycle runs each accepted event of a legal heap keeps the marked and sheltered objects marked or
/// sheltered.
pub fn stays_found()
    ensures { (e : Event) (w : HeapState) → IsLegal w → refusal_of e w ≡ None
        → StaysFound w (state_after e w) }
{}

/// States that while a cycle runs in a legal heap each object that the registers reach is marked or sheltered.
pub fn finds_reached()
    ensures { (w : HeapState) → FindsReached w }
{}

/// States that a sweep of a legal heap leaves each object that the registers reach.
pub fn sweep_spares()
    ensures { (region : ℕ) (w : HeapState) → SweepSpares region w }
{}

/// States that after a finish of a legal heap each object that the registers reach is live.
pub fn finish_spares()
    ensures { (w : HeapState) → FinishSpares w }
{}

/// States that in a legal heap the ids of objects, the registers, the references and the entries of gray stack and log are
/// below 2^32.
pub fn ids_fit()
    ensures { (w : HeapState) → IsLegal w → IdsFit w }
{}
