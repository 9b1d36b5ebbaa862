//! Entries in records of a fixed size.
use crate::definition::Definition;
use heap_class::{ClassNo, Kind};
use std::mem::size_of;

/// The sort of a deed that is told by at most four numbers and a kind.
#[derive(Clone, Copy)]
pub enum Deed {
    /// A mutator, a register and a class.
    New,
    /// A mutator, a register, an array class and a length.
    NewArray,
    /// A mutator, a register, a kind and a length.
    NewPrim,
    /// A mutator, two registers and a slot.
    Load,
    /// A mutator, a register, a slot and the register whose word is stored.
    Store,
    /// A mutator, a register, a slot and a value.
    Put,
    /// A mutator, a register, and the mutator and register that it is copied from.
    Move,
    /// A mutator and a register.
    Clear,
    /// The beginning of a cycle.
    Snap,
    /// A mark of the object on top of the gray stack.
    Mark,
    /// A look at an entry of the log.
    Drain,
    /// The end of marking.
    Finish,
    /// A region.
    Sweep,
    /// A number of steps.
    Rewind,
}

/// The sort of an answer.
#[derive(Clone, Copy)]
pub enum Told {
    /// The number of a class.
    Class,
    /// The id of an object.
    Object,
    /// A load of null.
    Null,
    /// A value that was loaded.
    Value,
    /// No number.
    Done,
    /// How many objects were pushed.
    Pushed,
    /// How many objects were condemned.
    Condemned,
    /// A sweep that left objects in its region.
    Swept,
    /// A sweep that left its region empty.
    Emptied,
    /// The place after a rewind.
    Place,
    /// A refusal with at most one number.
    Refused,
    /// A refusal with two numbers.
    RefusedInFull,
}

/// A deed by its sort, its kind if it has one, and its numbers; the others are 0.
#[derive(Clone, Copy)]
pub struct DeedPack {
    pub deed: Deed,
    pub kind: Kind,
    pub first: u64,
    pub second: u64,
    pub third: u64,
    pub fourth: u64,
}

/// An answer by its sort, the number of its refusal if it is one, and its numbers; the others may be any.
#[derive(Clone, Copy)]
pub struct AnswerPack {
    pub told: Told,
    pub reason: u8,
    pub first: u64,
    pub second: u64,
}

/// What a pack tells of its entry.
#[derive(Clone, Copy)]
pub enum Form {
    /// Its numbers.
    Numbers,
    /// The place of its long pack.
    Long,
    /// Nothing: the entry isn't kept.
    Nothing,
}

/// An entry by its numbers or by the place of its long pack, or instead of one that isn't kept.
#[derive(Clone, Copy)]
pub struct Pack {
    /// The deed's first number, or the place of the long pack.
    pub first: u64,
    pub second: u64,
    pub third: u64,
    /// The deed's fourth number, or the answer's second one.
    pub fourth: u64,
    /// The answer's first number.
    pub told_first: u64,
    pub seat: u16,
    pub form: Form,
    pub deed: Deed,
    pub kind: Kind,
    pub told: Told,
    /// The number of the refusal, if the answer is one.
    pub reason: u8,
}

/// A deed by its numbers, or the class that it defines.
#[derive(Clone, Copy)]
pub enum LongDeed {
    /// No definition.
    Numbers(DeedPack),
    /// A definition of an instance class.
    Class {
        sup: Option<ClassNo>,
        definition: Definition,
    },
    /// A definition of an array class, which has no fields.
    ArrayClass(Definition),
}

/// An entry that has no room in a pack.
#[derive(Clone, Copy)]
pub struct LongPack {
    pub seat: u64,
    pub deed: LongDeed,
    pub answer: AnswerPack,
}

// The chronicle has a pack for each act, and a long one for some.
const _: () = prove!(size_of::<Pack>() <= 48);

const _: () = prove!(size_of::<LongPack>() <= 176);
