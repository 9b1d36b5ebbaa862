//! The deed and the answer that numbers tell.
#![tactic(auto, unfolding(crate::specs::Packs::action_in, crate::specs::Packs::outcome_in, crate::specs::Details::cause_from, crate::specs::Details::refusal_from))]

ghost use Rattle.std.specs.Prelude.{◌≡◌};
ghost use Rattle.heap_step.specs.declared.Answer.TheVariants.{Swept};
ghost use Rattle.heap_step.specs.declared.Event.TheVariants.{NewArray, NewPrim, Load, Store, Put, Move};
ghost use Rattle.heap_trail.specs.declared.Action.TheVariants.{Step};
ghost use Rattle.heap_history.specs.declared.entry.Outcome.TheVariants.{Answered as Said};
ghost use Rattle.heap_history.specs.Details.{cause_from, refusal_from};
ghost use Rattle.heap_history.specs.Packs.{action_in, outcome_in};

use crate::entry::Outcome;
use crate::pack::{Deed, Told};
use heap_class::{ClassNo, Kind, LostCause, Refusal};
use heap_step::{Answer, Event};
use heap_trail::Action;

/// Returns the deed of this sort with these numbers. Takes no memory.
pub fn action_in(deed: Deed, kind: Kind, first: u64, second: u64, third: u64, fourth: u64) -> Action
    ensures { result ≡ action_in deed kind first second third fourth }
{
    match deed {
        Deed::New => Action::Step(Event::New {
            m: first,
            r: second,
            class: third,
        }),
        Deed::NewArray => new_array(first, second, third, fourth),
        Deed::NewPrim => new_prim(first, second, kind, third),
        Deed::Load => load(first, second, third, fourth),
        Deed::Store => store(first, second, third, fourth),
        Deed::Put => put(first, second, third, fourth),
        Deed::Move => copy(first, second, third, fourth),
        Deed::Clear => Action::Step(Event::Clear {
            m: first,
            r: second,
        }),
        Deed::Snap => Action::Step(Event::Snap),
        Deed::Mark => Action::Step(Event::Mark),
        Deed::Drain => Action::Step(Event::Drain),
        Deed::Finish => Action::Step(Event::Finish),
        Deed::Sweep => Action::Step(Event::Sweep { region: first }),
        Deed::Rewind => Action::Rewind(first),
    }
}

// Returns the action that makes an object array.
fn new_array(m: u64, r: u64, class: ClassNo, len: u64) -> Action
    ensures { result ≡ Step (NewArray m r class len) }
{
    Action::Step(Event::NewArray { m, r, class, len })
}

// Returns the action that makes an array of values.
fn new_prim(m: u64, r: u64, kind: Kind, len: u64) -> Action
    ensures { result ≡ Step (NewPrim m r kind len) }
{
    Action::Step(Event::NewPrim { m, r, kind, len })
}

// Returns the action that reads a slot.
fn load(m: u64, to: u64, from: u64, slot: u64) -> Action
    ensures { result ≡ Step (Load m to from slot) }
{
    Action::Step(Event::Load { m, to, from, slot })
}

// Returns the action that writes a reference slot.
fn store(m: u64, target: u64, slot: u64, source: u64) -> Action
    ensures { result ≡ Step (Store m target slot source) }
{
    Action::Step(Event::Store {
        m,
        target,
        slot,
        source,
    })
}

// Returns the action that writes a value slot.
fn put(m: u64, target: u64, slot: u64, value: u64) -> Action
    ensures { result ≡ Step (Put m target slot value) }
{
    Action::Step(Event::Put {
        m,
        target,
        slot,
        value,
    })
}

// Returns the action that copies a register.
fn copy(m: u64, to: u64, from_m: u64, from: u64) -> Action
    ensures { result ≡ Step (Move m to from_m from) }
{
    Action::Step(Event::Move {
        m,
        to,
        from_m,
        from,
    })
}

/// Returns the answer of this sort with these numbers.
pub(crate) fn outcome_in(told: Told, reason: u8, first: u64, second: u64) -> Outcome
    ensures { result ≡ outcome_in told reason first second }
{
    match told {
        Told::Class => Outcome::Answered(Answer::Class(first)),
        Told::Object => Outcome::Answered(Answer::Object(first)),
        Told::Null => Outcome::Answered(Answer::Null),
        Told::Value => Outcome::Answered(Answer::Value(first)),
        Told::Done => Outcome::Answered(Answer::Done),
        Told::Pushed => Outcome::Answered(Answer::Pushed(first)),
        Told::Condemned => Outcome::Answered(Answer::Condemned(first)),
        Told::Swept => swept(first, false),
        Told::Emptied => swept(first, true),
        Told::Place => Outcome::Place(first),
        Told::Refused => Outcome::Refused(refusal_from(reason, first, 0)),
        Told::RefusedInFull => Outcome::Refused(refusal_from(reason, first, second)),
    }
}

// Returns the answer of a sweep.
fn swept(dead: u64, emptied: bool) -> Outcome
    ensures { result ≡ Said (Swept emptied dead) }
{
    Outcome::Answered(Answer::Swept { dead, emptied })
}

// Returns the refusal of this number with these details.
fn refusal_from(number: u8, first: u64, second: u64) -> Refusal
    ensures { result ≡ refusal_from number first second }
{
    match number {
        1 => Refusal::NoMemory,
        2 => Refusal::NoClass,
        3 => Refusal::ClassLimit,
        4 => Refusal::BadName,
        5 => Refusal::DuplicateName,
        6 => Refusal::FieldLimit,
        7 => Refusal::BadRegister,
        8 => Refusal::NullRegister,
        9 => Refusal::BadSlot,
        10 => Refusal::WrongKind,
        11 => Refusal::OutOfRange,
        12 => Refusal::TooLarge,
        13 => Refusal::HeapFull,
        14 => Refusal::AlreadyMarking,
        15 => Refusal::NotMarking,
        16 => Refusal::NothingToMark,
        17 => Refusal::NothingToDrain,
        18 => Refusal::NotDone {
            gray: first,
            undrained: second,
        },
        19 => Refusal::SweepPending { region: first },
        20 => Refusal::NothingToSweep { region: first },
        21 => Refusal::TooFar {
            asked: first,
            retained: second,
        },
        22 => Refusal::NoPin,
        23 => Refusal::Lost {
            cause: cause_from(first),
        },
        24 => Refusal::NotRetained,
        25 => Refusal::PinLimit,
        _ => Refusal::ChronicleFull,
    }
}

// Returns the cause of this number.
fn cause_from(number: u64) -> LostCause
    ensures { result ≡ cause_from number }
{
    match number {
        0 => LostCause::Rewound,
        1 => LostCause::Memory,
        _ => LostCause::Closed,
    }
}
