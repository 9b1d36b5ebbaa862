//! Equality of events, actions and answers.
ghost use Rattle.std.specs.Prelude.{◌≡◌, ◌↔◌, IsTrue, None};
ghost use Rattle.heap_step.specs.declared.Event.{Event};
ghost use Rattle.heap_history.specs.Details.{details_of};
ghost use Rattle.heap_history.specs.Packs.{event_pack};

use crate::entry::Outcome;
use crate::pack::{Deed, DeedPack};
use crate::packing::pack_event;
use heap_class::{ClassNo, Fields, Kind, LostCause, Name, Refusal};
use heap_step::{Answer, Event};
use heap_trail::Action;

// Returns whether two kinds are equal.
pub(crate) fn is_same_kind(a: Kind, b: Kind) -> bool
    ensures { IsTrue result ↔ (a ≡ b) }
{
    a == b
}

/// Returns whether two events are equal.
pub(crate) fn is_same_event(a: &Event, b: &Event) -> bool
    ensures { IsTrue result ↔ (a.now ≡ b.now) }
{
    match pack_event(a) {
        Some(one) => match pack_event(b) {
            Some(other) => is_same_deed(one, other),
            None => false,
        },
        None => is_same_definition(a, b),
    }
}

// Returns whether two deeds have the same sort, kind and numbers.
fn is_same_deed(a: DeedPack, b: DeedPack) -> bool
    ensures { IsTrue result ↔ (a ≡ b) }
{
    is_same_sort(a.deed, b.deed)
        && is_same_kind(a.kind, b.kind)
        && a.first == b.first
        && a.second == b.second
        && a.third == b.third
        && a.fourth == b.fourth
}

// Returns whether two sorts of deeds are equal.
fn is_same_sort(a: Deed, b: Deed) -> bool
    ensures { IsTrue result ↔ (a ≡ b) }
{
    a == b
}

// Returns whether two events that have lists are equal.
fn is_same_definition(a: &Event, b: &Event) -> bool
    requires { event_pack a.now ≡ None }
    ensures { IsTrue result ↔ (a.now ≡ b.now) }
{
    match a {
        Event::Class { name, sup, fields } => is_class(b, name, *sup, fields),
        Event::ArrayClass { name } => is_array_class(b, name),
        _ => unreachable!(),
    }
}

// Returns whether the event is a definition of this class.
fn is_class(other: &Event, name: &Name, sup: Option<ClassNo>, fields: &Fields) -> bool
    ensures { IsTrue result ↔ (other.now ≡ Event.Class name.now sup fields.now) }
{
    match other {
        Event::Class {
            name: its_name,
            sup: its_sup,
            fields: its_fields,
        } => is_same_name(its_name, name) && *its_sup == sup && are_same_fields(its_fields, fields),
        _ => false,
    }
}

// Returns whether two names are equal.
#[tactic(auto, using(crate::proofs::Fields::names_decide))]
fn is_same_name(a: &Name, b: &Name) -> bool
    ensures { IsTrue result ↔ (a.now ≡ b.now) }
{
    *a == *b
}

// Returns whether two lists of fields are equal.
#[tactic(auto, using(crate::proofs::Fields::fields_decide))]
fn are_same_fields(a: &Fields, b: &Fields) -> bool
    ensures { IsTrue result ↔ (a.now ≡ b.now) }
{
    *a == *b
}

// Returns whether the event is a definition of this array class.
fn is_array_class(other: &Event, name: &Name) -> bool
    ensures { IsTrue result ↔ (other.now ≡ Event.ArrayClass name.now) }
{
    match other {
        Event::ArrayClass { name: its_name } => is_same_name(its_name, name),
        _ => false,
    }
}

/// Returns whether two actions are equal.
pub(crate) fn is_same_action(a: &Action, b: &Action) -> bool
    ensures { IsTrue result ↔ (a.now ≡ b.now) }
{
    match a {
        Action::Step(event) => match b {
            Action::Step(other) => is_same_event(event, other),
            _ => false,
        },
        Action::Rewind(n) => match b {
            Action::Rewind(other) => *n == *other,
            _ => false,
        },
        Action::OpenPin(at) => match b {
            Action::OpenPin(other) => *at == *other,
            _ => false,
        },
        Action::NextPiece { pin, time } => match b {
            Action::NextPiece {
                pin: its_pin,
                time: its_time,
            } => *pin == *its_pin && *time == *its_time,
            _ => false,
        },
        Action::ClosePin(pin) => match b {
            Action::ClosePin(other) => *pin == *other,
            _ => false,
        },
    }
}

/// Returns what a refusal says besides its name, or zeros.
pub(crate) fn details(refusal: Refusal) -> (u64, u64)
    ensures { result ≡ details_of refusal }
{
    match refusal {
        Refusal::NotDone { gray, undrained } => (gray, undrained),
        Refusal::SweepPending { region } => (region, 0),
        Refusal::NothingToSweep { region } => (region, 0),
        Refusal::TooFar { asked, retained } => (asked, retained),
        Refusal::Lost { cause } => match cause {
            LostCause::Rewound => (0, 0),
            LostCause::Memory => (1, 0),
            LostCause::Closed => (2, 0),
        },
        _ => (0, 0),
    }
}

/// Returns whether two answers are equal.
pub(crate) fn is_same_answer(a: Outcome, b: Outcome) -> bool
    ensures { IsTrue result ↔ (a ≡ b) }
{
    match a {
        Outcome::Answered(answer) => match b {
            Outcome::Answered(other) => is_same_told(answer, other),
            _ => false,
        },
        Outcome::Place(place) => match b {
            Outcome::Place(other) => place == other,
            _ => false,
        },
        Outcome::Refused(refusal) => match b {
            Outcome::Refused(other) => is_same_refusal(refusal, other),
            _ => false,
        },
    }
}

// Returns whether two answers of steps are equal.
fn is_same_told(a: Answer, b: Answer) -> bool
    ensures { IsTrue result ↔ (a ≡ b) }
{
    a == b
}

// Returns whether two refusals are equal.
#[tactic(auto, using(crate::proofs::Refusals::one_refusal))]
fn is_same_refusal(a: Refusal, b: Refusal) -> bool
    ensures { IsTrue result ↔ (a ≡ b) }
{
    a.number() == b.number() && details(a) == details(b)
}
