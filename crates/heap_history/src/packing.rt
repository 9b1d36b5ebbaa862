//! The numbers of an entry.
#![tactic(auto, unfolding(crate::specs::Packs::action_in, crate::specs::Packs::outcome_in, crate::specs::Packs::entry_by))]

ghost use Rattle.std.specs.Prelude.{◌≡◌, IfSome, Some};
ghost use Rattle.heap_step.specs.declared.Answer.TheVariants.{Swept};
ghost use Rattle.heap_step.specs.declared.Event.TheVariants.{NewPrim};
ghost use Rattle.heap_history.specs.declared.entry.Outcome.TheVariants.{Answered as Said, Refused as Denied};
ghost use Rattle.heap_history.specs.History.{entry};
ghost use Rattle.heap_history.specs.Packs.{action_by, action_with, event_pack, numbered, outcome_by, outcome_with, TellsEntry, fourth_beside, has_second};

use crate::entry::{Entry, Outcome};
use crate::pack::{AnswerPack, Deed, DeedPack, Form, Pack, Told};
use crate::same::details;
use heap_class::{Kind, Refusal};
use heap_step::{Answer, Event};
use heap_trail::Action;

// Returns a deed of these numbers without a kind.
#[inline(always)]
pub(crate) fn deed_pack(deed: Deed, first: u64, second: u64, third: u64, fourth: u64) -> DeedPack
    ensures { result ≡ numbered deed first second third fourth }
{
    DeedPack {
        deed,
        kind: Kind::Object,
        first,
        second,
        third,
        fourth,
    }
}

/// Returns the numbers of an event, or None if it has lists. Takes no memory.
#[inline(always)]
pub fn pack_event(event: &Event) -> Option<DeedPack>
    ensures { result ≡ event_pack event.now }
{
    match event {
        Event::New { m, r, class } => Some(deed_pack(Deed::New, *m, *r, *class, 0)),
        Event::NewArray { m, r, class, len } => {
            Some(deed_pack(Deed::NewArray, *m, *r, *class, *len))
        }
        Event::NewPrim { m, r, kind, len } => Some(new_prim(*m, *r, *kind, *len)),
        Event::Load { m, to, from, slot } => Some(deed_pack(Deed::Load, *m, *to, *from, *slot)),
        Event::Store {
            m,
            target,
            slot,
            source,
        } => Some(deed_pack(Deed::Store, *m, *target, *slot, *source)),
        Event::Put {
            m,
            target,
            slot,
            value,
        } => Some(deed_pack(Deed::Put, *m, *target, *slot, *value)),
        Event::Move {
            m,
            to,
            from_m,
            from,
        } => Some(deed_pack(Deed::Move, *m, *to, *from_m, *from)),
        Event::Clear { m, r } => Some(deed_pack(Deed::Clear, *m, *r, 0, 0)),
        Event::Snap => Some(deed_pack(Deed::Snap, 0, 0, 0, 0)),
        Event::Mark => Some(deed_pack(Deed::Mark, 0, 0, 0, 0)),
        Event::Drain => Some(deed_pack(Deed::Drain, 0, 0, 0, 0)),
        Event::Finish => Some(deed_pack(Deed::Finish, 0, 0, 0, 0)),
        Event::Sweep { region } => Some(deed_pack(Deed::Sweep, *region, 0, 0, 0)),
        Event::Class { .. } | Event::ArrayClass { .. } => None,
    }
}

// Returns a new array of values by its numbers.
#[inline(always)]
fn new_prim(m: u64, r: u64, kind: Kind, len: u64) -> DeedPack
    ensures { Some result ≡ event_pack (NewPrim m r kind len) }
{
    DeedPack {
        deed: Deed::NewPrim,
        kind,
        first: m,
        second: r,
        third: len,
        fourth: 0,
    }
}

// Returns the numbers of an answer.
#[inline(always)]
pub(crate) fn pack_outcome(outcome: Outcome) -> AnswerPack
    ensures { outcome_by result ≡ outcome }
{
    match outcome {
        Outcome::Answered(answer) => pack_answer(answer),
        Outcome::Place(place) => answer_pack(Told::Place, place, 0),
        Outcome::Refused(refusal) => pack_refusal(refusal),
    }
}

// Returns the numbers of what a step answers.
#[inline(always)]
fn pack_answer(answer: Answer) -> AnswerPack
    ensures { outcome_by result ≡ Said answer }
{
    match answer {
        Answer::Class(class) => answer_pack(Told::Class, class, 0),
        Answer::Object(id) => answer_pack(Told::Object, id, 0),
        Answer::Null => answer_pack(Told::Null, 0, 0),
        Answer::Value(value) => answer_pack(Told::Value, value, 0),
        Answer::Done => answer_pack(Told::Done, 0, 0),
        Answer::Pushed(count) => answer_pack(Told::Pushed, count, 0),
        Answer::Condemned(count) => answer_pack(Told::Condemned, count, 0),
        Answer::Swept { dead, emptied } => pack_swept(dead, emptied),
    }
}

// Returns an answer of this sort.
#[inline(always)]
fn answer_pack(told: Told, first: u64, second: u64) -> AnswerPack
    ensures { result ≡ record { told = told; reason = 0; first = first; second = second } }
{
    AnswerPack {
        told,
        reason: 0,
        first,
        second,
    }
}

// Returns the numbers of what a sweep answers.
fn pack_swept(dead: u64, emptied: bool) -> AnswerPack
    ensures { outcome_by result ≡ Said (Swept emptied dead) }
{
    if emptied {
        answer_pack(Told::Emptied, dead, 0)
    } else {
        answer_pack(Told::Swept, dead, 0)
    }
}

// Returns the numbers of a refusal.
fn pack_refusal(refusal: Refusal) -> AnswerPack
    ensures { outcome_by result ≡ Denied refusal }
{
    let (first, second) = details(refusal);
    AnswerPack {
        told: if second == 0 {
            Told::Refused
        } else {
            Told::RefusedInFull
        },
        reason: refusal.number() as u8,
        first,
        second,
    }
}

// Returns the deed's fourth number, by the number in the place that it shares with the answer's second one.
pub(crate) fn fourth_beside(told: Told, shared: u64) -> u64
    ensures { result ≡ fourth_beside told shared }
{
    if has_second(told) { 0 } else { shared }
}

// Returns whether the answer has a second number.
#[inline(always)]
fn has_second(told: Told) -> bool
    ensures { result ≡ has_second told }
{
    match told {
        Told::RefusedInFull => true,
        _ => false,
    }
}

/// Returns an entry by its numbers, or None if it has lists, too many numbers, or a seat above 65,535. Takes no memory.
#[inline(always)]
pub(crate) fn pack_of(entry: &Entry) -> Option<Pack>
    ensures { IfSome result (λ p. TellsEntry p entry.now) }
{
    let seat = entry.seat;
    if seat > u16::MAX as u64 {
        return None;
    }
    let deed = pack_action(&entry.action)?;
    pack_numbers(seat as u16, deed, pack_outcome(entry.answer))
}

// Returns the numbers of a deed, or None if it has lists or is a dumper's.
#[inline(always)]
#[tactic(auto, using(crate::proofs::EventPacks::pack_tells))]
fn pack_action(action: &Action) -> Option<DeedPack>
    ensures { IfSome result (λ d. action_by d ≡ action.now) }
{
    match action {
        Action::Step(event) => pack_event(event),
        Action::Rewind(n) => Some(deed_pack(Deed::Rewind, *n, 0, 0, 0)),
        _ => None,
    }
}

// Returns the pack of a deed and an answer, or None if both have a number for the place that they share.
#[inline(always)]
fn pack_numbers(seat: u16, deed: DeedPack, answer: AnswerPack) -> Option<Pack>
    ensures { IfSome result (λ p. TellsEntry p (entry seat (action_by deed) (outcome_by answer))) }
{
    if !has_second(answer.told) {
        return Some(join_packs(seat, deed, answer, deed.fourth));
    }
    if deed.fourth != 0 {
        return None;
    }
    Some(join_packs(seat, deed, answer, answer.second))
}

// Returns the pack of a deed and an answer with this number in the place that they share.
#[inline(always)]
fn join_packs(seat: u16, deed: DeedPack, answer: AnswerPack, shared: u64) -> Pack
    ensures { TellsEntry result
        (entry seat (action_with deed (fourth_beside answer.told shared))
        (outcome_with answer shared)) }
{
    Pack {
        first: deed.first,
        second: deed.second,
        third: deed.third,
        fourth: shared,
        told_first: answer.first,
        seat,
        form: Form::Numbers,
        deed: deed.deed,
        kind: deed.kind,
        told: answer.told,
        reason: answer.reason,
    }
}
