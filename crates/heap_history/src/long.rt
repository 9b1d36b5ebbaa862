//! Long packs: definitions of classes, and other entries that have no room in a pack.
#![tactic(auto, unfolding(crate::specs::Packs::long_action, crate::specs::Packs::long_entry))]

ghost use Rattle.std.specs.Prelude.{◌≡◌, ◌↔◌, [], None, true, false, IsTrue, MatchOption};
ghost use Rattle.heap_step.specs.declared.Event.{Event};
ghost use Rattle.heap_trail.specs.declared.Action.TheVariants.{Step};
ghost use Rattle.heap_history.specs.Definitions.{fields_of, name_of};
ghost use Rattle.heap_history.specs.History.{entry};
ghost use Rattle.heap_history.specs.Kept.{is_kept, is_kept_action, is_kept_event};
ghost use Rattle.heap_history.specs.Packs.{action_by, event_pack, outcome_by, long_action, long_entry};

use crate::definition::Definition;
use crate::entry::{Entry, Outcome};
use crate::pack::{AnswerPack, Deed, DeedPack, LongDeed, LongPack};
use crate::packing::{deed_pack, pack_event, pack_outcome};
use crate::same::{is_same_action, is_same_answer};
use crate::unpacking::{action_in, outcome_in};
use heap_class::ClassNo;
use heap_step::Event;
use heap_trail::Action;

/// Returns the long pack of an entry, or None if the entry isn't kept. Takes no memory.
pub fn long_of(entry: &Entry) -> Option<LongPack>
    ensures { MatchOption result (is_kept entry.now ≡ false)
        (λ w. (is_kept entry.now ≡ true) × (long_entry w ≡ entry.now)) }
{
    let deed = long_deed(&entry.action)?;
    Some(LongPack {
        seat: entry.seat,
        deed,
        answer: pack_outcome(entry.answer),
    })
}

// Returns the long deed of an action, or None if it isn't kept.
fn long_deed(action: &Action) -> Option<LongDeed>
    ensures { MatchOption result (is_kept_action action.now ≡ false)
        (λ d. (is_kept_action action.now ≡ true) × (long_action d ≡ action.now)) }
{
    match action {
        Action::Step(event) => long_event(event),
        Action::Rewind(n) => Some(LongDeed::Numbers(deed_pack(Deed::Rewind, *n, 0, 0, 0))),
        _ => None,
    }
}

// Returns the long deed of an event, or None if it isn't kept.
fn long_event(event: &Event) -> Option<LongDeed>
    ensures { MatchOption result (is_kept_event event.now ≡ false)
        (λ d. (is_kept_event event.now ≡ true) × (long_action d ≡ Step event.now)) }
{
    match pack_event(event) {
        Some(deed) => Some(LongDeed::Numbers(deed)),
        None => long_definition(event),
    }
}

// Returns the long deed of a definition, or None if it isn't kept.
fn long_definition(event: &Event) -> Option<LongDeed>
    requires { event_pack event.now ≡ None }
    ensures { MatchOption result (is_kept_event event.now ≡ false)
        (λ d. (is_kept_event event.now ≡ true) × (long_action d ≡ Step event.now)) }
{
    match event {
        Event::Class { name, sup, fields } => {
            let definition = Definition::of(name, fields.as_slice())?;
            let sup = *sup;
            Some(LongDeed::Class { sup, definition })
        }
        Event::ArrayClass { name } => {
            let definition = Definition::of(name, &[])?;
            Some(LongDeed::ArrayClass(definition))
        }
        _ => unreachable!(),
    }
}

/// Returns whether this is the long pack of the seat, the action and the answer. Takes no memory.
pub(crate) fn is_long_pack_of(long: &LongPack, seat: u64, action: &Action, answer: Outcome) -> bool
    ensures { IsTrue result ↔ (long_entry long.now ≡ entry seat action.now answer) }
{
    long.seat == seat && is_deed_of(&long.deed, action) && tells_answer(long.answer, answer)
}

// Returns whether this is the long deed of the action.
fn is_deed_of(deed: &LongDeed, action: &Action) -> bool
    ensures { IsTrue result ↔ (long_action deed.now ≡ action.now) }
{
    match deed {
        LongDeed::Numbers(numbers) => tells_action(*numbers, action),
        LongDeed::Class { sup, definition } => match action {
            Action::Step(event) => defines_class(definition, *sup, event),
            _ => false,
        },
        LongDeed::ArrayClass(definition) => match action {
            Action::Step(event) => defines_array_class(definition, event),
            _ => false,
        },
    }
}

// Returns whether the numbers are those of the action.
fn tells_action(deed: DeedPack, action: &Action) -> bool
    ensures { IsTrue result ↔ (action_by deed ≡ action.now) }
{
    let its_action = action_in(
        deed.deed,
        deed.kind,
        deed.first,
        deed.second,
        deed.third,
        deed.fourth,
    );
    is_same_action(&its_action, action)
}

// Returns whether the event is the definition of a class with this super.
fn defines_class(definition: &Definition, sup: Option<ClassNo>, event: &Event) -> bool
    ensures { IsTrue result ↔
        (Event.Class (name_of definition.now) sup (fields_of definition.now) ≡ event.now) }
{
    match event {
        Event::Class {
            name,
            sup: its_sup,
            fields,
        } => *its_sup == sup && definition.is_of(name, fields.as_slice()),
        _ => false,
    }
}

// Returns whether the event is the definition of an array class.
fn defines_array_class(definition: &Definition, event: &Event) -> bool
    ensures { IsTrue result ↔ (Event.ArrayClass (name_of definition.now) ≡ event.now) }
{
    match event {
        Event::ArrayClass { name } => definition.has_name(name),
        _ => false,
    }
}

// Returns whether the numbers are those of the answer.
fn tells_answer(pack: AnswerPack, answer: Outcome) -> bool
    ensures { IsTrue result ↔ (outcome_by pack ≡ answer) }
{
    let its_answer = outcome_in(pack.told, pack.reason, pack.first, pack.second);
    is_same_answer(its_answer, answer)
}
