//! Copies of events.
ghost use Rattle.std.specs.Prelude.{◌≡◌, IfOk, None};
ghost use Rattle.heap_history.specs.Packs.{event_pack};
ghost use Rattle.heap_lock.specs.Action.TheVariants.{Step};

use heap_class::{Field, Fields};
use heap_history::packing::pack_event;
use heap_history::unpacking::action_in;
use heap_lock::{Action, Event};
use std::alloc::{AllocError, Global};

/// Returns the action of a copy of an event. Takes memory only for the definition of a class, and fails if there is none.
pub fn step_of(alloc: Global, event: &Event) -> Result<Action, AllocError>
    ensures { IfOk result (λ a. a ≡ Step event.now) }
{
    match pack_event(event) {
        Some(pack) => Ok(action_in(
            pack.deed,
            pack.kind,
            pack.first,
            pack.second,
            pack.third,
            pack.fourth,
        )),
        None => Ok(Action::Step(copy_definition(alloc, event)?)),
    }
}

// Returns a copy of an event that has lists. Fails if an allocation fails.
fn copy_definition(alloc: Global, event: &Event) -> Result<Event, AllocError>
    requires { event_pack event.now ≡ None }
    ensures { IfOk result (λ e. e ≡ event.now) }
{
    match event {
        Event::Class { name, sup, fields } => {
            let fields = copy_fields(alloc, fields.as_slice())?;
            Ok(Event::Class {
                name: name.duplicate(alloc)?,
                sup: *sup,
                fields: Fields::from_vec(fields),
            })
        }
        Event::ArrayClass { name } => {
            let name = name.duplicate(alloc)?;
            Ok(Event::ArrayClass { name })
        }
        _ => unreachable!(),
    }
}

// Returns a copy of fields. Fails if an allocation fails.
fn copy_fields(alloc: Global, fields: &[Field]) -> Result<Vec<Field>, AllocError>
    ensures { IfOk result (λ v. v.items ≡ fields.now) }
{
    let mut copies = Vec::with_capacity(alloc, fields.len())?;
    for field in fields {
        let name = field.name.duplicate(alloc)?;
        let kind = field.kind;
        copies.push(Field { name, kind })?;
    }
    Ok(copies)
}
