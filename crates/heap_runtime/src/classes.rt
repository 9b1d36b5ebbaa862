//! Definitions of classes.
ghost use Rattle.std.specs.Prelude.{◌≡◌, ◌++◌, ◌∷◌, [], IfOk, OnOk, map};
ghost use Rattle.heap_lock.specs.Event.TheVariants.{ArrayClass, Class};

use heap_class::{ClassNo, Field, Fields, Kind, Name};
use heap_lock::Event;
use std::alloc::{AllocError, Global};

/// Creates the event that defines a class with this name, this superclass, if any, and own fields of these names and kinds. Fails
/// if an allocation fails.
pub fn define_class(
    alloc: Global,
    name: &[u8],
    sup: Option<ClassNo>,
    fields: &[(&[u8], Kind)],
) -> Result<Event, AllocError>
    ensures { IfOk result
        (λ e. e
        ≡ Class name.now sup (map (λ f. record { name = f.0.now; kind = f.1 }) fields.now)) }
{
    let name = Name::new(alloc, name)?;
    let fields = Fields::from_vec(own_fields(alloc, fields)?);
    Ok(Event::Class { name, sup, fields })
}

// Returns own fields of these names and kinds. Fails if an allocation fails.
fn own_fields(alloc: Global, fields: &[(&[u8], Kind)]) -> Result<Vec<Field>, AllocError>
    ensures { IfOk result
        (λ v. v.items ≡ map (λ f. record { name = f.0.now; kind = f.1 }) fields.now) }
{
    let mut own = Vec::with_capacity(alloc, fields.len())?;
    for (name, kind) in fields {
        push_field(alloc, &mut own, name, *kind)?;
    }
    Ok(own)
}

// Appends a field of this name and kind. Fails if an allocation fails.
fn push_field(
    alloc: Global,
    own: &mut Vec<Field>,
    name: &[u8],
    kind: Kind,
) -> Result<(), AllocError>
    ensures { OnOk result
        (own.new.items ≡ own.old.items ++ record { name = name.now; kind = kind } ∷ []) }
{
    let name = Name::new(alloc, name)?;
    own.push(Field { name, kind })?;
    Ok(())
}

/// Creates the event that defines a class of object arrays with this name. Fails if an allocation fails.
pub fn define_array_class(alloc: Global, name: &[u8]) -> Result<Event, AllocError>
    ensures { IfOk result (λ e. e ≡ ArrayClass name.now) }
{
    let name = Name::new(alloc, name)?;
    Ok(Event::ArrayClass { name })
}
