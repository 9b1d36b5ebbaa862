//! The fields of the classes of a session.
ghost use Rattle.std.specs.Prelude.{◌≡◌, map, IfOk, OnOk};
ghost use Rattle.std.specs.List.{list_any};
ghost use Rattle.std.specs.Str.{bytes_eq};
ghost use Rattle.hprof_plan.specs.ClassFields.{add_field, class_name_at, name_at, own_named, static_named};
ghost use Rattle.hprof_plan.specs.Tables.{names_told};
ghost use Rattle.hprof_reader.specs.Fields.{static_told};

use crate::dump::Found;
use crate::names::given_name;
use heap_class::{ClassLimits, Field, Kind};
use hprof_reader::{OwnField, StaticField};
use std::alloc::{AllocError, Global};

/// Returns the name of a class, or no bytes if there is none.
pub(crate) fn class_name_at<'a>(found: &Found<'a>, id: u64) -> &'a [u8]
    ensures { result.now
        ≡ class_name_at (names_told found.now.names.entries) found.now.loads.entries id }
{
    match found.loads.get(&id) {
        Some(name) => name_at(found, *name),
        None => b"",
    }
}

// Returns the name with this id, or no bytes if there is none.
fn name_at<'a>(found: &Found<'a>, id: u64) -> &'a [u8]
    ensures { result.now ≡ name_at (names_told found.now.names.entries) id }
{
    match found.names.get(&id) {
        Some(name) => *name,
        None => b"",
    }
}

/// Returns own fields with their names. Fails if an allocation fails.
pub(crate) fn own_named(
    alloc: Global,
    limits: ClassLimits,
    found: &Found<'_>,
    own: &[OwnField],
) -> Result<Vec<Field>, AllocError>
    ensures { IfOk result
        (λ v. v.items ≡ own_named limits (names_told found.now.names.entries) own.now) }
{
    let mut fields = Vec::new(alloc);
    for f in own {
        push_field(alloc, limits, &mut fields, name_at(found, f.name), f.kind)?;
    }
    Ok(fields)
}

// Adds a field with this name, or with another in its place. Fails if an allocation fails.
fn push_field(
    alloc: Global,
    limits: ClassLimits,
    fields: &mut Vec<Field>,
    name: &[u8],
    kind: Kind,
) -> Result<(), AllocError>
    ensures { OnOk result (fields.new.items ≡ add_field limits fields.old.items name.now kind) }
{
    let is_given = has_name(fields, name);
    let name = given_name(alloc, limits, is_given, fields.len() as u64, name)?;
    fields.push(Field { name, kind })?;
    Ok(())
}

// Tells whether one of the fields has this name.
fn has_name(fields: &[Field], name: &[u8]) -> bool
    ensures { result ≡ list_any (λ f. bytes_eq name.now f.name) fields.now }
{
    fields.iter().any(|f| name == f.name.as_bytes())
}

/// Returns static fields with their names. Fails if an allocation fails.
pub(crate) fn static_named(
    alloc: Global,
    limits: ClassLimits,
    found: &Found<'_>,
    statics: &[StaticField<'_>],
) -> Result<Vec<Field>, AllocError>
    ensures { IfOk result
        (λ v. v.items
        ≡ static_named limits (names_told found.now.names.entries) (map static_told statics.now)) }
{
    let mut fields = Vec::new(alloc);
    for f in statics {
        push_field(alloc, limits, &mut fields, name_at(found, f.name), f.kind)?;
    }
    Ok(fields)
}
