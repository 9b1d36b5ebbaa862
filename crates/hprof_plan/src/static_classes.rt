//! The classes of static fields in the session of a dump.
ghost use Rattle.std.specs.Prelude.{◌≡◌, ◌≤◌, ◌<◌, ◌+◌, ◌-◌, ◌∷◌, ◌++◌, [], length, map, take, OnOk, IfOk};
ghost use Rattle.std.specs.List.{list_any};
ghost use Rattle.std.specs.Map.{keys_of};
ghost use Rattle.heap_class.specs.Limits.{AreClassLimits};
ghost use Rattle.hprof_reader.specs.Fields.{static_told};
ghost use Rattle.hprof_plan.specs.Defined.{AreDefined};
ghost use Rattle.hprof_plan.specs.Plans.{AreTakenLimits, statics_told};
ghost use Rattle.hprof_plan.specs.SessionClasses.{and_statics, names_object, static_class, static_if, statics_in, with_objects};
ghost use Rattle.hprof_plan.specs.Tables.{classes_told};

use crate::class_fields::{class_name_at, static_named};
use crate::define::{Defined, define_class};
use crate::dump::Found;
use crate::dump_classes::class_id;
use crate::fields::static_fields;
use crate::items::id_at;
use crate::planning::Statics;
use heap_class::{ClassLimits, Fields};
use hprof_reader::StaticField;
use std::alloc::{AllocError, Global};

/// Defines the classes of static fields, as far as there is room. Fails if an allocation fails.
pub(crate) fn plan_statics<'a>(
    alloc: Global,
    limits: ClassLimits,
    room: u64,
    found: &Found<'a>,
    defined: &mut Defined,
) -> Result<Vec<Statics<'a>>, AllocError>
    requires limits { AreTakenLimits limits room }
    requires state { AreDefined limits defined.old }
    requires few { length defined.old.classes ≤ room }
    ensures defined { OnOk result (AreDefined limits defined.new) }
    ensures few { OnOk result (length defined.new.classes ≤ room) }
    ensures counted { IfOk result
        (λ v. length defined.new.classes ≡ length defined.old.classes + length v.items) }
    ensures statics { IfOk result
        (λ v. statics_told v.items
        ≡ take (room - length defined.old.classes)
        (with_objects found.now (keys_of (classes_told found.now.classes.entries)))) }
    ensures classes { IfOk result
        (λ v. defined.new.classes
        ≡ and_statics limits found.now defined.old.classes (statics_told v.items)) }
{
    let mut statics = Vec::new(alloc);
    for i in 0..found.classes.len() {
        let id = class_id(found, i);
        plan_class_statics(alloc, limits, room, found, defined, &mut statics, id)?;
    }
    Ok(statics)
}

// Defines the class of the static fields of a class, if one of them names an object and there is room. Fails if an allocation
// fails.
fn plan_class_statics<'a>(
    alloc: Global,
    limits: ClassLimits,
    room: u64,
    found: &Found<'a>,
    defined: &mut Defined,
    statics: &mut Vec<Statics<'a>>,
    id: u64,
) -> Result<(), AllocError>
    requires limits { AreTakenLimits limits room }
    requires state { AreDefined limits defined.old }
    requires few { length defined.old.classes ≤ room }
    ensures defined { OnOk result (AreDefined limits defined.new) }
    ensures few { OnOk result (length defined.new.classes ≤ room) }
    ensures statics { OnOk result
        (statics_told statics.new.items
        ≡ statics_told statics.old.items
        ++ static_if room found.now defined.old.classes (id, statics_in found.now id)) }
    ensures classes { OnOk result
        (defined.new.classes
        ≡ and_statics limits found.now defined.old.classes
        (static_if room found.now defined.old.classes (id, statics_in found.now id))) }
{
    let fields = statics_in(alloc, found, id)?;
    if !name_object(found, &fields) {
        return Ok(());
    }
    if defined.classes.len() >= room {
        return Ok(());
    }
    plan_static_class(alloc, limits, found, defined, id, &fields)?;
    statics.push(Statics { id, fields })?;
    Ok(())
}

// Returns the first static fields of a class, at most 64. Fails if an allocation fails.
fn statics_in<'a>(
    alloc: Global,
    found: &Found<'a>,
    id: u64,
) -> Result<Vec<StaticField<'a>>, AllocError>
    ensures value { IfOk result (λ v. map static_told v.items ≡ statics_in found.now id) }
    ensures few { IfOk result (λ v. length v.items ≤ 64) }
{
    match found.classes.get(&id) {
        Some(dump) => static_fields(alloc, found.ids, dump.statics),
        None => Ok(Vec::new(alloc)),
    }
}

// Tells whether one of the static fields names an object of the dump.
fn name_object(found: &Found<'_>, fields: &[StaticField<'_>]) -> bool
    ensures { result ≡ list_any (λ s. names_object found.now (static_told s)) fields.now }
{
    fields.iter().any(|field| names_object(found, field))
}

// Tells whether a static field names an object of the dump.
fn names_object(found: &Found<'_>, field: &StaticField<'_>) -> bool
    ensures { result ≡ names_object found.now (static_told field.now) }
{
    if !field.kind.is_reference() {
        return false;
    }
    match id_at(found.ids, field.value) {
        Some((id, _)) => found.objects.contains(id),
        None => false,
    }
}

// Defines the class of static fields. Fails if an allocation fails.
fn plan_static_class(
    alloc: Global,
    limits: ClassLimits,
    found: &Found<'_>,
    defined: &mut Defined,
    id: u64,
    statics: &[StaticField<'_>],
) -> Result<(), AllocError>
    requires limits { AreClassLimits limits }
    requires long { 22 ≤ limits.name_bytes }
    requires state { AreDefined limits defined.old }
    requires room { length defined.old.classes < limits.classes }
    requires few { length statics.now ≤ 64 }
    ensures defined { OnOk result (AreDefined limits defined.new) }
    ensures class { OnOk result
        (defined.new.classes
        ≡ defined.old.classes
        ++ static_class limits found.now defined.old.classes
        (id, map static_told statics.now) ∷ []) }
{
    let mut name = Vec::new(alloc);
    name.extend_from_slice(class_name_at(found, id))?;
    name.extend_from_slice(b".static")?;
    let fields = static_named(alloc, limits, found, statics)?;
    define_class(
        alloc,
        limits,
        defined,
        &name,
        None,
        Fields::from_vec(fields),
    )
}
