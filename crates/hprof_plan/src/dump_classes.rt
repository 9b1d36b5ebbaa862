//! The classes of the dump in its session.
ghost use Rattle.std.specs.Prelude.{◌≡◌, ◌<◌, ◌+◌, ◌∷◌, ◌++◌, [], nat_eq, length, map, reverse, slice_get, true, false, IfOk, OnOk, None, Some, option_and_then};
ghost use Rattle.std.specs.Map.{keys_of};
ghost use Rattle.std.specs.Option.{option_map_or};
ghost use Rattle.heap_class.specs.Classes.{is_instance_class, slots_of};
ghost use Rattle.heap_class.specs.Limits.{slot_limit};
ghost use Rattle.indexmap.specs.IndexMap.{get, index_of, keys};
ghost use Rattle.hprof_reader.specs.SubRecords.{class_told};
ghost use Rattle.hprof_plan.specs.Numbers.{numbered, upwards, with_number, with_numbers};
ghost use Rattle.hprof_plan.specs.Plans.{AreTakenLimits, IsPlanned};
ghost use Rattle.hprof_plan.specs.SessionClasses.{class_at, instance_number, is_array_in};
ghost use Rattle.hprof_plan.specs.Tables.{classes_told};

use crate::class_fields::{class_name_at, own_named};
use crate::define::{Defined, define_array_class, define_class, none_defined};
use crate::dump::Found;
use crate::fields::own_fields;
use heap_class::{ClassLimits, ClassNo, Classes, Fields, Kind, SLOT_LIMIT};
use hprof_reader::{ClassDump, OwnField};
use indexmap::IndexMap;
use std::alloc::{AllocError, Global};

/// Classes of the dump that have a number, and the kinds of their fields by their ids.
#[derive(Drop)]
pub(crate) struct Planned {
    pub(crate) defined: Defined,
    pub(crate) kinds: IndexMap<u64, Vec<Kind>>,
}

/// Defines the classes of the dump, as many as there is room for. Fails if an allocation fails.
pub(crate) fn plan_dump(
    alloc: Global,
    limits: ClassLimits,
    room: u64,
    found: &Found<'_>,
) -> Result<Planned, AllocError>
    requires { AreTakenLimits limits room }
    ensures planned { IfOk result (IsPlanned limits room found.now) }
    ensures numbers { IfOk result
        (λ p. keys p.kinds ≡ numbered room (classes_told found.now.classes.entries)) }
{
    let mut planned = none_planned(alloc, limits, room, found);
    for i in 0..found.classes.len() {
        let id = class_id(found, i);
        plan_after_supers(alloc, limits, room, found, &mut planned, id)?;
    }
    Ok(planned)
}

// Returns no classes.
fn none_planned(alloc: Global, limits: ClassLimits, room: u64, found: &Found<'_>) -> Planned
    ensures planned { IsPlanned limits room found.now result }
    ensures none { result.kinds.entries ≡ [] }
{
    // Only the contract uses it.
    let _room = room;
    // Its contract bounds the number of classes.
    let _size = found.classes.len();
    Planned {
        defined: none_defined(alloc, limits),
        kinds: IndexMap::new(alloc),
    }
}

// Defines a class of the dump after its supers, unless the room is full. Fails if an allocation fails.
fn plan_after_supers(
    alloc: Global,
    limits: ClassLimits,
    room: u64,
    found: &Found<'_>,
    planned: &mut Planned,
    id: u64,
) -> Result<(), AllocError>
    requires limits { AreTakenLimits limits room }
    requires state { IsPlanned limits room found.now planned.old }
    ensures planned { OnOk result (IsPlanned limits room found.now planned.new) }
    ensures numbers { OnOk result
        (keys planned.new.kinds
        ≡ with_numbers room (classes_told found.now.classes.entries) (keys planned.old.kinds)
        (reverse (upwards (classes_told found.now.classes.entries) room id))) }
{
    if planned.defined.classes.len() >= room {
        return Ok(());
    }
    let mut line = upwards(alloc, found, room, id)?;
    line.reverse();
    plan_each(alloc, limits, room, found, planned, line.as_slice())
}

// Returns the ids of a class, of its super, and so on: the first `most`, up to the first that isn't in the dump. Fails if an
// allocation fails.
fn upwards(alloc: Global, found: &Found<'_>, most: u64, id: u64) -> Result<Vec<u64>, AllocError>
    ensures { IfOk result
        (λ v. v.items ≡ upwards (classes_told found.now.classes.entries) most id) }
{
    let mut line = Vec::new(alloc);
    let mut at = id;
    for _ in 0..most {
        match found.classes.get(&at) {
            Some(dump) => {
                line.push(at)?;
                at = dump.head.super_id;
            }
            None => return Ok(line),
        }
    }
    Ok(line)
}

// Defines each of these classes of the dump, unless it has a number or the room is full. Fails if an allocation fails.
fn plan_each(
    alloc: Global,
    limits: ClassLimits,
    room: u64,
    found: &Found<'_>,
    planned: &mut Planned,
    ids: &[u64],
) -> Result<(), AllocError>
    requires limits { AreTakenLimits limits room }
    requires state { IsPlanned limits room found.now planned.old }
    ensures planned { OnOk result (IsPlanned limits room found.now planned.new) }
    ensures numbers { OnOk result
        (keys planned.new.kinds
        ≡ with_numbers room (classes_told found.now.classes.entries)
        (keys planned.old.kinds) ids.now) }
{
    for id in ids {
        plan_class(alloc, limits, room, found, planned, *id)?;
    }
    Ok(())
}

// Defines a class of the dump, unless it has a number or the room is full. Fails if an allocation fails.
fn plan_class(
    alloc: Global,
    limits: ClassLimits,
    room: u64,
    found: &Found<'_>,
    planned: &mut Planned,
    id: u64,
) -> Result<(), AllocError>
    requires limits { AreTakenLimits limits room }
    requires state { IsPlanned limits room found.now planned.old }
    ensures planned { OnOk result (IsPlanned limits room found.now planned.new) }
    ensures numbers { OnOk result
        (keys planned.new.kinds
        ≡ with_number room (classes_told found.now.classes.entries) (keys planned.old.kinds) id) }
{
    if planned.kinds.contains_key(&id) {
        return Ok(());
    }
    if planned.defined.classes.len() >= room {
        return Ok(());
    }
    match found.classes.get(&id) {
        Some(dump) => plan_new(alloc, limits, room, found, planned, id, dump),
        None => Ok(()),
    }
}

// Defines a class of the dump that has no number yet. Fails if an allocation fails.
fn plan_new(
    alloc: Global,
    limits: ClassLimits,
    room: u64,
    found: &Found<'_>,
    planned: &mut Planned,
    id: u64,
    dump: &ClassDump<'_>,
) -> Result<(), AllocError>
    requires limits { AreTakenLimits limits room }
    requires state { IsPlanned limits room found.now planned.old }
    requires new { get nat_eq planned.old.kinds id ≡ None }
    requires few { length planned.old.defined.classes < room }
    requires class { class_at found.now id ≡ Some (class_told dump.now) }
    ensures planned { OnOk result (IsPlanned limits room found.now planned.new) }
    ensures numbers { OnOk result (keys planned.new.kinds ≡ keys planned.old.kinds ++ id ∷ []) }
{
    if found.array_classes.contains(&id) {
        plan_array_class(alloc, limits, room, found, planned, id)
    } else {
        plan_instance_class(alloc, limits, room, found, planned, id, dump)
    }
}

// Defines an array class of the dump. Fails if an allocation fails.
fn plan_array_class(
    alloc: Global,
    limits: ClassLimits,
    room: u64,
    found: &Found<'_>,
    planned: &mut Planned,
    id: u64,
) -> Result<(), AllocError>
    requires limits { AreTakenLimits limits room }
    requires state { IsPlanned limits room found.now planned.old }
    requires new { get nat_eq planned.old.kinds id ≡ None }
    requires few { length planned.old.defined.classes < room }
    requires array { is_array_in found.now id ≡ true }
    ensures planned { OnOk result (IsPlanned limits room found.now planned.new) }
    ensures numbers { OnOk result (keys planned.new.kinds ≡ keys planned.old.kinds ++ id ∷ []) }
{
    define_array_class(
        alloc,
        limits,
        &mut planned.defined,
        class_name_at(found, id),
    )?;
    planned.kinds.insert(id, Vec::new(alloc))?;
    Ok(())
}

// Defines an instance class of the dump. Fails if an allocation fails.
fn plan_instance_class(
    alloc: Global,
    limits: ClassLimits,
    room: u64,
    found: &Found<'_>,
    planned: &mut Planned,
    id: u64,
    dump: &ClassDump<'_>,
) -> Result<(), AllocError>
    requires limits { AreTakenLimits limits room }
    requires state { IsPlanned limits room found.now planned.old }
    requires new { get nat_eq planned.old.kinds id ≡ None }
    requires few { length planned.old.defined.classes < room }
    requires instance { is_array_in found.now id ≡ false }
    requires class { class_at found.now id ≡ Some (class_told dump.now) }
    ensures planned { OnOk result (IsPlanned limits room found.now planned.new) }
    ensures numbers { OnOk result (keys planned.new.kinds ≡ keys planned.old.kinds ++ id ∷ []) }
{
    let sup = super_of(&planned.kinds, &planned.defined.classes, dump.head.super_id);
    let mut own = own_fields(alloc, found.ids, dump.fields)?;
    let kinds = kinds_of(alloc, &own)?;
    let kept = room_under(&planned.defined.classes, sup).min(own.len());
    own.truncate(kept);
    let fields = own_named(alloc, limits, found, own.as_slice())?;
    define_class(
        alloc,
        limits,
        &mut planned.defined,
        class_name_at(found, id),
        sup,
        Fields::from_vec(fields),
    )?;
    planned.kinds.insert(id, kinds)?;
    Ok(())
}

// Returns the number of the class with this id, if it has one and is an instance class.
fn super_of(kinds: &IndexMap<u64, Vec<Kind>>, classes: &Classes, id: u64) -> Option<ClassNo>
    ensures number { result
        ≡ option_and_then (instance_number classes.now) (index_of nat_eq kinds.now id) }
    ensures instance { option_map_or (is_instance_class classes.now) result true ≡ true }
{
    match kinds.get_index_of(&id) {
        Some(k) => if classes.is_instance(k as u64) {
            Some(k as u64)
        } else {
            None
        },
        None => None,
    }
}

// Returns the kinds of fields. Fails if an allocation fails.
fn kinds_of(alloc: Global, fields: &[OwnField]) -> Result<Vec<Kind>, AllocError>
    ensures { IfOk result (λ v. v.items ≡ map (λ f. f.kind) fields.now) }
{
    let mut kinds = Vec::new(alloc);
    for f in fields {
        kinds.push(f.kind)?;
    }
    Ok(kinds)
}

// Returns how many own fields a class with this super may have.
fn room_under(classes: &Classes, sup: Option<ClassNo>) -> usize
    requires { option_map_or (is_instance_class classes.now) sup true ≡ true }
    ensures { result + length (option_map_or (slots_of classes.now) sup []) ≡ slot_limit }
{
    match sup {
        Some(class) => SLOT_LIMIT - classes.slots(class).len(),
        None => SLOT_LIMIT,
    }
}

/// Returns the id of class i of the dump.
pub(crate) fn class_id(found: &Found<'_>, i: usize) -> u64
    requires { i < length found.now.classes.entries }
    ensures { slice_get (keys_of (classes_told found.now.classes.entries)) i ≡ Some result }
{
    match found.classes.get_index(i) {
        Some((id, _dump)) => *id,
        None => 0,
    }
}
