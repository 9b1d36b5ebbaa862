//! The lines that make objects, write their values and store their references.
ghost use Rattle.std.specs.Prelude.{◌≡◌, ◌≤◌, ◌++◌, nat_eq, flat_map, length, false, slice_index_or, option_and_then, IfSome, OnOk, Some};
ghost use Rattle.std.specs.List.{list_any};
ghost use Rattle.indexmap.specs.IndexMap.{index_map_len, index_of};
ghost use Rattle.session_lines.specs.Laws.{HasLine};
ghost use Rattle.hprof_reader.specs.SubRecords.{sub_record};
ghost use Rattle.hprof_session.specs.Places.{lines_of};
ghost use Rattle.hprof_lines.specs.Objects.{array_made, instance_made, links_of, made_events, making_event, names_object, number_of, object_events, objects_told, reference_events, value_events};

use crate::slots::read_object;
use crate::values::SlotValue;
use heap_class::{IdSize, Kind};
use heap_step::Event;
use hprof_plan::Plan;
use hprof_reader::SubRecord;
use hprof_session::{MADE, push_fetch, push_keep, push_place};
use id_table::IdTable;
use indexmap::IndexSet;
use session_lines::Lines;
use std::alloc::AllocError;

// The register of an object that a slot is to name.
const NAMED: u64 = 6;

/// The objects of a dump.
#[derive(Clone, Copy)]
pub struct Objects<'s, 'a> {
    /// The classes.
    pub plan: &'s Plan<'a>,
    /// The size of identifiers.
    pub ids: IdSize,
    /// The ids of the objects in the order of the dump.
    pub objects: &'s IdTable,
    /// Whether each of them is made.
    pub made: &'s [bool],
    /// The ids of the classes that have an object for their static fields.
    pub statics: &'s IndexSet<u64>,
}

/// Tells whether the object at this place in the dump is made.
pub(crate) fn made_at(made: &[bool], i: usize) -> bool
    ensures { result ≡ slice_index_or made.now i false }
{
    if i < made.len() { made[i] } else { false }
}

/// Returns the number of the object with this id, if it is made.
#[tactic(auto, unfolding(crate::specs::Objects::number_of))]
pub fn number_of(all: &Objects<'_, '_>, id: u64) -> Option<u64>
    ensures { result ≡ number_of (objects_told all.now) id }
{
    // Its contract bounds the number of objects.
    let _most = all.objects.len();
    match all.objects.index_of(id) {
        Some(i) => if made_at(all.made, i) {
            Some(all.statics.len() as u64 + i as u64)
        } else {
            None
        },
        None => match all.statics.get_index_of(&id) {
            Some(k) => Some(k as u64),
            None => None,
        },
    }
}

/// Tells whether a slot names an object.
#[tactic(auto, unfolding(crate::specs::Objects::names_object))]
pub fn names_object(value: SlotValue) -> bool
    ensures { result ≡ names_object value }
{
    value.kind.is_reference() && value.value != 0
}

/// Appends the lines that make the slots of object n name the objects that they name in the dump, if any is named. Fails if an
/// allocation fails.
#[tactic(auto, unfolding(crate::specs::Objects::links_of))]
pub(crate) fn push_links(
    lines: &mut Lines,
    all: &Objects<'_, '_>,
    n: u64,
    values: &[SlotValue],
) -> Result<(), AllocError>
    ensures { OnOk result (lines.new
        ≡ lines.old ++ lines_of (links_of (objects_told all.now) n values.now)) }
{
    if !any_names_object(values) {
        return Ok(());
    }
    push_fetch(lines, n, MADE)?;
    push_references(lines, all, values)
}

// Tells whether a slot names an object.
fn any_names_object(values: &[SlotValue]) -> bool
    ensures { result ≡ list_any names_object values.now }
{
    for value in values {
        if names_object(*value) {
            return true;
        }
    }
    false
}

// Appends the lines that make slots name the objects that they name in the dump.
fn push_references(
    lines: &mut Lines,
    all: &Objects<'_, '_>,
    values: &[SlotValue],
) -> Result<(), AllocError>
    ensures { OnOk result (lines.new
        ≡ lines.old ++ lines_of (flat_map (reference_events (objects_told all.now)) values.now)) }
{
    for value in values {
        push_reference(lines, all, *value)?;
    }
    Ok(())
}

// Appends the lines that make a slot name the object that it names in the dump, if that is made.
#[tactic(auto, unfolding(crate::specs::Objects::reference_events))]
fn push_reference(
    lines: &mut Lines,
    all: &Objects<'_, '_>,
    value: SlotValue,
) -> Result<(), AllocError>
    ensures { OnOk result (lines.new
        ≡ lines.old ++ lines_of (reference_events (objects_told all.now) value)) }
{
    if !names_object(value) {
        return Ok(());
    }
    match number_of(all, value.value) {
        Some(n) => {
            push_fetch(lines, n, NAMED)?;
            lines.push(&Event::Store {
                m: 0,
                target: MADE,
                slot: value.slot,
                source: NAMED,
            })
        }
        None => Ok(()),
    }
}

/// Returns the event that makes an object, if it is made.
#[tactic(auto, unfolding(crate::specs::Objects::making_event))]
pub fn making_event(plan: &Plan<'_>, sub: &SubRecord<'_>) -> Option<Event>
    ensures event { result ≡ making_event plan.now (sub_record sub.now) }
    ensures line { IfSome result HasLine }
{
    match sub {
        SubRecord::Instance(instance) => instance_event(plan, instance.class),
        SubRecord::ObjectArray(array) => array_event(plan, array.class, array.count),
        SubRecord::PrimArray(array) => if array.kind.is_reference() {
            None
        } else {
            Some(Event::NewPrim {
                m: 0,
                r: MADE,
                kind: array.kind,
                len: (array.count as u64).min(plan.elements),
            })
        },
        SubRecord::Root(_) => None,
        SubRecord::Class(_) => None,
    }
}

// Returns the event that makes an instance, if its class has a number.
fn instance_event(plan: &Plan<'_>, id: u64) -> Option<Event>
    ensures event { result
        ≡ option_and_then (instance_made plan.now) (index_of nat_eq plan.now.kinds id) }
    ensures line { IfSome result HasLine }
{
    match plan.number(id) {
        Some(class) => if plan.classes.is_instance(class) {
            Some(Event::New {
                m: 0,
                r: MADE,
                class,
            })
        } else {
            None
        },
        None => None,
    }
}

// Returns the event that makes an array of references, if its class has a number.
fn array_event(plan: &Plan<'_>, id: u64, count: u32) -> Option<Event>
    ensures event { result
        ≡ option_and_then (array_made plan.now count) (index_of nat_eq plan.now.kinds id) }
    ensures line { IfSome result HasLine }
{
    match plan.number(id) {
        Some(class) => if plan.classes.is_array(class) {
            Some(Event::NewArray {
                m: 0,
                r: MADE,
                class,
                len: (count as u64).min(plan.elements),
            })
        } else {
            None
        },
        None => None,
    }
}

// Appends the lines that make object n by an event, write its values and keep it.
pub(crate) fn push_made(
    lines: &mut Lines,
    n: u64,
    event: &Event,
    values: &[SlotValue],
) -> Result<(), AllocError>
    requires { HasLine event.now }
    ensures { OnOk result (lines.new ≡ lines.old
        ++ lines_of (made_events n values.now (Some event.now))) }
{
    lines.push(event)?;
    push_values(lines, values)?;
    push_keep(lines, n)
}

// Appends the lines that write values.
fn push_values(lines: &mut Lines, values: &[SlotValue]) -> Result<(), AllocError>
    ensures { OnOk result (lines.new ≡ lines.old ++ lines_of (flat_map value_events values.now)) }
{
    for value in values {
        push_value(lines, *value)?;
    }
    Ok(())
}

// Appends the line that writes a value, unless it is 0 or names an object.
#[tactic(auto, unfolding(crate::specs::Objects::value_events))]
fn push_value(lines: &mut Lines, value: SlotValue) -> Result<(), AllocError>
    ensures { OnOk result (lines.new ≡ lines.old ++ lines_of (value_events value)) }
{
    if value.kind.is_reference() || value.value == 0 {
        return Ok(());
    }
    let shown = match value.kind {
        Kind::Boolean => 1,
        _ => value.value,
    };
    lines.push(&Event::Put {
        m: 0,
        target: MADE,
        slot: value.slot,
        value: shown,
    })
}

/// Appends the lines that make object n, and before it the arrays that keep it, if they aren't there. Fails if an allocation
/// fails.
#[tactic(auto, unfolding(crate::specs::Objects::object_events))]
pub(crate) fn push_object(
    lines: &mut Lines,
    values: &mut Vec<SlotValue>,
    all: &Objects<'_, '_>,
    n: u64,
    sub: &SubRecord<'_>,
) -> Result<(), AllocError>
    requires { index_map_len all.now.plan.now.kinds ≤ length all.now.plan.now.classes }
    ensures { OnOk result (lines.new ≡ lines.old
        ++ lines_of (object_events (objects_told all.now) n (sub_record sub.now))) }
{
    push_place(lines, all.plan.roots, n)?;
    match making_event(all.plan, sub) {
        Some(event) => {
            read_object(values, all.ids, all.plan, sub)?;
            push_made(lines, n, &event, values.as_slice())
        }
        None => Ok(()),
    }
}
