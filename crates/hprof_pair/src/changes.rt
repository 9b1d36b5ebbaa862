//! The lines that write the slots of objects of the second dump.
ghost use Rattle.std.specs.Prelude.{◌≡◌, ◌≤◌, ◌<◌, ◌++◌, flat_map, length, nat_eq, slice_index_or, OnOk};
ghost use Rattle.std.specs.Option.{option_eq};
ghost use Rattle.indexmap.specs.IndexMap.{index_map_len};
ghost use Rattle.hprof_session.specs.Places.{lines_of};
ghost use Rattle.hprof_pair.specs.Changes.{change_events, changed, changes_from, differs, held, named_events, slot_events, slots_events, unset, values_before};
ghost use Rattle.hprof_pair.specs.Pairs.{pair_told};

use crate::pair::Pair;
use heap_class::Kind;
use heap_step::Event;
use hprof_lines::SlotValue;
use hprof_session::{MADE, push_fetch};
use session_lines::Lines;
use std::alloc::{AllocError, Global};

// The register of an object that a slot is to name.
const NAMED: u64 = 6;

/// Room for the values of an object: those before, those now, and those that differ.
#[derive(Drop)]
pub(crate) struct Changes {
    before: Vec<SlotValue>,
    now: Vec<SlotValue>,
    changed: Vec<SlotValue>,
}

impl Changes {
    /// Creates room for no values.
    pub(crate) fn new(alloc: Global) -> Changes {
        Changes {
            before: Vec::new(alloc),
            now: Vec::new(alloc),
            changed: Vec::new(alloc),
        }
    }
}

/// Appends the lines that write the slots of object n of the second dump that differ, if it stayed or was made. Fails if an
/// allocation fails.
#[tactic(auto, unfolding(crate::specs::Changes::change_events))]
pub(crate) fn push_changes(
    lines: &mut Lines,
    changes: &mut Changes,
    pair: &Pair<'_, '_, '_>,
    n: u64,
) -> Result<(), AllocError>
    requires first { index_map_len pair.now.first.all.plan.now.kinds
        ≤ length pair.now.first.all.plan.now.classes }
    requires second { index_map_len pair.now.second.all.plan.now.kinds
        ≤ length pair.now.second.all.plan.now.classes }
    ensures { OnOk result (lines.new ≡ lines.old ++ lines_of (change_events (pair_told pair.now)
        n)) }
{
    match pair.heap_number(n) {
        Some(k) => {
            read_before(&mut changes.before, pair, k)?;
            pair.second.read_values(&mut changes.now, n)?;
            let (before, now) = (changes.before.as_slice(), changes.now.as_slice());
            put_changed(&mut changes.changed, pair, before, now)?;
            push_slots(lines, pair, k, changes.changed.as_slice())
        }
        None => Ok(()),
    }
}

// Puts the values that an object with this number held in the first dump instead of those given: none, if it is new.
fn read_before(
    before: &mut Vec<SlotValue>,
    pair: &Pair<'_, '_, '_>,
    k: u64,
) -> Result<(), AllocError>
    requires { index_map_len pair.now.first.all.plan.now.kinds
        ≤ length pair.now.first.all.plan.now.classes }
    ensures { OnOk result (before.new.items ≡ values_before (pair_told pair.now) k) }
{
    before.clear();
    if k < pair.first.count() {
        return pair.first.read_values(before, k);
    }
    Ok(())
}

// Puts those of these values that differ from the values before instead of those given.
fn put_changed(
    changed: &mut Vec<SlotValue>,
    pair: &Pair<'_, '_, '_>,
    before: &[SlotValue],
    values: &[SlotValue],
) -> Result<(), AllocError>
    ensures { OnOk result (changed.new.items
        ≡ changes_from (pair_told pair.now) before.now 0 values.now) }
{
    changed.clear();
    for (i, value) in values.iter().enumerate() {
        add_changed(changed, pair, value_before(before, i, *value), *value)?;
    }
    Ok(())
}

// Adds a value, if its slot held another.
fn add_changed(
    values: &mut Vec<SlotValue>,
    pair: &Pair<'_, '_, '_>,
    old: SlotValue,
    value: SlotValue,
) -> Result<(), AllocError>
    ensures { OnOk result
        (values.new.items ≡ values.old.items ++ changed (pair_told pair.now) old value) }
{
    if differs(pair, old, value) {
        values.push(value)?;
    }
    Ok(())
}

// Tells whether a slot holds another value, or names another object, in the second dump than in the first.
#[tactic(auto, unfolding(crate::specs::Changes::differs))]
fn differs(pair: &Pair<'_, '_, '_>, old: SlotValue, value: SlotValue) -> bool
    ensures { result ≡ differs (pair_told pair.now) old value }
{
    if value.kind.is_reference() {
        return !is_same_number(pair.first_named(old), pair.second_named(value));
    }
    held(value.kind, old.value) != held(value.kind, value.value)
}

// Tells whether two numbers are the same, or none both times.
fn is_same_number(a: Option<u64>, b: Option<u64>) -> bool
    ensures { result ≡ option_eq nat_eq a b }
{
    match (a, b) {
        (Some(a), Some(b)) => a == b,
        (None, None) => true,
        _ => false,
    }
}

// Returns what a slot of this kind holds for a value of the dump: a Boolean has 0 and 1.
fn held(kind: Kind, value: u64) -> u64
    ensures { result ≡ held kind value }
{
    match kind {
        Kind::Boolean => value.min(1),
        _ => value,
    }
}

// Returns the value before at place i, or that of a slot of a new object.
fn value_before(before: &[SlotValue], i: usize, value: SlotValue) -> SlotValue
    ensures { result ≡ slice_index_or before.now i (unset value) }
{
    match before.get(i) {
        Some(old) => *old,
        None => SlotValue {
            slot: value.slot,
            kind: value.kind,
            value: 0,
        },
    }
}

// Appends the lines that write these slots of object k, if there are any.
fn push_slots(
    lines: &mut Lines,
    pair: &Pair<'_, '_, '_>,
    k: u64,
    values: &[SlotValue],
) -> Result<(), AllocError>
    ensures { OnOk result (lines.new
        ≡ lines.old ++ lines_of (slots_events (pair_told pair.now) k values.now)) }
{
    if values.is_empty() {
        return Ok(());
    }
    push_fetch(lines, k, MADE)?;
    push_each(lines, pair, values)
}

// Appends the lines that write these slots of the object of register 5.
fn push_each(
    lines: &mut Lines,
    pair: &Pair<'_, '_, '_>,
    values: &[SlotValue],
) -> Result<(), AllocError>
    ensures { OnOk result (lines.new
        ≡ lines.old ++ lines_of (flat_map (slot_events (pair_told pair.now)) values.now)) }
{
    for value in values {
        push_slot(lines, pair, *value)?;
    }
    Ok(())
}

// Appends the lines that write a slot of the object of register 5.
#[tactic(auto, unfolding(crate::specs::Changes::slot_events))]
fn push_slot(lines: &mut Lines, pair: &Pair<'_, '_, '_>, value: SlotValue) -> Result<(), AllocError>
    ensures { OnOk result (lines.new
        ≡ lines.old ++ lines_of (slot_events (pair_told pair.now) value)) }
{
    if value.kind.is_reference() {
        return push_named(lines, value.slot, pair.second_named(value));
    }
    lines.push(&Event::Put {
        m: 0,
        target: MADE,
        slot: value.slot,
        value: held(value.kind, value.value),
    })
}

// Appends the lines that make a slot of the object of register 5 name this object or none.
fn push_named(lines: &mut Lines, slot: u64, number: Option<u64>) -> Result<(), AllocError>
    ensures { OnOk result (lines.new ≡ lines.old ++ lines_of (named_events slot number)) }
{
    match number {
        Some(k) => push_fetch(lines, k, NAMED)?,
        None => lines.push(&Event::Clear { m: 0, r: NAMED })?,
    }
    lines.push(&Event::Store {
        m: 0,
        target: MADE,
        slot,
        source: NAMED,
    })
}
