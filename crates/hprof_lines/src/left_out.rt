//! What of a dump a session leaves out.
ghost use Rattle.std.specs.Prelude.{◌≡◌, ◌≤◌, ◌<◌, List, count_by, false, length, slice_index_or, IfOk};
ghost use Rattle.indexmap.specs.IndexMap.{index_map_len};
ghost use Rattle.hprof_reader.specs.SubRecords.{sub_record};
ghost use Rattle.hprof_session.specs.Walks.{ItemTold, item_told, left};
ghost use Rattle.hprof_lines.specs.LeftOut.{both_left_out, count_of, cuts_of, is_lost, is_root_lost, left_out_from, left_out_if, left_out_in, left_out_of_dump, lost_fields, lost_fields_of, none_left_out};
ghost use Rattle.hprof_lines.specs.Objects.{objects_told};
ghost use Rattle.hprof_lines.specs.Passes.{IsWhole, next_place};
ghost use Rattle.hprof_lines.specs.Sessions.{told_objects};

use crate::objects::{Objects, made_at, names_object, number_of};
use crate::passes::{is_turn, made_objects};
use crate::session::static_ids;
use crate::slots::{kinds_of, read_object};
use crate::values::SlotValue;
use hprof_plan::{Plan, RootFound};
use hprof_reader::SubRecord;
use hprof_session::{Item, Walk, item_at};
use id_table::IdTable;
use std::alloc::{AllocError, Global};

/// How much of a dump its session leaves out.
#[derive(Clone, Copy, PartialEq, Eq, Debug)]
pub struct LeftOut {
    /// Arrays that are cut to 1,024 elements.
    pub arrays: u64,
    /// Objects that aren't made: their class has no number, or they have no place.
    pub objects: u64,
    /// References of objects to what isn't made.
    pub references: u64,
    /// Roots that name what isn't made.
    pub roots: u64,
    /// Own fields of classes that have no slot, because an object has as many slots without them as it may have.
    pub fields: u64,
}

// Nothing.
const NONE: LeftOut = LeftOut {
    arrays: 0,
    objects: 0,
    references: 0,
    roots: 0,
    fields: 0,
};

/// Counts what of a dump the session that `write_session` puts out leaves out. Counts stay at 2^64 - 1 if they
/// come so far. Fails if an allocation fails. Walks over the dump twice.
pub fn count_left_out(
    alloc: Global,
    walk: Walk<'_>,
    plan: &Plan<'_>,
    objects: &IdTable,
    roots: &[RootFound],
) -> Result<LeftOut, AllocError>
    requires { index_map_len plan.now.kinds ≤ length plan.now.classes }
    ensures { (items : List ItemTold) → IsWhole (left walk.entry) items
        → IfOk result (λ r. r
        ≡ left_out_of_dump (told_objects plan.now walk.entry.ids objects.now.keys items) items
        roots.now) }
{
    let planned = plan.statics.as_slice();
    let statics = static_ids(alloc, planned)?;
    let before = statics.len() as u64;
    let made = made_objects(alloc, walk, plan, objects, before)?;
    let kept = made.as_slice();
    let all = Objects {
        plan,
        ids: walk.ids,
        objects,
        made: kept,
        statics: &statics,
    };
    let left = left_out_of_all(alloc, walk, &all)?;
    Ok(LeftOut {
        arrays: left.arrays,
        objects: left.objects,
        references: left.references,
        roots: lost_roots(&all, roots),
        fields: lost_fields(plan),
    })
}

// Returns how much of the objects of a dump is left out.
fn left_out_of_all(
    alloc: Global,
    walk: Walk<'_>,
    all: &Objects<'_, '_>,
) -> Result<LeftOut, AllocError>
    requires { index_map_len all.now.plan.now.kinds ≤ length all.now.plan.now.classes }
    ensures { (items : List ItemTold) → IsWhole (left walk.entry) items
        → IfOk result (λ r. r ≡ left_out_from (objects_told all.now) none_left_out 0 items) }
{
    let mut values = Vec::new(alloc);
    let mut so_far = NONE;
    let mut i = 0;
    let mut at = walk;
    'items: loop {
        match item_at(at) {
            Ok(Some(next)) => {
                let found = left_out_in(&mut values, all, i, &next.0)?;
                so_far = both_left_out(so_far, found.0);
                i = found.1;
                at = next.1;
            }
            Ok(None) => return Ok(so_far),
            Err(_) => return Ok(so_far),
        }
    }
}

// Returns what is left out of an item, if it is the object at place i, and the place of the next object.
fn left_out_in(
    values: &mut Vec<SlotValue>,
    all: &Objects<'_, '_>,
    i: usize,
    item: &Item<'_>,
) -> Result<(LeftOut, usize), AllocError>
    requires { index_map_len all.now.plan.now.kinds ≤ length all.now.plan.now.classes }
    ensures left { IfOk result
        (λ r. r.0 ≡ left_out_in (objects_told all.now) i (item_told item.now)) }
    ensures place { IfOk result
        (λ r. r.1 ≡ next_place all.now.objects.now.keys i (item_told item.now)) }
{
    match item {
        Item::Record(_) => Ok((NONE, i)),
        Item::Sub(sub) => if is_turn(all.objects, i, sub) {
            let left = left_out_of(values, all, i, sub)?;
            Ok((left, i + 1))
        } else {
            Ok((NONE, i))
        },
    }
}

// Returns what is left out of the object at place i.
fn left_out_of(
    values: &mut Vec<SlotValue>,
    all: &Objects<'_, '_>,
    i: usize,
    sub: &SubRecord<'_>,
) -> Result<LeftOut, AllocError>
    requires { index_map_len all.now.plan.now.kinds ≤ length all.now.plan.now.classes }
    ensures { IfOk result (λ r. r
        ≡ left_out_if (slice_index_or all.now.made.now i false) (objects_told all.now)
        (sub_record sub.now)) }
{
    if !made_at(all.made, i) {
        return Ok(LeftOut {
            arrays: 0,
            objects: 1,
            references: 0,
            roots: 0,
            fields: 0,
        });
    }
    read_object(values, all.ids, all.plan, sub)?;
    Ok(LeftOut {
        arrays: cuts_of(all.plan, sub),
        objects: 0,
        references: lost_in(all, values.as_slice()),
        roots: 0,
        fields: 0,
    })
}

// Returns 1 for an array that is cut.
fn cuts_of(plan: &Plan<'_>, sub: &SubRecord<'_>) -> u64
    ensures { result ≡ cuts_of plan.now (sub_record sub.now) }
{
    if plan.elements < count_of(sub) { 1 } else { 0 }
}

// Returns how many elements an array has.
fn count_of(sub: &SubRecord<'_>) -> u64
    ensures { result ≡ count_of (sub_record sub.now) }
{
    match sub {
        SubRecord::ObjectArray(array) => array.count as u64,
        SubRecord::PrimArray(array) => array.count as u64,
        SubRecord::Root(_) => 0,
        SubRecord::Class(_) => 0,
        SubRecord::Instance(_) => 0,
    }
}

// Counts the slots that name objects that aren't made.
fn lost_in(all: &Objects<'_, '_>, values: &[SlotValue]) -> u64
    ensures { result ≡ count_by (is_lost (objects_told all.now)) values.now }
{
    let mut count = 0;
    for value in values {
        if is_lost(all, *value) {
            count += 1;
        }
    }
    count
}

// Tells whether a slot names an object that isn't made.
fn is_lost(all: &Objects<'_, '_>, value: SlotValue) -> bool
    ensures { result ≡ is_lost (objects_told all.now) value }
{
    if !names_object(value) {
        return false;
    }
    number_of(all, value.value).is_none()
}

// Returns what is left out in one place and in another.
fn both_left_out(a: LeftOut, b: LeftOut) -> LeftOut
    ensures { result ≡ both_left_out a b }
{
    LeftOut {
        arrays: a.arrays.saturating_add(b.arrays),
        objects: a.objects.saturating_add(b.objects),
        references: a.references.saturating_add(b.references),
        roots: a.roots.saturating_add(b.roots),
        fields: a.fields.saturating_add(b.fields),
    }
}

// Counts the roots that name what isn't made.
fn lost_roots(all: &Objects<'_, '_>, roots: &[RootFound]) -> u64
    ensures { result ≡ count_by (is_root_lost (objects_told all.now)) roots.now }
{
    let mut count = 0;
    for root in roots {
        if is_root_lost(all, *root) {
            count += 1;
        }
    }
    count
}

// Tells whether a root names what isn't made.
fn is_root_lost(all: &Objects<'_, '_>, root: RootFound) -> bool
    ensures { result ≡ is_root_lost (objects_told all.now) root }
{
    number_of(all, root.id).is_none()
}

// Counts the own fields of classes that have no slot, as far as 64 bits go.
#[tactic(auto, unfolding(crate::specs::LeftOut::lost_fields))]
fn lost_fields(plan: &Plan<'_>) -> u64
    requires { index_map_len plan.now.kinds ≤ length plan.now.classes }
    ensures { result ≡ lost_fields plan.now (index_map_len plan.now.kinds) }
{
    let mut count: u64 = 0;
    for k in 0..plan.kinds.len() as u64 {
        count = count.saturating_add(lost_fields_of(plan, k));
    }
    count
}

// Returns how many own fields of class k have no slot.
fn lost_fields_of(plan: &Plan<'_>, k: u64) -> u64
    requires { k < length plan.now.classes }
    ensures { result ≡ lost_fields_of plan.now k }
{
    (kinds_of(plan, k).len() as u64).saturating_sub(plan.classes.field_count(k))
}
