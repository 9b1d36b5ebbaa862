//! The values of the slots of objects.
ghost use Rattle.std.specs.Prelude.{◌≡◌, ◌<◌, ◌≤◌, ◌++◌, length, OnOk};
ghost use Rattle.indexmap.specs.IndexMap.{index_map_len};
ghost use Rattle.hprof_reader.specs.SubRecords.{sub_record};
ghost use Rattle.hprof_lines.specs.Slots.{base_of, instance_values, kinds_of, object_values};

use crate::values::{SlotValue, add_elements, add_fields};
use heap_class::{IdSize, Kind};
use hprof_plan::Plan;
use hprof_reader::SubRecord;
use std::alloc::AllocError;

/// Puts the values of the slots of an object that are kept instead of those given. Fails if an allocation fails.
#[tactic(auto, unfolding(crate::specs::Slots::object_values))]
pub fn read_object(
    slots: &mut Vec<SlotValue>,
    ids: IdSize,
    plan: &Plan<'_>,
    sub: &SubRecord<'_>,
) -> Result<(), AllocError>
    requires { index_map_len plan.now.kinds ≤ length plan.now.classes }
    ensures { OnOk result (slots.new.items ≡ object_values plan.now ids (sub_record sub.now)) }
{
    slots.clear();
    match sub {
        SubRecord::Instance(instance) => match plan.number(instance.class) {
            Some(class) => add_instance(slots, ids, plan, class, instance.values),
            None => Ok(()),
        },
        SubRecord::ObjectArray(array) => {
            let count = (array.count as u64).min(plan.elements);
            add_elements(slots, ids, Kind::Object, count, array.elements)
        }
        SubRecord::PrimArray(array) => {
            let count = (array.count as u64).min(plan.elements);
            add_elements(slots, ids, array.kind, count, array.elements)
        }
        SubRecord::Root(_) => Ok(()),
        SubRecord::Class(_) => Ok(()),
    }
}

// Adds the values of an instance.
fn add_instance(
    slots: &mut Vec<SlotValue>,
    ids: IdSize,
    plan: &Plan<'_>,
    class: u64,
    bytes: &[u8],
) -> Result<(), AllocError>
    requires { class < length plan.now.classes }
    ensures { OnOk result (slots.new.items
        ≡ slots.old.items ++ instance_values plan.now ids class bytes.now) }
{
    let mut at = Some(class);
    let mut rest = bytes;
    for _ in 0..plan.classes.len() {
        match at {
            Some(k) => {
                let kept = plan.classes.field_count(k);
                let base = base_of(plan, class, k);
                rest = add_fields(slots, ids, kinds_of(plan, k), kept, base, rest)?;
                at = plan.classes.sup(k);
            }
            None => return Ok(()),
        }
    }
    Ok(())
}

// Returns the first slot of the own fields of a class in an instance.
fn base_of(plan: &Plan<'_>, instance: u64, class: u64) -> u64
    requires instance { instance < length plan.now.classes }
    requires class { class < length plan.now.classes }
    ensures value { result ≡ base_of plan.now instance class }
    ensures limit { result ≤ 64 }
{
    let all = plan.classes.slots(instance).len() as u64;
    all.saturating_sub(plan.classes.slots(class).len() as u64)
}

// Returns the kinds of the own fields of a class in its record.
pub(crate) fn kinds_of<'p>(plan: &'p Plan<'_>, class: u64) -> &'p [Kind]
    ensures { result.now ≡ kinds_of plan.now class }
{
    match plan.kinds.get_index(class as usize) {
        Some((_, kinds)) => kinds.as_slice(),
        None => &[],
    }
}
