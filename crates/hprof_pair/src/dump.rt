//! The objects of a dump, by their numbers: first those of static fields, then those of the dump in its order.
ghost use Rattle.std.specs.Prelude.{◌≡◌, ◌≤◌, ◌<◌, ◌++◌, List, length, map, option_map, IfOk, OnOk};
ghost use Rattle.indexmap.specs.IndexMap.{index_map_len};
ghost use Rattle.hprof_reader.specs.SubRecords.{sub_record};
ghost use Rattle.hprof_session.specs.Walks.{ItemTold, item_told, left};
ghost use Rattle.hprof_lines.specs.Passes.{IsWhole};
ghost use Rattle.hprof_lines.specs.Values.{statics_from};
ghost use Rattle.hprof_pair.specs.Dumps.{count_of, dump_told, is_static, is_sub_made, shape_of, static_fields, sub_in, sub_of, subs_from, values_of};

use crate::shapes::{Shape, shape_made};
use hprof_lines::{Objects, SlotValue, add_statics, is_turn, making_event, read_object};
use hprof_reader::SubRecord;
use hprof_session::{Item, Walk, item_at};
use id_table::IdTable;
use std::alloc::{AllocError, Global};

/// The objects of a dump.
#[derive(Clone, Copy)]
pub struct Dump<'s, 'a> {
    /// The classes, and the ids of the objects.
    pub all: Objects<'s, 'a>,
    /// The sub-records of the objects in the order of their ids.
    pub subs: &'s [SubRecord<'a>],
}

/// Returns the sub-records of the objects with these ids in a dump, in order, each once. Fails if an allocation fails.
pub(crate) fn collect_subs<'a>(
    alloc: Global,
    walk: Walk<'a>,
    objects: &IdTable,
) -> Result<Vec<SubRecord<'a>>, AllocError>
    ensures { (items : List ItemTold) → IsWhole (left walk.entry) items
        → IfOk result (λ subs. map sub_record subs.items ≡ subs_from objects.now.keys 0 items) }
{
    let mut subs = Vec::new(alloc);
    let mut at = walk;
    'items: loop {
        match item_at(at) {
            Ok(Some(next)) => {
                collect_sub(&mut subs, objects, next.0)?;
                at = next.1;
            }
            Ok(None) => return Ok(subs),
            Err(_) => return Ok(subs),
        }
    }
}

// Collects the sub-record of an item, if it is the next object.
fn collect_sub<'a>(
    subs: &mut Vec<SubRecord<'a>>,
    objects: &IdTable,
    item: Item<'a>,
) -> Result<(), AllocError>
    ensures { OnOk result (map sub_record subs.new.items ≡ map sub_record subs.old.items
        ++ sub_in objects.now.keys (length (map sub_record subs.old.items))
        (item_told item.entry)) }
{
    if let Item::Sub(sub) = item {
        if is_turn(objects, subs.len(), &sub) {
            subs.push(sub)?;
        }
    }
    Ok(())
}

impl<'s, 'a> Dump<'s, 'a> {
    /// Returns how many objects have a number.
    pub(crate) fn count(&self) -> u64
        ensures value { result ≡ count_of (dump_told self.now) }
    {
        self.all.statics.len() as u64 + self.subs.len() as u64
    }

    /// Tells whether object n is one of static fields.
    pub(crate) fn is_static(&self, n: u64) -> bool
        ensures { result ≡ is_static (dump_told self.now) n }
    {
        n < self.all.statics.len() as u64
    }

    /// Returns the sub-record of object n, if it isn't one of static fields.
    pub(crate) fn sub(&self, n: u64) -> Option<&'s SubRecord<'a>>
        ensures { option_map (λ s. sub_record s.now) result ≡ sub_of (dump_told self.now) n }
    {
        let before = self.all.statics.len() as u64;
        self.subs.get(n.saturating_sub(before) as usize)
    }

    // Tells whether that object is made.
    fn is_sub_made(&self, n: u64) -> bool
        ensures { result ≡ is_sub_made (dump_told self.now) n }
    {
        let before = self.all.statics.len() as u64;
        match self.all.made.get(n.saturating_sub(before) as usize) {
            Some(is_made) => *is_made,
            None => false,
        }
    }

    /// Returns the class and size of object n, its class by the number in its plan, if it is made.
    #[tactic(auto, unfolding(crate::specs::Dumps::shape_of))]
    pub(crate) fn shape(&self, n: u64) -> Option<Shape>
        ensures { result ≡ shape_of (dump_told self.now) n }
    {
        let _most = self.all.statics.len();
        if self.is_static(n) {
            return Some(Shape::Instance(self.all.plan.kinds.len() as u64 + n));
        }
        if !self.is_sub_made(n) {
            return None;
        }
        let sub = self.sub(n)?;
        shape_made(making_event(self.all.plan, sub)?)
    }

    /// Puts the values of the slots of object n instead of those given. Fails if an allocation fails.
    #[tactic(auto, unfolding(crate::specs::Dumps::values_of))]
    pub(crate) fn read_values(&self, values: &mut Vec<SlotValue>, n: u64) -> Result<(), AllocError>
        requires { index_map_len self.now.all.plan.now.kinds
            ≤ length self.now.all.plan.now.classes }
        ensures { OnOk result (values.new.items ≡ values_of (dump_told self.now) n) }
    {
        values.clear();
        if self.is_static(n) {
            return self.add_static_values(values, n);
        }
        match self.sub(n) {
            Some(sub) => read_object(values, self.all.ids, self.all.plan, sub),
            None => Ok(()),
        }
    }

    // Adds the values of the object of static fields with this number.
    fn add_static_values(&self, values: &mut Vec<SlotValue>, n: u64) -> Result<(), AllocError>
        ensures { OnOk result (values.new.items
            ≡ values.old.items ++ statics_from 0 (static_fields (dump_told self.now) n)) }
    {
        match self.all.plan.statics.as_slice().get(n as usize) {
            Some(statics) => add_statics(values, statics.fields.as_slice()),
            None => Ok(()),
        }
    }
}
