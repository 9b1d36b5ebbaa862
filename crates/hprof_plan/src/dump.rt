//! What a first walk over a dump finds: its names, classes, objects and roots.
ghost use Rattle.std.specs.Prelude.{◌≡◌, ◌+◌, ◌<◌, ◌≤◌, ◌^◌, ◌++◌, nat_eq, IfOk, OnOk, length};
ghost use Rattle.std.specs.Option.{option_to_list};
ghost use Rattle.indexmap.specs.IndexMap.{insert_all as insert_entries};
ghost use Rattle.indexmap.specs.IndexSet.{insert_all as insert_keys};
ghost use Rattle.hprof_session.specs.Surveys.{bytes_left};
ghost use Rattle.hprof_session.specs.Walks.{item_told, left};
ghost use Rattle.hprof_plan.specs.Items.{array_class_of, class_entry, load_of, name_of, object_of, root_of};
ghost use Rattle.hprof_plan.specs.Tables.{classes_told, names_told};
ghost use Rattle.hprof_plan.specs.Finds.{Finds, IsEmptyFound, Notes};

use crate::items::{RootFound, array_class_of, class_of, load_of, name_of, object_of, root_of};
use heap_class::IdSize;
use hprof_reader::{ClassDump, Fault};
use hprof_session::{Item, Walk, item_at};
use id_table::IdTable;
use indexmap::{IndexMap, IndexSet};
use std::alloc::{AllocError, Global};

/// What a dump has.
#[derive(Drop)]
pub struct Found<'a> {
    /// The size of identifiers.
    pub ids: IdSize,
    /// The bytes of each name, by its id.
    pub names: IndexMap<u64, &'a [u8]>,
    /// The id of the name of each class, by the class's id.
    pub loads: IndexMap<u64, u64>,
    /// The classes, by their ids.
    pub classes: IndexMap<u64, ClassDump<'a>>,
    /// The ids of the classes of arrays of references.
    pub array_classes: IndexSet<u64>,
    /// The ids of objects, in the order of the dump, each once.
    pub objects: IdTable,
    /// How many objects have an id that another object has.
    pub again: u64,
    /// The roots, in the order of the dump.
    pub roots: Vec<RootFound>,
    /// The first fault, if the walk didn't come to the end.
    pub fault: Option<Fault>,
    /// The number of bytes that were left there.
    pub left: u64,
}

/// Walks over what is left of a dump, to its end or the first fault. Fails if an allocation fails.
pub fn find<'a>(alloc: Global, walk: Walk<'a>) -> Result<Found<'a>, AllocError>
    requires { bytes_left (left walk) < 2 ^ 64 }
    ensures { IfOk result (Finds (left walk.entry)) }
{
    let mut found = find_loosely(alloc, walk)?;
    found.objects.fit()?;
    Ok(found)
}

// Walks over what is left of a dump, to its end or the first fault. The table of objects may have room for more.
fn find_loosely<'a>(alloc: Global, walk: Walk<'a>) -> Result<Found<'a>, AllocError>
    requires { bytes_left (left walk) < 2 ^ 64 }
    ensures { IfOk result (Finds (left walk.entry)) }
{
    let size = size_of(walk);
    let mut found = none_found(alloc, walk.ids);
    let mut at = walk;
    for _ in 0..size {
        match item_at(at) {
            Ok(Some(next)) => {
                note(&mut found, next.0)?;
                at = next.1;
            }
            Ok(None) => return Ok(found),
            Err(fault) => {
                found.fault = Some(fault);
                found.left = size_of(at);
                return Ok(found);
            }
        }
    }
    Ok(found)
}

// Returns how many bytes are left.
fn size_of(walk: Walk<'_>) -> u64
    ensures { result ≡ bytes_left (left walk.entry) }
{
    walk.segment.len() as u64 + walk.rest.len() as u64
}

// Returns what is found in no items.
fn none_found<'a>(alloc: Global, ids: IdSize) -> Found<'a>
    ensures { IsEmptyFound ids result }
{
    Found {
        ids,
        names: IndexMap::new(alloc),
        loads: IndexMap::new(alloc),
        classes: IndexMap::new(alloc),
        array_classes: IndexSet::new(alloc),
        objects: IdTable::new(alloc),
        again: 0,
        roots: Vec::new(alloc),
        fault: None,
        left: 0,
    }
}

// Notes what an item tells.
fn note<'a>(found: &mut Found<'a>, item: Item<'a>) -> Result<(), AllocError>
    requires { found.old.again + 1 < 2 ^ 64 }
    ensures { OnOk result (Notes (item_told item.entry) found.old found.new) }
{
    note_name(found.ids, &mut found.names, item)?;
    note_load(found.ids, &mut found.loads, item)?;
    note_class(&mut found.classes, item)?;
    note_array_class(&mut found.array_classes, item)?;
    note_object(&mut found.objects, &mut found.again, item)?;
    note_root(&mut found.roots, item)
}

// Notes the name in an item.
fn note_name<'a>(
    ids: IdSize,
    names: &mut IndexMap<u64, &'a [u8]>,
    item: Item<'a>,
) -> Result<(), AllocError>
    ensures { OnOk result
        (names_told names.new.entries
        ≡ insert_entries nat_eq (names_told names.old.entries)
        (option_to_list (name_of ids (item_told item.entry)))) }
{
    match name_of(ids, item) {
        Some((id, name)) => {
            names.insert(id, name)?;
            Ok(())
        }
        None => Ok(()),
    }
}

// Notes the id of the name of a class in an item.
fn note_load(ids: IdSize, loads: &mut IndexMap<u64, u64>, item: Item<'_>) -> Result<(), AllocError>
    ensures { OnOk result
        (loads.new.entries
        ≡ insert_entries nat_eq loads.old.entries
        (option_to_list (load_of ids (item_told item.entry)))) }
{
    match load_of(ids, item) {
        Some((class, name)) => {
            loads.insert(class, name)?;
            Ok(())
        }
        None => Ok(()),
    }
}

// Notes the class in an item.
fn note_class<'a>(
    classes: &mut IndexMap<u64, ClassDump<'a>>,
    item: Item<'a>,
) -> Result<(), AllocError>
    ensures { OnOk result
        (classes_told classes.new.entries
        ≡ insert_entries nat_eq (classes_told classes.old.entries)
        (option_to_list (class_entry (item_told item.entry)))) }
{
    match class_of(item) {
        Some(class) => {
            classes.insert(class.head.id, class)?;
            Ok(())
        }
        None => Ok(()),
    }
}

// Notes the class of the array of references in an item.
fn note_array_class(array_classes: &mut IndexSet<u64>, item: Item<'_>) -> Result<(), AllocError>
    ensures { OnOk result
        (array_classes.new.keys
        ≡ insert_keys nat_eq array_classes.old.keys
        (option_to_list (array_class_of (item_told item.entry)))) }
{
    match array_class_of(item) {
        Some(class) => {
            array_classes.insert(class)?;
            Ok(())
        }
        None => Ok(()),
    }
}

// Notes the object in an item. Counts it, if another object has its id.
fn note_object(objects: &mut IdTable, again: &mut u64, item: Item<'_>) -> Result<(), AllocError>
    requires { again.old + 1 < 2 ^ 64 }
    ensures objects { OnOk result
        (objects.new.keys
        ≡ insert_keys nat_eq objects.old.keys (option_to_list (object_of (item_told item.entry)))) }
    ensures again { OnOk result
        (length objects.new.keys + again.new
        ≡ length objects.old.keys + again.old + length
        (option_to_list (object_of (item_told item.entry)))) }
    ensures few { again.new ≤ again.old + 1 }
{
    match object_of(item) {
        Some(id) => {
            if !objects.insert(id)? {
                *again += 1;
            }
            Ok(())
        }
        None => Ok(()),
    }
}

// Notes the root in an item.
fn note_root(roots: &mut Vec<RootFound>, item: Item<'_>) -> Result<(), AllocError>
    ensures { OnOk result
        (roots.new.items ≡ roots.old.items ++ option_to_list (root_of (item_told item.entry))) }
{
    match root_of(item) {
        Some(root) => {
            roots.push(root)?;
            Ok(())
        }
        None => Ok(()),
    }
}
