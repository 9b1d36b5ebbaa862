//! How the objects of the first dump are found again in its heap, from the array of its roots on.
ghost use Rattle.std.specs.Prelude.{◌≡◌, ◌≤◌, ◌+◌, ◌++◌, [], flat_map, length, IfOk, OnOk};
ghost use Rattle.indexmap.specs.IndexMap.{index_map_len};
ghost use Rattle.hprof_lines.specs.Objects.{objects_told};
ghost use Rattle.hprof_lines.specs.Roots.{arrays_for, roots_named, with_room};
ghost use Rattle.hprof_pair.specs.Dumps.{dump_told};
ghost use Rattle.hprof_pair.specs.Ways.{AreWays, kind_ways, numbers_of, root_ways, slot_ways, with_way, with_ways};

use crate::dump::Dump;
use hprof_lines::{Objects, SlotValue, names_object, number_of, roots_named};
use hprof_plan::RootFound;
use indexmap::IndexSet;
use std::alloc::{AllocError, Global};

/// What names an object.
#[derive(Clone, Copy, PartialEq, Eq, Debug)]
pub enum Hold {
    /// A slot of an array of roots, which stands in a slot of the array of all roots: the number of this slot, and of that.
    Root(u64, u64),
    /// A slot of an object: the number of the object, and of the slot.
    Slot(u64, u64),
}

/// A way to an object.
#[derive(Clone, Copy, PartialEq, Eq, Debug)]
pub struct Way {
    /// The number of the object.
    pub number: u64,
    /// What names it.
    pub hold: Hold,
}

/// Ways to objects, one to each.
#[derive(Drop)]
pub(crate) struct Ways {
    pub(crate) found: IndexSet<u64>,
    pub(crate) ways: Vec<Way>,
}

/// Returns ways to each object that the roots of a dump reach. Fails if an allocation fails.
pub(crate) fn find_ways(
    alloc: Global,
    dump: &Dump<'_, '_>,
    roots: &[RootFound],
    tags: &[u8],
) -> Result<Ways, AllocError>
    requires { index_map_len dump.now.all.plan.now.kinds ≤ length dump.now.all.plan.now.classes }
    ensures ways { IfOk result (λ w. AreWays (dump_told dump.now)
        (root_ways (objects_told dump.now.all) roots.now 0 tags.now) w.ways.items) }
    ensures found { IfOk result (λ w. w.found.keys ≡ numbers_of w.ways.items) }
{
    let first = root_ways(alloc, &dump.all, roots, tags)?;
    let mut ways = none_found(alloc);
    add_ways(&mut ways, first.as_slice())?;
    let mut values = Vec::new(alloc);
    let mut next = Vec::new(alloc);
    for k in 0..usize::MAX {
        if k >= ways.ways.len() {
            return Ok(ways);
        }
        let number = ways.ways[k].number;
        dump.read_values(&mut values, number)?;
        put_ways_out(&mut next, &dump.all, number, values.as_slice())?;
        add_ways(&mut ways, next.as_slice())?;
    }
    Ok(ways)
}

// Returns the ways to the roots of a dump.
fn root_ways(
    alloc: Global,
    all: &Objects<'_, '_>,
    roots: &[RootFound],
    tags: &[u8],
) -> Result<Vec<Way>, AllocError>
    ensures { IfOk result (λ w. w.items ≡ root_ways (objects_told all.now) roots.now 0 tags.now) }
{
    let mut ways = Vec::new(alloc);
    let mut first = 0;
    for tag in tags {
        first = add_kind_ways(alloc, &mut ways, all, roots, first, *tag)?;
    }
    Ok(ways)
}

// Adds the ways to the roots of a kind, whose arrays stand from slot `first` on. Returns the slot after them.
fn add_kind_ways(
    alloc: Global,
    ways: &mut Vec<Way>,
    all: &Objects<'_, '_>,
    roots: &[RootFound],
    first: u64,
    tag: u8,
) -> Result<u64, AllocError>
    requires { first ≤ 1024 }
    ensures ways { OnOk result (ways.new.items ≡ ways.old.items
        ++ kind_ways first 0 (with_room first (roots_named (objects_told all.now) tag roots.now))) }
    ensures first { IfOk result (λ k. (k ≡ first
        + arrays_for (length (with_room first (roots_named (objects_told all.now) tag roots.now))))
        × (k ≤ 1024)) }
{
    let mut numbers = roots_named(alloc, all, tag, roots)?;
    numbers.truncate(((1024 - first) * 1024) as usize);
    add_root_ways(ways, first, numbers.as_slice())?;
    Ok(first + (numbers.len() as u64 + 1023) / 1024)
}

// Adds the ways to roots of a kind, which name these objects.
fn add_root_ways(ways: &mut Vec<Way>, first: u64, numbers: &[u64]) -> Result<(), AllocError>
    requires { first ≤ 1024 }
    ensures { OnOk result (ways.new.items ≡ ways.old.items ++ kind_ways first 0 numbers.now) }
{
    for (i, number) in numbers.iter().enumerate() {
        let hold = Hold::Root(first + i as u64 / 1024, i as u64 % 1024);
        let number = *number;
        ways.push(Way { number, hold })?;
    }
    Ok(())
}

// Returns no ways.
fn none_found(alloc: Global) -> Ways
    ensures ways { result.ways.items ≡ [] }
    ensures found { result.found.keys ≡ [] }
{
    Ways {
        found: IndexSet::new(alloc),
        ways: Vec::new(alloc),
    }
}

// Adds those of these ways that lead to an object to which none leads.
fn add_ways(ways: &mut Ways, more: &[Way]) -> Result<(), AllocError>
    requires { ways.old.found.keys ≡ numbers_of ways.old.ways.items }
    ensures ways { OnOk result (ways.new.ways.items ≡ with_ways ways.old.ways.items more.now) }
    ensures found { OnOk result (ways.new.found.keys ≡ numbers_of ways.new.ways.items) }
{
    for way in more {
        add_way(ways, *way)?;
    }
    Ok(())
}

// Adds a way, if none leads where it leads.
fn add_way(ways: &mut Ways, way: Way) -> Result<(), AllocError>
    requires { ways.old.found.keys ≡ numbers_of ways.old.ways.items }
    ensures ways { OnOk result (ways.new.ways.items ≡ with_way ways.old.ways.items way) }
    ensures found { OnOk result (ways.new.found.keys ≡ numbers_of ways.new.ways.items) }
{
    if ways.found.contains(&way.number) {
        return Ok(());
    }
    ways.found.insert(way.number)?;
    ways.ways.push(way)?;
    Ok(())
}

// Puts the ways by all slots of object n, which has these values, instead of those given.
fn put_ways_out(
    ways: &mut Vec<Way>,
    all: &Objects<'_, '_>,
    n: u64,
    values: &[SlotValue],
) -> Result<(), AllocError>
    ensures { OnOk result
        (ways.new.items ≡ flat_map (slot_ways (objects_told all.now) n) values.now) }
{
    ways.clear();
    for value in values {
        add_slot_way(ways, all, n, *value)?;
    }
    Ok(())
}

// Adds the way by a slot of object n to the object that it names, if that is made.
#[tactic(auto, unfolding(crate::specs::Ways::slot_ways))]
fn add_slot_way(
    ways: &mut Vec<Way>,
    all: &Objects<'_, '_>,
    n: u64,
    value: SlotValue,
) -> Result<(), AllocError>
    ensures { OnOk result
        (ways.new.items ≡ ways.old.items ++ slot_ways (objects_told all.now) n value) }
{
    if !names_object(value) {
        return Ok(());
    }
    match number_of(all, value.value) {
        Some(number) => {
            let hold = Hold::Slot(n, value.slot);
            ways.push(Way { number, hold })?;
            Ok(())
        }
        None => Ok(()),
    }
}
