//! What of the second dump a session leaves out.
ghost use Rattle.std.specs.Prelude.{◌≤◌, length};
ghost use Rattle.indexmap.specs.IndexMap.{index_map_len};

use crate::pair::Pair;
use crate::shapes::class_in;
use hprof_lines::{SlotValue, names_object};
use hprof_plan::RootFound;
use std::alloc::{AllocError, Global};

/// How much of the second dump a session of two leaves out.
#[derive(Clone, Copy)]
pub(crate) struct Lost {
    /// Classes of the dump that have a number in its plan, and none in the heap of both.
    pub(crate) classes: u64,
    /// Objects that aren't made.
    pub(crate) objects: u64,
    /// References to what isn't made.
    pub(crate) references: u64,
    /// Roots that name what isn't made.
    pub(crate) roots: u64,
}

/// Counts what of the second dump is left out. Fails if an allocation fails.
pub(crate) fn count_lost(
    alloc: Global,
    pair: &Pair<'_, '_, '_>,
    roots: &[RootFound],
) -> Result<Lost, AllocError>
    requires { index_map_len pair.now.second.all.plan.now.kinds
        ≤ length pair.now.second.all.plan.now.classes }
{
    let (mut objects, mut references) = (0u64, 0u64);
    let mut values = Vec::new(alloc);
    for n in 0..pair.second.count() {
        if pair.heap_number(n).is_none() {
            objects = objects.saturating_add(1);
        } else {
            pair.second.read_values(&mut values, n)?;
            references = references.saturating_add(lost_in(pair, values.as_slice()));
        }
    }
    let classes = lost_classes(pair);
    let roots = lost_roots(pair, roots);
    Ok(Lost {
        classes,
        objects,
        references,
        roots,
    })
}

// Counts the slots that name objects that aren't made.
fn lost_in(pair: &Pair<'_, '_, '_>, values: &[SlotValue]) -> u64 {
    let mut count: u64 = 0;
    for value in values {
        if names_object(*value) && pair.second_named(*value).is_none() {
            count = count.saturating_add(1);
        }
    }
    count
}

// Counts the classes of the dump that have no number in the heap.
fn lost_classes(pair: &Pair<'_, '_, '_>) -> u64 {
    let mut count: u64 = 0;
    for k in 0..pair.second.all.plan.kinds.len() {
        if class_in(pair.classes, k as u64).is_none() {
            count = count.saturating_add(1);
        }
    }
    count
}

// Counts the roots that name what isn't made.
fn lost_roots(pair: &Pair<'_, '_, '_>, roots: &[RootFound]) -> u64 {
    let mut count: u64 = 0;
    for root in roots {
        if pair.named_number(root.id).is_none() {
            count = count.saturating_add(1);
        }
    }
    count
}
