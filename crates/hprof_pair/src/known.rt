//! What is known of two dumps before their session is put out.
ghost use Rattle.std.specs.Prelude.{◌≡◌, ◌≤◌, List, length, map, take, IfOk};
ghost use Rattle.indexmap.specs.IndexMap.{index_map_len};
ghost use Rattle.heap_class.specs.Limits.{widest_classes};
ghost use Rattle.hprof_reader.specs.SubRecords.{sub_record};
ghost use Rattle.hprof_session.specs.Walks.{ItemTold, left};
ghost use Rattle.hprof_plan.specs.Plans.{IsPlan};
ghost use Rattle.hprof_lines.specs.Passes.{IsWhole, made_from};
ghost use Rattle.hprof_lines.specs.Sessions.{root_tags, static_ids};
ghost use Rattle.hprof_pair.specs.Dumps.{dump_told, subs_from};
ghost use Rattle.hprof_pair.specs.JoinedClasses.{classes_joined};
ghost use Rattle.hprof_pair.specs.JoinedSoFar.{AreJoined};
ghost use Rattle.hprof_pair.specs.KnownPairs.{IsKnown, dump_in_memory, pair_in_memory};
ghost use Rattle.hprof_pair.specs.Pairs.{pair_told};
ghost use Rattle.hprof_pair.specs.Ways.{AreWays, numbers_of, root_ways};

use crate::dump::{Dump, collect_subs};
use crate::joined_classes::{JoinedClasses, join_classes};
use crate::pair::Pair;
use crate::ways::{Ways, find_ways};
use heap_class::{IdSize, WIDEST_CLASSES};
use hprof_lines::{Objects, ROOT_TAGS, made_objects, static_ids};
use hprof_plan::{Found, Plan, find, plan_classes};
use hprof_reader::SubRecord;
use hprof_session::Walk;
use indexmap::IndexSet;
use std::alloc::{AllocError, Global};

/// What is found in a dump, the plan of its classes, and its objects.
#[derive(Drop)]
pub(crate) struct KnownDump<'a> {
    pub(crate) found: Found<'a>,
    pub(crate) plan: Plan<'a>,
    pub(crate) objects: KnownObjects<'a>,
}

/// The ids of the classes of a dump that have an object for their static fields, which objects are made, and their sub-records.
#[derive(Drop)]
pub(crate) struct KnownObjects<'a> {
    pub(crate) statics: IndexSet<u64>,
    pub(crate) made: Vec<bool>,
    pub(crate) subs: Vec<SubRecord<'a>>,
}

/// Two dumps of one program, and what is known of both.
#[derive(Clone, Copy)]
pub(crate) struct KnownPair<'s, 'a, 'b> {
    pub(crate) first: &'s KnownDump<'a>,
    pub(crate) second: &'s KnownDump<'b>,
    pub(crate) both: &'s KnownBoth,
}

/// Ways to the objects of the first of two dumps, and the classes of both.
#[derive(Drop)]
pub(crate) struct KnownBoth {
    pub(crate) ways: Ways,
    pub(crate) joined: JoinedClasses,
}

impl<'a> KnownDump<'a> {
    // Returns the objects of the dump, whose identifiers have this size.
    fn dump(&self, ids: IdSize) -> Dump<'_, 'a>
        ensures told { dump_told result ≡ dump_in_memory self.now ids }
        ensures plan { result.all.plan.now ≡ self.now.plan }
    {
        Dump {
            all: Objects {
                plan: &self.plan,
                ids,
                objects: &self.found.objects,
                made: self.objects.made.as_slice(),
                statics: &self.objects.statics,
            },
            subs: self.objects.subs.as_slice(),
        }
    }
}

impl<'s, 'a, 'b> KnownPair<'s, 'a, 'b> {
    /// Returns the pair of the dumps, whose identifiers have these sizes.
    pub(crate) fn pair(&self, before: IdSize, after: IdSize) -> Pair<'s, 'a, 'b>
        ensures told { pair_told result ≡ pair_in_memory self.now before after }
        ensures first { result.first.all.plan.now ≡ self.now.first.now.plan }
        ensures second { result.second.all.plan.now ≡ self.now.second.now.plan }
    {
        Pair {
            first: self.first.dump(before),
            second: self.second.dump(after),
            classes: self.both.joined.numbers.as_slice(),
            found: &self.both.ways.found,
        }
    }
}

/// Walks over a dump, and plans its classes, for arrays of at most this many elements. Fails if an allocation fails.
pub(crate) fn know<'a>(
    alloc: Global,
    elements: u64,
    walk: Walk<'a>,
) -> Result<KnownDump<'a>, AllocError>
    ensures { IfOk result (IsKnown elements (left walk.entry)) }
{
    let found = find(alloc, walk)?;
    let plan = plan_classes(alloc, WIDEST_CLASSES, elements, &found)?;
    // Its contract bounds the number of classes.
    let _number = plan.classes.len();
    let objects = know_objects(alloc, walk, &found, &plan)?;
    Ok(KnownDump {
        found,
        plan,
        objects,
    })
}

// Walks over a dump whose classes are planned.
fn know_objects<'a>(
    alloc: Global,
    walk: Walk<'a>,
    found: &Found<'a>,
    plan: &Plan<'a>,
) -> Result<KnownObjects<'a>, AllocError>
    ensures statics { IfOk result (λ o. o.statics.keys ≡ static_ids plan.now.statics.items) }
    ensures made { (items : List ItemTold) → IsWhole (left walk.entry) items
        → IfOk result (λ o. o.made.items
        ≡ made_from plan.now found.now.objects.keys (length o.statics.keys) 0 items) }
    ensures subs { (items : List ItemTold) → IsWhole (left walk.entry) items
        → IfOk result (λ o. map sub_record o.subs.items
        ≡ subs_from found.now.objects.keys 0 items) }
{
    let statics = static_ids(alloc, plan.statics.as_slice())?;
    let before = statics.len() as u64;
    let made = made_objects(alloc, walk, plan, &found.objects, before)?;
    let subs = collect_subs(alloc, walk, &found.objects)?;
    Ok(KnownObjects {
        statics,
        made,
        subs,
    })
}

/// Finds ways to the objects of the first of two dumps, and joins their classes. The identifiers of the first have this size. Fails
/// if an allocation fails.
pub(crate) fn know_both(
    alloc: Global,
    elements: u64,
    ids: IdSize,
    first: &KnownDump<'_>,
    second: &KnownDump<'_>,
) -> Result<KnownBoth, AllocError>
    requires kinds { index_map_len first.now.plan.kinds ≤ length first.now.plan.classes }
    requires first { IsPlan widest_classes elements first.now.found first.now.plan }
    requires second { IsPlan widest_classes elements second.now.found second.now.plan }
    ensures ways { IfOk result (λ b. AreWays (dump_in_memory first.now ids)
        (root_ways (dump_in_memory first.now ids).all first.now.found.roots.items 0 root_tags)
        b.ways.ways.items) }
    ensures found { IfOk result (λ b. b.ways.found.keys ≡ numbers_of b.ways.ways.items) }
    ensures joined { IfOk result (λ b. AreJoined first.now.plan.classes b.joined
        (classes_joined widest_classes first.now.plan.classes
        (take second.now.plan.roots second.now.plan.classes))) }
{
    let dump = first.dump(ids);
    let ways = find_ways(alloc, &dump, first.found.roots.as_slice(), &ROOT_TAGS)?;
    let joined = join_known(alloc, elements, first, second)?;
    Ok(KnownBoth { ways, joined })
}

// Returns the classes of two dumps in a heap that has those of the first.
fn join_known(
    alloc: Global,
    elements: u64,
    first: &KnownDump<'_>,
    second: &KnownDump<'_>,
) -> Result<JoinedClasses, AllocError>
    requires first { IsPlan widest_classes elements first.now.found first.now.plan }
    requires second { IsPlan widest_classes elements second.now.found second.now.plan }
    ensures { IfOk result (λ j. AreJoined first.now.plan.classes j
        (classes_joined widest_classes first.now.plan.classes
        (take second.now.plan.roots second.now.plan.classes))) }
{
    let plan = plan_classes(alloc, WIDEST_CLASSES, elements, &first.found)?;
    let Plan {
        classes,
        lines: _,
        kinds: _,
        statics: _,
        roots: _,
        elements: _,
    } = plan;
    let count = second.plan.roots;
    join_classes(alloc, WIDEST_CLASSES, classes, &second.plan.classes, count)
}
