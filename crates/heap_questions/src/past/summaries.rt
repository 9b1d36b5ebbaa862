//! What is told of the regions of a retained state: a walk over the records, the newest first, from what is told of the current
//! ones.
ghost use Rattle.std.specs.Prelude.{◌≡◌, ◌+◌, ◌<◌, ◌≤◌, ℕ, None, Some, length, map, option_map, slice_index_or, slice_set, IfErr, IfOk, IfSome, if◌then◌else◌};
ghost use Rattle.heap_class.specs.declared.Refusal.TheVariants.{NoMemory};
ghost use Rattle.heap_region.specs.Limits.{cell_limit};
ghost use Rattle.heap_region.specs.Regions.{UsedRegion, used_at};
ghost use Rattle.heap_step.specs.declared.Undo.TheVariants.{Reclaim};
ghost use Rattle.heap_trail.specs.Trail.{retained, state_ago};
ghost use Rattle.heap_questions.specs.RegionSummaries.{HaveFew, all_live, one_fewer, summaries, summaries_before, summary_of, taken_out, with_dead_back};

use crate::past::standing::size_of;
use crate::region_counts::{RegionCounts, count_region};
use heap_class::Refusal;
use heap_region::{RegionView, Regions};
use heap_step::Undo;
use heap_trail::Machine;
use std::alloc::Global;

/// What is told of a region in use: the words of a cell, whether it waits to be swept, and its objects.
#[derive(Clone, Copy)]
pub struct RegionSummary {
    pub cell_size: u64,
    pub waits: bool,
    pub counts: RegionCounts,
}

/// Returns what is told of each region of the state of `ago` steps ago, in order of its number, and None of an empty one. Fails
/// with NoMemory if an allocation fails. Looks at each cell of the current state once, reads each record since that state once, and
/// goes over all regions once for each step since then that ended a cycle.
pub fn region_summaries(
    alloc: Global,
    machine: &Machine,
    ago: u64,
) -> Result<Vec<Option<RegionSummary>>, Refusal>
    requires { ago ≤ retained machine.now.trail }
    ensures told { IfOk result
        (λ all. all.items ≡ summaries (state_ago ago machine.now.trail).regions) }
    ensures few { IfOk result (λ all. HaveFew all.items) }
    ensures refused { IfErr result (λ e. e ≡ NoMemory) }
{
    // Its contract says that each retained state came from the one before it.
    let _place = machine.place();
    let mut all = summaries_now(alloc, machine.world().regions())?;
    for n in 0..ago {
        undo_step(&mut all, machine.record_ago(n));
    }
    Ok(all)
}

// Returns what is told of each region. Fails with NoMemory.
fn summaries_now(alloc: Global, regions: &Regions) -> Result<Vec<Option<RegionSummary>>, Refusal>
    ensures told { IfOk result (λ all. all.items ≡ summaries regions.now.regions) }
    ensures refused { IfErr result (λ e. e ≡ NoMemory) }
{
    let mut all = Vec::new(alloc);
    for region in 0..regions.count() {
        all.push(summary_at(regions, region))?;
    }
    Ok(all)
}

// Returns what is told of a region, or None if it is empty.
fn summary_at(regions: &Regions, region: u64) -> Option<RegionSummary>
    ensures { result ≡ option_map summary_of (used_at regions.now.regions region) }
{
    match regions.region(region) {
        Some(storage) => Some(RegionSummary {
            cell_size: regions.cell_size(region).unwrap_or(0),
            waits: regions.pending(region).unwrap_or(false),
            counts: count_region(&storage),
        }),
        None => None,
    }
}

// Changes what is told of each region to what was told before the step that left this record.
fn undo_step(all: &mut Vec<Option<RegionSummary>>, left: &Undo)
    requires few { HaveFew all.old.items }
    requires cells { (r : ℕ) (u : UsedRegion) → left.now ≡ Reclaim r u → 0 < length u.cells }
    ensures { all.new.items ≡ summaries_before left.now all.old.items }
{
    match left {
        Undo::New { at, fresh, .. } => {
            let region = at.region as usize;
            let now = told_of(all.as_slice(), region);
            tell(all, region, before_new(*fresh, now));
        }
        Undo::Finish { .. } => undo_finish(all),
        Undo::Sweep { region, dead } => {
            let region = *region as usize;
            let now = told_of(all.as_slice(), region);
            tell(all, region, before_sweep(dead.len(), now));
        }
        Undo::Reclaim { region, storage } => {
            tell(all, *region as usize, Some(taken_out(&storage.view())));
        }
        _ => {}
    }
}

// Returns what is told of a region, or None if there is no such region.
fn told_of(all: &[Option<RegionSummary>], region: usize) -> Option<RegionSummary>
    ensures { result ≡ slice_index_or all.now region None }
{
    if region < all.len() {
        all[region]
    } else {
        None
    }
}

// Sets what is told of a region, if there is such a region.
fn tell(all: &mut Vec<Option<RegionSummary>>, region: usize, summary: Option<RegionSummary>)
    ensures { all.new.items ≡ slice_set all.old.items region summary }
{
    if region < all.len() {
        all[region] = summary;
    }
}

// Returns what was told of a region before a live object was made in it, in its first cell if it was empty.
fn before_new(fresh: bool, now: Option<RegionSummary>) -> Option<RegionSummary>
    ensures { result ≡ (if fresh then None else option_map one_fewer now) }
{
    if fresh {
        return None;
    }
    match now {
        Some(summary) => Some(RegionSummary {
            counts: RegionCounts {
                live: summary.counts.live.saturating_sub(1),
                dead: summary.counts.dead,
            },
            ..summary
        }),
        None => None,
    }
}

// Changes what is told of each region to what was told before a cycle ended.
fn undo_finish(all: &mut Vec<Option<RegionSummary>>)
    requires { HaveFew all.old.items }
    ensures { all.new.items ≡ map (option_map all_live) all.old.items }
{
    for region in 0..all.len() {
        let now = all[region];
        all[region] = before_finish(now);
    }
}

// Returns what was told of a region before a cycle ended: each of its objects was live, and it didn't wait to be swept.
fn before_finish(now: Option<RegionSummary>) -> Option<RegionSummary>
    requires { IfSome now (λ s. s.counts.live + s.counts.dead ≤ cell_limit) }
    ensures { result ≡ option_map all_live now }
{
    match now {
        Some(summary) => Some(RegionSummary {
            cell_size: summary.cell_size,
            waits: false,
            counts: RegionCounts {
                live: summary.counts.live + summary.counts.dead,
                dead: 0,
            },
        }),
        None => None,
    }
}

// Returns what was told of a region before a sweep took this many dead objects out.
fn before_sweep(dead: u64, now: Option<RegionSummary>) -> Option<RegionSummary>
    ensures { result ≡ option_map (with_dead_back dead) now }
{
    match now {
        Some(summary) => Some(RegionSummary {
            cell_size: summary.cell_size,
            waits: true,
            counts: RegionCounts {
                live: summary.counts.live,
                dead,
            },
        }),
        None => None,
    }
}

// Returns what was told of a region before a sweep took it out whole.
fn taken_out(storage: &RegionView<'_>) -> RegionSummary
    requires { 0 < length storage.now.cells }
    ensures { result ≡ taken_out storage.now }
{
    RegionSummary {
        cell_size: size_of(storage),
        waits: true,
        counts: count_region(storage),
    }
}
