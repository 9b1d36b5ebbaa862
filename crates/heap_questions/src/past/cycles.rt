//! The cycles that retained steps ended: a walk over the records, the newest first, that counts the dead objects.
ghost use Rattle.std.specs.Prelude.{◌≡◌, ◌≤◌, ◌++◌, [], reverse, count_by, IfOk, IfErr, OnOk};
ghost use Rattle.heap_class.specs.declared.Refusal.TheVariants.{NoMemory};
ghost use Rattle.heap_region.specs.Limits.{cell_limit};
ghost use Rattle.heap_region.specs.Live.{cells_of, is_dead};
ghost use Rattle.heap_region.specs.Regions.{used_at};
ghost use Rattle.heap_trail.specs.Trail.{retained};
ghost use Rattle.heap_world.specs.Legal.{IsLegal};
ghost use Rattle.heap_questions.specs.Cycles.{AreLastCycles, before_cycles, cycle_by, dead_before, dead_limit, left_before};
ghost use Rattle.heap_questions.specs.RegionCounts.{dead_objects};

use crate::region_counts::count_region;
use heap_class::Refusal;
use heap_region::Regions;
use heap_step::Undo;
use heap_trail::Machine;
use heap_world::World;
use std::alloc::Global;

/// A cycle that a step ended: the place that the step led to, how many objects it condemned, and how many of these sweeps have
/// removed since, up to the next such step.
#[derive(Clone, Copy)]
pub struct EndedCycle {
    pub place: u64,
    pub condemned: u64,
    pub swept: u64,
}

/// Returns the cycles that the retained steps ended, the oldest first. Fails with NoMemory if an allocation fails. Looks at each
/// cell of the current state once, and reads each record once.
pub fn ended_cycles(alloc: Global, machine: &Machine) -> Result<Vec<EndedCycle>, Refusal>
    ensures cycles { IfOk result
        (λ cycles. AreLastCycles machine.now.trail (retained machine.now.trail) cycles.items) }
    ensures refused { IfErr result (λ e. e ≡ NoMemory) }
{
    let mut cycles = newest_cycles(alloc, machine)?;
    cycles.reverse();
    Ok(cycles)
}

// Returns the cycles that the retained steps ended, the newest first. Fails with NoMemory.
fn newest_cycles(alloc: Global, machine: &Machine) -> Result<Vec<EndedCycle>, Refusal>
    ensures cycles { IfOk result (λ cycles.
        AreLastCycles machine.now.trail (retained machine.now.trail) (reverse cycles.items)) }
    ensures refused { IfErr result (λ e. e ≡ NoMemory) }
{
    let place = machine.place();
    let mut dead = count_dead(machine.world());
    let mut left = dead;
    let mut cycles = Vec::new(alloc);
    for n in 0..machine.retained_count() {
        let record = machine.record_ago(n);
        push_cycle(&mut cycles, cycle_by(record, place - n, dead, left))?;
        left = left_before(record, left);
        dead = dead_before(record, dead);
    }
    Ok(cycles)
}

// Returns the number of dead objects.
fn count_dead(world: &World) -> u64
    requires { IsLegal world.now }
    ensures value { result ≡ dead_objects world.now.regions }
    ensures limit { result ≤ dead_limit }
{
    let regions = world.regions();
    let mut dead = 0;
    for region in 0..regions.count() {
        dead += dead_in(regions, region);
    }
    dead
}

// Returns the number of dead objects of a region.
fn dead_in(regions: &Regions, region: u64) -> u64
    ensures value { result ≡ count_by is_dead (cells_of (used_at regions.now.regions region)) }
    ensures few { result ≤ cell_limit }
{
    match regions.region(region) {
        Some(storage) => count_region(&storage).dead,
        None => 0,
    }
}

// Adds a cycle, if there is one. Fails with NoMemory.
fn push_cycle(cycles: &mut Vec<EndedCycle>, cycle: Option<EndedCycle>) -> Result<(), Refusal>
    ensures added { OnOk result (cycles.new.items ≡ cycles.old.items ++ before_cycles cycle []) }
    ensures refused { IfErr result (λ e. e ≡ NoMemory) }
{
    if let Some(cycle) = cycle {
        cycles.push(cycle)?;
    }
    Ok(())
}

// Returns the cycle that the step with this record ended, if it did, given the place that it led to, the number of dead objects
// after it, and how many of them are left before the next such step.
fn cycle_by(undo: &Undo, place: u64, dead: u64, left: u64) -> Option<EndedCycle>
    requires { left ≤ dead }
    ensures { result ≡ cycle_by undo.now place dead left }
{
    match undo {
        Undo::Finish { .. } => Some(EndedCycle {
            place,
            condemned: dead,
            swept: dead - left,
        }),
        _ => None,
    }
}

// Returns how many of the dead objects before the step with this record are left before the next step that ends a cycle, from how
// many of those after it are.
fn left_before(undo: &Undo, now: u64) -> u64
    ensures { result ≡ left_before undo.now now }
{
    match undo {
        Undo::Finish { .. } => 0,
        _ => now,
    }
}

// Returns the number of dead objects before the step with this record, from that after it: a sweep removed those that its record
// has, and none was dead before a cycle ended.
fn dead_before(undo: &Undo, now: u64) -> u64
    requires { dead_before undo.now now ≤ dead_limit }
    ensures { result ≡ dead_before undo.now now }
{
    match undo {
        Undo::Finish { .. } => 0,
        Undo::Sweep { dead, .. } => now + dead.len(),
        Undo::Reclaim { storage, .. } => now + count_region(&storage.view()).dead,
        _ => now,
    }
}
