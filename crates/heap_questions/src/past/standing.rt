//! Where objects stood in a retained state: a walk over the records of the steps since, the newest first.
ghost use Rattle.std.specs.Prelude.{◌≡◌, ◌≤◌, ◌<◌, ◌==◌, ℕ, length, IsSome, Some, is_some};
ghost use Rattle.std.specs.List.{list_any};
ghost use Rattle.heap_class.specs.declared.ObjRef.{ObjRef};
ghost use Rattle.heap_region.specs.Limits.{heap_words};
ghost use Rattle.heap_region.specs.Regions.{UsedRegion, object_at, ref_of, used_at};
ghost use Rattle.heap_step.specs.declared.Undo.TheVariants.{Reclaim};
ghost use Rattle.heap_trail.specs.Trail.{retained, state_ago};
ghost use Rattle.heap_world.specs.Legal.{IsLegal};
ghost use Rattle.heap_questions.specs.PastTrails.{HasCellSize, IsCellOf, size_before, stood_before, storage_cell_size};

use crate::past::changes::makes;
use heap_class::ObjRef;
use heap_region::{OBJECT_BASE, ObjectCopy, REGION_WORDS, RegionView};
use heap_step::Undo;
use heap_trail::Machine;
use heap_world::World;

// Tells whether an object stood at a place in the state of `ago` steps ago.
pub(crate) fn stood_ago(machine: &Machine, ago: u64, at: ObjRef) -> bool
    requires { ago ≤ retained machine.now.trail }
    ensures { result ≡ is_some (object_at (state_ago ago machine.now.trail).regions at) }
{
    // Its contract says that each retained state came from the one before it.
    let _place = machine.place();
    let mut stood = machine.world().regions().has_object(at);
    for n in 0..ago {
        stood = stood_before(machine.record_ago(n), at, stood);
    }
    stood
}

// Tells whether an object stood at a place before the step that left this record. `now` says whether one stands there after it.
pub(crate) fn stood_before(left: &Undo, at: ObjRef, now: bool) -> bool
    ensures { result ≡ stood_before left.now at now }
{
    match left {
        Undo::New { .. } => !makes(left, at) && now,
        Undo::Sweep { region, dead } => {
            if at.region == *region {
                was_swept(dead.as_slice(), at.cell as u64) || now
            } else {
                now
            }
        }
        Undo::Reclaim { region, storage } => {
            if at.region == *region {
                storage.view().has_object(at.cell as u64)
            } else {
                now
            }
        }
        _ => now,
    }
}

// Tells whether one of the dead objects that a sweep took out stood in this cell.
fn was_swept(dead: &[(u64, ObjectCopy)], cell: u64) -> bool
    ensures { result ≡ list_any (λ d. d.0 == cell) dead.now }
{
    dead.iter().any(|(taken, _object)| *taken == cell)
}

// Returns the cell that an id named in the state of `ago` steps ago, if an object stood there. If none did, it may be any cell.
pub(crate) fn cell_with(machine: &Machine, ago: u64, id: u64) -> Option<ObjRef>
    requires { ago ≤ retained machine.now.trail }
    ensures finds { (at : ObjRef) → ref_of (state_ago ago machine.now.trail).regions id ≡ Some at
        → IsSome (object_at (state_ago ago machine.now.trail).regions at) → result ≡ Some at }
    ensures right { (at : ObjRef) → result ≡ Some at
        → IsSome (object_at (state_ago ago machine.now.trail).regions at)
        → ref_of (state_ago ago machine.now.trail).regions id ≡ Some at }
{
    // Its contract says that each retained state came from the one before it.
    let _place = machine.place();
    let region = id.saturating_sub(OBJECT_BASE) / 8 / REGION_WORDS;
    if region >= machine.world().regions().count() {
        return None;
    }
    cell_by(cell_size_ago(machine, ago, region), region as u16, id)
}

// Returns the size of the cells of a region in the state of `ago` steps ago, if it was in use there.
fn cell_size_ago(machine: &Machine, ago: u64, region: u64) -> u64
    requires { ago ≤ retained machine.now.trail }
    ensures value { HasCellSize (state_ago ago machine.now.trail) region result }
    ensures limit { result ≤ heap_words }
{
    // Its contract says that each retained state came from the one before it.
    let _place = machine.place();
    let mut size = size_at(machine.world(), region);
    for n in 0..ago {
        size = size_before(machine.record_ago(n), region, size);
    }
    size
}

// Returns the size of the cells of a region, or 0 if it is empty.
#[tactic(auto, using(crate::proofs::Sizes::whole_size, crate::proofs::Sizes::table_of))]
pub(crate) fn size_at(world: &World, region: u64) -> u64
    requires { IsLegal world.now }
    ensures value { (u : UsedRegion) → used_at world.now.regions region ≡ Some u
        → result ≡ u.cell_size }
    ensures limit { result ≤ heap_words }
{
    match world.regions().region(region) {
        Some(storage) => size_of(&storage),
        None => 0,
    }
}

// Returns the size of a region's cells.
pub(crate) fn size_of(storage: &RegionView<'_>) -> u64
    requires { 0 < length storage.now.cells }
    ensures value { result ≡ storage_cell_size storage.now }
    ensures limit { result ≤ heap_words }
{
    storage.word_count() / storage.cells()
}

// Returns the cell of this size that an id names, of a region that has the id's word, or None if the id is that of no such cell.
pub(crate) fn cell_by(size: u64, region: u16, id: u64) -> Option<ObjRef>
    requires small { size ≤ heap_words }
    ensures cell { IsCellOf size region id result }
{
    if id < OBJECT_BASE || size == 0 {
        return None;
    }
    let word = (id - OBJECT_BASE) / 8;
    let at = ObjRef {
        region,
        cell: (word % REGION_WORDS / size) as u16,
    };
    if OBJECT_BASE + 8 * (REGION_WORDS * region as u64 + at.cell as u64 * size) == id {
        Some(at)
    } else {
        None
    }
}

// Returns the size of the cells of a region before the step with this record, from that after it.
pub(crate) fn size_before(left: &Undo, region: u64, now: u64) -> u64
    requires cells { (r : ℕ) (u : UsedRegion) → left.now ≡ Reclaim r u → 0 < length u.cells }
    requires small { now ≤ heap_words }
    ensures value { result ≡ size_before left.now region now }
    ensures limit { result ≤ heap_words }
{
    match left {
        Undo::Reclaim {
            region: taken,
            storage,
        } => {
            if *taken as u64 == region {
                size_of(&storage.view())
            } else {
                now
            }
        }
        _ => now,
    }
}
