//! Sweeping on the heap, and its undoing.
ghost use Rattle.std.specs.Prelude.{◌≡◌, ℕ, slice_get, None, Some, false, IfOk, OnOk, OnErr};
ghost use Rattle.heap_class.specs.Refusals.{IsAnswered};
ghost use Rattle.heap_region.specs.Regions.{Object};
ghost use Rattle.heap_region.specs.Legal.{MayRestore};
ghost use Rattle.heap_region.specs.Pool.{restored};
ghost use Rattle.heap_sweep.specs.Sweep.{sweep_refusal, copies_dead, reclaimed, is_emptied, dead_at, unswept};
ghost use Rattle.heap_world.specs.State.{HeapState, pool_of, with_pool};
ghost use Rattle.heap_world.specs.Legal.{IsLegal};
ghost use Rattle.heap_world.specs.Events.{after_sweep};

use super::World;
use heap_class::Refusal;
use heap_region::Storage;
use heap_sweep::{DeadCells, Reclaimed};

impl World {
    /// Removes a region's objects that aren't live. Their cells head its free list, the highest first. A region left without
    /// objects becomes empty, and heads the pool if it is below the area. Returns what was removed. Fails with NothingToSweep if
    /// the region doesn't wait to be swept, and with NoMemory if the region keeps objects and the dead ones can't be copied.
    pub fn sweep(&mut self, region: u64) -> Result<Reclaimed, Refusal>
        ensures answered { IsAnswered (sweep_refusal region (pool_of self.old))
            (copies_dead region (pool_of self.old)) result }
        ensures swept { OnOk result (self.new ≡ after_sweep region self.old) }
        ensures reclaimed { IfOk result (λ r. r ≡ reclaimed region (pool_of self.old)) }
        ensures unchanged { OnErr result (self.new ≡ self.old) }
    {
        heap_sweep::sweep(&mut self.regions, region)
    }

    /// Undoes a sweep that left objects in its region, given the objects that it removed. The sweep must have led to this
    /// state. Takes no memory.
    pub fn unsweep(&mut self, region: u16, dead: DeadCells)
        requires swept { (before : HeapState) × IsLegal before
            × (sweep_refusal region (pool_of before) ≡ None)
            × (is_emptied region (pool_of before) ≡ false)
            × (dead ≡ dead_at region (pool_of before)) × (self.old ≡ after_sweep region before) }
        ensures unswept { self.new ≡ with_pool (unswept region dead (pool_of self.old)) self.old }
        ensures back { (before : HeapState) → IsLegal before
            → sweep_refusal region (pool_of before) ≡ None
            → is_emptied region (pool_of before) ≡ false → dead ≡ dead_at region (pool_of before)
            → self.old ≡ after_sweep region before → self.new ≡ before }
    {
        heap_sweep::unsweep(&mut self.regions, Reclaimed::Swept { region, dead })
    }

    /// Undoes a sweep that emptied its region, given the storage of the region, which must have an object. The region must head
    /// the pool, or the regions that the storage takes must be empty ones of the area. The heap must be legal afterwards. Takes
    /// no memory.
    pub fn unreclaim(&mut self, region: u16, storage: Storage)
        requires ready { MayRestore (pool_of self.old) region storage }
        requires inhabited { (cell : ℕ) × (o : Object)
            × (slice_get storage.cells cell ≡ Some (Some o)) }
        requires legal { IsLegal (with_pool (restored region storage (pool_of self.old)) self.old) }
        ensures { self.new ≡ with_pool (restored region storage (pool_of self.old)) self.old }
    {
        self.regions.restore(region as u64, storage)
    }
}
