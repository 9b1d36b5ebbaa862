//! Regions of equal size, the objects in their cells, free lists and the pool.
#![tactic(auto)]

ghost use Rattle.std.specs.Prelude.{◌≡◌, ◌≢◌, ◌<◌, ◌≤◌, ℕ, length, Some, None, true, false, IsSome, IfSome, IfOk, IfErr, OnErr, is_some, option_map, slice_get, slice_index, map, reverse, MatchOption, IsSomeAnd, count_by};
ghost use Rattle.std.specs.List.{enumerate_from, filter_map};
ghost use Rattle.std.specs.Option.{option_map_or};
ghost use Rattle.heap_class.specs.Refusals.{IsAnswered};
ghost use Rattle.heap_class.specs.declared.ObjRef.{ObjRef};
ghost use Rattle.heap_class.specs.declared.Refusal.TheVariants.{NoMemory};
ghost use Rattle.heap_class.specs.Limits.{large_array_limit};
ghost use Rattle.heap_region.specs.Limits.{region_limit, region_words, cell_limit, heap_words};
ghost use Rattle.heap_region.specs.RegionCopies.{region_frozen};
ghost use Rattle.heap_region.specs.Regions.{FitsWords, Object, UsedRegion, in_used, object_at, object_of, used_at, id_of, ref_of, with_object, with_word};
ghost use Rattle.heap_region.specs.Pool.{RegionPool, opening_pool, alloc_refusal, is_fresh, free_place, pending_place, first_run, new_place, taken, freed, released, restored, allocated, unallocated, blank_object};
ghost use Rattle.heap_region.specs.Legal.{IsCellTable, IsRegionPool, MayRestore};
ghost use Rattle.heap_region.specs.Layout.{IsCellSize, bit_set};
ghost use Rattle.heap_region.specs.Changes.{WritesLive, WritesMark, WritesPending};
ghost use Rattle.heap_region.specs.Live.{cells_of, is_dead, is_live};
ghost use Rattle.heap_region.specs.Turns.{turned_region, turned_back_region, unmarked_total};

mod block;
mod cell;
mod counts;
mod frozen_region;
mod headers;
mod lists;
mod live_walk;
mod quarter;
mod region_classes;
mod region_view;
mod sizes;
mod slots;
mod storage;
mod turn;
mod turned_slots;
mod waits;

use cell::{Bit, Header};
use counts::Counts;
pub use frozen_region::FrozenRegion;
use heap_class::{ObjKind, ObjRef, Refusal};
pub use lists::{FreeCells, PoolRegions};
use region_classes::RegionClasses;
pub use region_view::RegionView;
pub use sizes::{OBJECT_BASE, REGION_WORDS};
use sizes::{LARGE_LIMIT, cell_size_for, id_in, regions_for};
use slots::{full_pool, give_head, pool_head, size_class, take_head};
use std::alloc::{AllocError, Global};
use std::marker::Model;
pub use storage::{ObjectCopy, Storage};
use turned_slots::Slots;
use waits::Waits;

/// A new object.
#[derive(Clone, Copy)]
pub struct Placed {
    /// Whether its region was empty.
    pub fresh: bool,
    /// Its place.
    pub at: ObjRef,
    /// Its id.
    pub id: u64,
}

/// All regions of a heap, and the pool of the empty ones.
#[derive(Drop)]
pub struct Regions {
    alloc: Global,
    slots: Slots,
    // For each region the number of its cell size if one of its cells is free, else 0.
    free_classes: RegionClasses,
    // For each region whether it waits to be swept.
    waits: Waits,
    // How many objects there are, and of how many a bit isn't set.
    totals: Counts,
    // The empty regions below the area, the head last. It has room for all regions below the area.
    pool: Vec<usize>,
    // The first region of the area.
    area_start: usize,
}

impl Model for Regions {
    ghost use Rattle.heap_region.specs.Pool.{RegionPool};

    ghost Value = { RegionPool };

    ghost use Rattle.std.specs.Prelude.{map, reverse, vec_capacity};
    ghost use Rattle.heap_region.specs.Slots.{AreTotals};
    ghost use Rattle.heap_region.specs.Table.{AreWaiting, IsRegionTable, shown_region};

    ghost view = { λ h.
        record {
          regions = map shown_region h.slots;
          pool = reverse h.pool.items;
          area_start = h.area_start;
        } };

    ghost invariant = { λ h. IsRegionTable h.slots h.free_classes (reverse h.pool.items)
        (vec_capacity h.pool) h.area_start
        × AreWaiting h.slots h.waits
        × AreTotals h.slots h.totals };
}

impl Regions {
    /// Creates `count` empty regions: 1 to 256, in a wide heap 1 to 65,536. The last `area` of them are the area, in which objects
    /// of more than 1,024 slots lie. Fails with NoMemory if one of its four allocations fails. One of these is the pool, which
    /// has room for all regions below the area.
    pub fn new(alloc: Global, count: u64, area: u64) -> Result<Regions, Refusal>
        requires sized { (1 ≤ count) × (count ≤ region_limit) }
        requires within { area ≤ count }
        ensures opened { IfOk result (λ s. s ≡ opening_pool count area) }
        ensures refused { IfErr result (λ e. e ≡ NoMemory) }
    {
        match Regions::open(alloc, count as usize, area as usize) {
            Ok(regions) => Ok(regions),
            Err(_) => Err(Refusal::NoMemory),
        }
    }

    /// Returns the number of regions.
    pub fn count(&self) -> u64
        ensures value { result ≡ length self.now.regions }
        ensures limit { (1 ≤ result) × (result ≤ region_limit) }
        ensures whole { IsRegionPool self.now }
    {
        self.slots.len() as u64
    }

    /// Returns the allocator of regions and of copies of objects. Every `Global` is the same.
    pub fn allocator(&self) -> Global
        ensures { (other : Global) → result ≡ other }
    {
        self.alloc
    }

    /// Makes an object of `len` slots, each 0. Fails with TooLarge if `len` is more than 2,097,147, and with NoMemory if a region's
    /// storage can't be allocated. Fails with HeapFull if no region has a free cell of its size and the pool is empty; for more
    /// than 1,024 slots, if the area has no empty regions in a row that hold it.
    #[inline(always)]
    pub fn alloc(&mut self, kind: ObjKind, len: u64, mark: bool) -> Result<Placed, Refusal>
        ensures answered { IsAnswered (alloc_refusal len self.old) (is_fresh len self.old) result }
        ensures placed { IfOk result (λ p. new_place len self.old ≡ Some (p.at, p.fresh)) }
        ensures named { IfOk result (λ p. p.id ≡ id_of self.new.regions p.at) }
        ensures allocated { IfOk result
            (λ p. self.new ≡ allocated p.at p.fresh (blank_object kind len mark) self.old) }
        ensures unchanged { OnErr result (self.new ≡ self.old) }
    {
        // A call that is given the place of the result would keep it out of registers.
        if len > REGION_WORDS {
            return Ok(self.alloc_large(kind, len, mark)?);
        }
        let len = len as usize;
        let cell_size = cell_size_for(len);
        if let Some(at) = self.place_for(cell_size) {
            self.take_at(at, kind, len, mark);
            return Ok(Placed {
                fresh: false,
                at,
                id: id_in(at, cell_size as u64),
            });
        }
        let Some(region) = self.spare() else {
            return Err(Refusal::HeapFull);
        };
        Ok(self.alloc_fresh(region, kind, len, mark)?)
    }

    /// Undoes `alloc`, given the place and the flag that it returned. If the flag is false, another object must be in the
    /// region. Takes no memory.
    #[tactic(auto, using(crate::proofs::ShownRegions::used_by_object), unfolding(crate::specs::Pool::unallocated))]
    pub fn unalloc(&mut self, at: ObjRef, fresh: bool)
        requires there { IsSome (object_at self.old.regions at) }
        requires another { fresh ≡ false
            → (other : ObjRef) × (other.region ≡ at.region) × (other ≢ at)
            × IsSome (object_at self.old.regions other) }
        ensures state { self.new ≡ unallocated at fresh self.old }
        ensures back { (before : RegionPool) (o : Object) → IsRegionPool before
            → new_place (length o.words) before ≡ Some (at, fresh)
            → self.old ≡ allocated at fresh o before → self.new ≡ before }
    {
        if fresh {
            drop(self.release(at.region as u64));
        } else {
            self.free(at);
        }
    }

    /// Tells whether there is an object in the cell. False if the heap doesn't have the cell.
    pub fn has_object(&self, at: ObjRef) -> bool
        ensures { result ≡ is_some (object_at self.now.regions at) }
    {
        match self.storage_at(at.region as usize) {
            Some(storage) => storage.has_object(at.cell as u64),
            None => false,
        }
    }

    /// Returns the kind of the object in the cell, which must have one.
    #[tactic(auto, using(crate::proofs::ShownRegions::object_lookups))]
    #[inline(always)]
    pub fn kind(&self, at: ObjRef) -> ObjKind
        requires { IsSome (object_at self.now.regions at) }
        ensures { IfSome (object_at self.now.regions at) (λ o. result ≡ o.kind) }
    {
        self.storage(at.region as usize).kind(at.cell as usize)
    }

    /// Returns the number of slots of the object in the cell, which must have one.
    #[tactic(auto, using(crate::proofs::ShownRegions::object_lookups))]
    #[inline(always)]
    pub fn len(&self, at: ObjRef) -> u64
        requires { IsSome (object_at self.now.regions at) }
        ensures value { IfSome (object_at self.now.regions at) (λ o. result ≡ length o.words) }
        ensures limit { result ≤ heap_words }
    {
        self.storage(at.region as usize).len(at.cell as usize) as u64
    }

    /// Returns the two bits of the object in the cell, `live` and `mark`. The cell must have one.
    #[tactic(auto, using(crate::proofs::ShownRegions::object_lookups))]
    #[inline(always)]
    pub fn bits(&self, at: ObjRef) -> (bool, bool)
        requires { IsSome (object_at self.now.regions at) }
        ensures { IfSome (object_at self.now.regions at)
            (λ o. (result.0 ≡ o.live) × (result.1 ≡ o.mark)) }
    {
        self.storage(at.region as usize).bits(at.cell as usize)
    }

    /// Returns a word of the object in the cell. The object must have the slot.
    #[tactic(auto, using(crate::proofs::ShownRegions::object_lookups))]
    #[inline(always)]
    pub fn word(&self, at: ObjRef, slot: u64) -> u64
        requires there { IsSome (object_at self.now.regions at) }
        requires within { IfSome (object_at self.now.regions at) (λ o. slot < length o.words) }
        ensures { IfSome (object_at self.now.regions at) (λ o. result ≡ slice_index o.words slot) }
    {
        self.storage(at.region as usize)
            .word(at.cell as usize, slot as usize)
    }

    /// Returns the words of the object in the cell, in slot order. The cell must have one.
    #[tactic(auto, using(crate::proofs::ShownRegions::object_lookups))]
    pub fn words(&self, at: ObjRef) -> &[u64]
        requires { IsSome (object_at self.now.regions at) }
        ensures { IfSome (object_at self.now.regions at) (λ o. result.now ≡ o.words) }
    {
        self.storage(at.region as usize).words(at.cell as usize)
    }

    /// Writes a word of the object in the cell. The object must have the slot. Takes no memory.
    #[tactic(auto, using(crate::proofs::SlotChanges::object_slots, crate::proofs::ShownRegions::slot_known))]
    #[inline(always)]
    pub fn set_word(&mut self, at: ObjRef, slot: u64, value: u64)
        requires there { IsSome (object_at self.old.regions at) }
        requires within { IfSome (object_at self.old.regions at) (λ o. slot < length o.words) }
        ensures { self.new
            ≡ record self.old { regions = with_word at slot value self.old.regions } }
    {
        self.slots
            .set_word(at.region as usize, at.cell as usize, slot as usize, value);
    }

    /// Returns the size of each cell of a region in words, or None if it is empty or there is no such region.
    pub fn cell_size(&self, region: u64) -> Option<u64>
        ensures { result ≡ option_map (λ u. u.cell_size) (used_at self.now.regions region) }
    {
        match self.storage_at(region as usize) {
            Some(storage) => Some(storage.cell_size() as u64),
            None => None,
        }
    }

    /// Returns a region to be looked at, or None if it is empty or there is no such region.
    #[inline(always)]
    pub fn region(&self, region: u64) -> Option<RegionView<'_>>
        ensures { MatchOption result (used_at self.now.regions region ≡ None)
            (λ u. used_at self.now.regions region ≡ Some u) }
    {
        self.storage_at(region as usize)
    }

    /// Returns the number of cells of a region, which must be in use.
    pub fn cell_count(&self, region: u64) -> u16
        requires { IsSome (used_at self.now.regions region) }
        ensures value { result ≡ length (cells_of (used_at self.now.regions region)) }
        ensures limit { result ≤ cell_limit }
    {
        self.storage(region as usize).cells() as u16
    }

    /// Returns the number of live objects of a region, which must be in use. Takes constant time.
    #[tactic(auto, using(crate::proofs::ShownRegions::cells_here))]
    pub fn live_objects(&self, region: u64) -> u64
        requires { IsSome (used_at self.now.regions region) }
        ensures value { result ≡ count_by is_live (cells_of (used_at self.now.regions region)) }
        ensures limit { result ≤ cell_limit }
    {
        let counts = self.storage(region as usize).counts();
        let live = counts.objects - counts.dead;
        live as u64
    }

    /// Returns the number of objects of a region, which must be in use, that aren't live. Takes constant time.
    #[tactic(auto, using(crate::proofs::ShownRegions::cells_here))]
    pub fn dead_objects(&self, region: u64) -> u64
        requires { IsSome (used_at self.now.regions region) }
        ensures value { result ≡ count_by is_dead (cells_of (used_at self.now.regions region)) }
        ensures limit { result ≤ cell_limit }
    {
        let counts = self.storage(region as usize).counts();
        counts.dead as u64
    }

    /// Returns the number of a region in use, as the places of its cells have it.
    pub fn region_number(&self, region: u64) -> u16
        requires { IsSome (used_at self.now.regions region) }
        ensures { result ≡ region }
    {
        // Its contract bounds the number of the region.
        let _storage = self.storage(region as usize);
        region as u16
    }

    /// Tells whether a region waits to be swept. None if it is empty or there is no such region.
    pub fn pending(&self, region: u64) -> Option<bool>
        ensures { result ≡ option_map (λ u. u.pending) (used_at self.now.regions region) }
    {
        match self.storage_at(region as usize) {
            Some(storage) => Some(storage.pending()),
            None => None,
        }
    }

    /// Returns the lowest region that waits to be swept, or None if none does. Takes constant time.
    pub fn first_pending(&self) -> Option<u64>
        ensures { result
            ≡ slice_get (filter_map pending_place (enumerate_from 0 self.now.regions)) 0 }
    {
        match self.waits.first() {
            Some(region) => Some(region as u64),
            None => None,
        }
    }

    /// Returns the id of a cell: the address of its first word.
    #[inline(always)]
    pub fn id(&self, at: ObjRef) -> u64
        ensures value { result ≡ id_of self.now.regions at }
    {
        id_in(at, self.size_of(at.region as usize))
    }

    /// Returns the place of the object that an id names, or None if it names none. Takes constant time.
    pub fn find(&self, id: u64) -> Option<ObjRef>
        ensures { MatchOption result (object_of self.now.regions id ≡ None)
            (λ at. (ref_of self.now.regions id ≡ Some at)
            × IsSome (object_at self.now.regions at)) }
    {
        if id < OBJECT_BASE {
            return None;
        }
        let word = (id - OBJECT_BASE) / 8;
        let region = word / REGION_WORDS;
        let storage = self.storage_at(region as usize)?;
        let size = storage.cell_size() as u64;
        let at = ObjRef {
            region: region as u16,
            cell: (word % REGION_WORDS / size) as u16,
        };
        if self.id(at) == id && self.has_object(at) {
            Some(at)
        } else {
            None
        }
    }

    /// Returns the place of the object that an id names. The id must name one; `find` checks.
    #[inline(always)]
    pub fn place(&self, id: u64) -> ObjRef
        requires { IsSome (object_of self.now.regions id) }
        ensures { ref_of self.now.regions id ≡ Some result }
    {
        // There are at most 256 regions, in a wide heap 65,536.
        let _count = self.count();
        let word = (id - OBJECT_BASE) / 8;
        let region = (word / REGION_WORDS) as u16;
        let size = self.storage(region as usize).cell_size() as u64;
        ObjRef {
            region,
            cell: (word % REGION_WORDS / size) as u16,
        }
    }

    /// Writes the `mark` bit of an object, which must be there. A call with the old bit undoes it. Takes no memory.
    #[inline(always)]
    pub fn set_mark(&mut self, at: ObjRef, mark: bool)
        requires { IsSome (object_at self.old.regions at) }
        ensures { WritesMark at mark self.old self.new }
    {
        self.set_bit(at, Bit::Mark, mark)
    }

    /// Writes the `live` bit of an object, which must be there. A call with the old bit undoes it. Takes no memory.
    pub fn set_live(&mut self, at: ObjRef, live: bool)
        requires { IsSome (object_at self.old.regions at) }
        ensures { WritesLive at live self.old self.new }
    {
        self.set_bit(at, Bit::Live, live)
    }

    /// Sets whether a region in use waits to be swept. A call with the old flag undoes it. Takes no memory.
    #[tactic(auto, using(crate::proofs::SlotChanges::used_slots))]
    pub fn set_pending(&mut self, region: u64, pending: bool)
        requires { IsSome (used_at self.old.regions region) }
        ensures { WritesPending region pending self.old self.new }
    {
        let region = region as usize;
        self.slots.set_pending(region, pending);
        self.waits.set(region, self.slots.wait_class(region));
    }

    /// Turns the bits of all objects: each is live if it was marked, and marked if it wasn't live. A region in use then waits to
    /// be swept if it didn't. Returns the number of objects that weren't marked. Takes constant time, and no memory.
    pub fn turn(&mut self) -> u64
        ensures turned { self.new
            ≡ record self.old { regions = map (in_used turned_region) self.old.regions } }
        ensures unmarked { result ≡ unmarked_total self.old.regions }
    {
        let unmarked = self.totals.unmarked as u64;
        self.slots.turn();
        self.waits.turn();
        self.totals = self.totals.next();
        unmarked
    }

    /// Undoes `turn`. Takes constant time, and no memory.
    #[inline(never)]
    pub fn turn_back(&mut self)
        ensures { self.new
            ≡ record self.old { regions = map (in_used turned_back_region) self.old.regions } }
    {
        self.slots.turn_back();
        self.waits.turn();
        self.totals = self.totals.prior();
    }

    /// Prepares a region for many reads: each takes longer after a turn, until the region is changed. Changes nothing that
    /// contracts see. Takes constant time, and no memory.
    pub fn settle(&mut self, region: u64)
        ensures { self.new ≡ self.old }
    {
        self.slots.settle(region as usize);
    }

    /// Returns a copy of the object in the cell, which must have one. Fails with NoMemory if its words can't be allocated.
    #[tactic(auto, using(crate::proofs::ShownRegions::object_lookups))]
    pub fn object(&self, at: ObjRef) -> Result<ObjectCopy, Refusal>
        requires { IsSome (object_at self.now.regions at) }
        ensures copied { IfOk result (λ o. object_at self.now.regions at ≡ Some o) }
        ensures refused { IfErr result (λ e. e ≡ NoMemory) }
    {
        let storage = self.storage(at.region as usize);
        match storage.object(self.alloc, at.cell as usize) {
            Ok(object) => Ok(object),
            Err(_) => Err(Refusal::NoMemory),
        }
    }

    /// Takes an object out of its cell, which then heads the free list. Another object must be in the region. Undoes `unfree`.
    /// Takes no memory.
    #[tactic(auto, using(crate::proofs::SlotChanges::object_slots))]
    pub fn free(&mut self, at: ObjRef)
        requires there { IsSome (object_at self.old.regions at) }
        requires another { (other : ObjRef) × (other.region ≡ at.region) × (other ≢ at)
            × IsSome (object_at self.old.regions other) }
        ensures state { self.new ≡ freed at self.old }
        ensures back { (before : RegionPool) (o : Object) → IsRegionPool before
            → IsSomeAnd (used_at before.regions at.region) (λ u. slice_get u.free 0 ≡ Some at.cell)
            → self.old ≡ taken at o before → self.new ≡ before }
    {
        // With two calls, of which each is the last thing that is done, mostly no register has to be saved.
        if self.slots.is_late(at.region as usize) {
            self.free_late(at);
        } else {
            self.free_now(at);
        }
    }

    /// Puts an object into the cell that heads its region's free list. The cells must have the least size that holds it. Undoes
    /// `free`. Takes no memory.
    #[tactic(auto, using(crate::proofs::SlotChanges::used_slots))]
    pub fn unfree(&mut self, at: ObjRef, object: &ObjectCopy)
        requires { IsSomeAnd (used_at self.old.regions at.region)
            (λ u. (slice_get u.free 0 ≡ Some at.cell)
            × FitsWords u.cell_size (length object.now.words)) }
        ensures state { self.new ≡ taken at object.now self.old }
        ensures back { (before : RegionPool) → object_at before.regions at ≡ Some object.now
            → self.old ≡ freed at before → self.new ≡ before }
    {
        let region = at.region as usize;
        self.totals = self.totals.with(object.header());
        if self.slots.unfree(region, at.cell as usize, object) {
            self.free_classes.set(region, 0);
        }
    }

    /// Moves the storage out of a region in use, which is then empty, and heads the pool if it is below the area. Undoes
    /// `restore`. Takes no memory.
    #[tactic(auto, using(crate::proofs::SlotChanges::used_slots))]
    pub fn release(&mut self, region: u64) -> Storage
        requires { IsSome (used_at self.old.regions region) }
        ensures storage { used_at self.old.regions region ≡ Some result }
        ensures table { IsCellTable result }
        ensures state { self.new ≡ released region self.old }
        ensures back { (before : RegionPool) (u : UsedRegion) → IsRegionPool before
            → MayRestore before region u → self.old ≡ restored region u before
            → self.new ≡ before }
    {
        let region = region as usize;
        let storage = self.slots.take_out(region);
        self.totals = self.totals.less(storage.counts());
        self.free_classes.set(region, 0);
        self.waits.set(region, 0);
        give_head(&mut self.pool, region, self.area_start);
        storage
    }

    /// Moves a storage into the region that heads the pool, or into a region of the area from which enough regions are empty. The
    /// storage must have an object; `Storage::has_object` checks. Undoes `release`. Takes no memory.
    pub fn restore(&mut self, region: u64, storage: Storage)
        requires ready { MayRestore self.old region storage }
        requires inhabited { (cell : ℕ) × (o : Object)
            × (slice_get storage.cells cell ≡ Some (Some o)) }
        ensures state { self.new ≡ restored region storage self.old }
        ensures back { (before : RegionPool) → used_at before.regions region ≡ Some storage
            → self.old ≡ released region before → self.new ≡ before }
    {
        let region = region as usize;
        take_head(&mut self.pool, region, self.area_start);
        self.totals = self.totals.plus(storage.counts());
        self.slots.put_in(region, storage);
        self.free_classes.set(region, self.slots.free_class(region));
        self.waits.set(region, self.slots.wait_class(region));
    }

    /// Returns a copy of a region in use. Fails with NoMemory if the allocation fails.
    pub fn freeze(&self, region: u64) -> Result<FrozenRegion, Refusal>
        requires { IsSome (used_at self.now.regions region) }
        ensures copied { IfOk result (λ f. region_frozen self.now.regions region ≡ Some f) }
        ensures refused { IfErr result (λ e. e ≡ NoMemory) }
    {
        match self.storage(region as usize).freeze(self.alloc) {
            Ok(copy) => Ok(copy),
            Err(_) => Err(Refusal::NoMemory),
        }
    }

    /// Returns the free cells of a region in use, head first.
    pub(crate) fn free_list(&self, region: u64) -> FreeCells<'_>
        requires { IsSome (used_at self.now.regions region) }
        ensures { IfSome (used_at self.now.regions region) (λ u. result ≡ u.free) }
    {
        self.storage(region as usize).free_list()
    }

    /// Returns the empty regions, in the order in which they are taken.
    pub fn pool(&self) -> PoolRegions<'_>
        ensures { result ≡ self.now.pool }
    {
        PoolRegions {
            regions: &self.pool,
        }
    }

    // Creates `count` empty regions, the last of which are an area. Fails if an allocation fails.
    fn open(alloc: Global, count: usize, area: usize) -> Result<Regions, AllocError>
        requires sized { (1 ≤ count) × (count ≤ region_limit) }
        requires within { area ≤ count }
        ensures { IfOk result (λ s. s ≡ opening_pool count area) }
    {
        let free_classes = RegionClasses::new(alloc, count)?;
        let waits = Waits::new(alloc, count)?;
        let slots = Slots::new(alloc, count)?;
        let area_start = count - area;
        let pool = full_pool(alloc, area_start)?;
        Ok(Regions {
            alloc,
            slots,
            free_classes,
            waits,
            totals: Counts::none(),
            pool,
            area_start,
        })
    }

    // Makes an object of more slots than a region has words.
    #[inline(never)]
    fn alloc_large(&mut self, kind: ObjKind, len: u64, mark: bool) -> Result<Placed, Refusal>
        requires { region_words < len }
        ensures answered { IsAnswered (alloc_refusal len self.old) (is_fresh len self.old) result }
        ensures placed { IfOk result (λ p. new_place len self.old ≡ Some (p.at, p.fresh)) }
        ensures named { IfOk result (λ p. p.id ≡ id_of self.new.regions p.at) }
        ensures allocated { IfOk result
            (λ p. self.new ≡ allocated p.at p.fresh (blank_object kind len mark) self.old) }
        ensures unchanged { OnErr result (self.new ≡ self.old) }
    {
        if len > LARGE_LIMIT {
            return Err(Refusal::TooLarge);
        }
        let len = len as usize;
        let Some(region) = self.first_run(regions_for(len)) else {
            return Err(Refusal::HeapFull);
        };
        self.alloc_fresh(region, kind, len, mark)
    }

    // Makes an object in an empty region.
    #[inline(never)]
    fn alloc_fresh(
        &mut self,
        region: usize,
        kind: ObjKind,
        len: usize,
        mark: bool,
    ) -> Result<Placed, Refusal>
        requires few { len ≤ large_array_limit }
        requires limit { region < region_limit }
        requires place { new_place len self.old
            ≡ Some (record { region = region; cell = 0 }, true) }
        ensures answered { IsAnswered (alloc_refusal len self.old) (is_fresh len self.old) result }
        ensures placed { IfOk result (λ p. new_place len self.old ≡ Some (p.at, p.fresh)) }
        ensures named { IfOk result (λ p. p.id ≡ id_of self.new.regions p.at) }
        ensures allocated { IfOk result
            (λ p. self.new ≡ allocated p.at p.fresh (blank_object kind len mark) self.old) }
        ensures unchanged { OnErr result (self.new ≡ self.old) }
    {
        let cell_size = cell_size_for(len);
        let Ok(mut storage) = Storage::new(self.alloc, cell_size) else {
            return Err(Refusal::NoMemory);
        };
        storage.take(0, kind, len, mark);
        self.restore(region as u64, storage);
        let at = ObjRef {
            region: region as u16,
            cell: 0,
        };
        Ok(Placed {
            fresh: true,
            at,
            id: id_in(at, cell_size as u64),
        })
    }

    // Returns the lowest region of the area from which `count` regions are there that no object takes.
    fn first_run(&self, count: usize) -> Option<usize>
        requires { (1 ≤ count) × (count ≤ region_limit) }
        ensures value { result ≡ first_run count self.now }
        ensures limit { IfSome result (λ region. region < region_limit) }
    {
        self.slots.first_run(self.area_start, count)
    }

    // Takes an object out of its cell, in a region whose storage was turned less far than the heap, or any other.
    #[inline(never)]
    fn free_late(&mut self, at: ObjRef)
        requires there { IsSome (object_at self.old.regions at) }
        requires another { (other : ObjRef) × (other.region ≡ at.region) × (other ≢ at)
            × IsSome (object_at self.old.regions other) }
        ensures state { self.new ≡ freed at self.old }
        ensures back { (before : RegionPool) (o : Object) → IsRegionPool before
            → IsSomeAnd (used_at before.regions at.region) (λ u. slice_get u.free 0 ≡ Some at.cell)
            → self.old ≡ taken at o before → self.new ≡ before }
    {
        self.settle(at.region as u64);
        self.free_now(at);
    }

    // Takes an object out of its cell.
    #[tactic(auto, using(crate::proofs::SlotChanges::object_slots))]
    #[inline(always)]
    fn free_now(&mut self, at: ObjRef)
        requires there { IsSome (object_at self.old.regions at) }
        requires another { (other : ObjRef) × (other.region ≡ at.region) × (other ≢ at)
            × IsSome (object_at self.old.regions other) }
        ensures state { self.new ≡ freed at self.old }
        ensures back { (before : RegionPool) (o : Object) → IsRegionPool before
            → IsSomeAnd (used_at before.regions at.region) (λ u. slice_get u.free 0 ≡ Some at.cell)
            → self.old ≡ taken at o before → self.new ≡ before }
    {
        let region = at.region as usize;
        let (full, was) = self.slots.free(region, at.cell as usize);
        self.totals = self.totals.without(Some(was));
        if full {
            self.free_classes.set(region, self.slots.free_class(region));
        }
    }

    // Writes a bit of an object, which must be there.
    #[tactic(auto, using(crate::proofs::SlotChanges::object_slots))]
    #[inline(always)]
    fn set_bit(&mut self, at: ObjRef, bit: Bit, on: bool)
        requires { IsSome (object_at self.old.regions at) }
        ensures { self.new
            ≡ record self.old { regions = with_object at (bit_set bit on) self.old.regions } }
    {
        let was = self
            .slots
            .set_bit(at.region as usize, at.cell as usize, bit, on);
        self.totals = self.totals.with_bit(bit, was, on);
    }

    // Returns a region if it is in use.
    #[inline(always)]
    fn storage_at(&self, region: usize) -> Option<RegionView<'_>>
        ensures value { MatchOption result (used_at self.now.regions region ≡ None)
            (λ u. used_at self.now.regions region ≡ Some u) }
        ensures limit { IfSome result (λ s. region < region_limit) }
    {
        self.slots.at(region)
    }

    // Returns a region in use.
    #[inline(always)]
    fn storage(&self, region: usize) -> RegionView<'_>
        requires { IsSome (used_at self.now.regions region) }
        ensures value { used_at self.now.regions region ≡ Some result }
        ensures limit { region < region_limit }
    {
        match self.storage_at(region) {
            Some(storage) => storage,
            None => unreachable!(),
        }
    }

    // Returns the size of each cell of a region in words, or 0 if it is empty.
    fn size_of(&self, region: usize) -> u64
        ensures value { result
            ≡ option_map_or (λ u. u.cell_size) (used_at self.now.regions region) 0 }
        ensures limit { result ≤ heap_words }
    {
        match self.storage_at(region) {
            Some(storage) => storage.cell_size() as u64,
            None => 0,
        }
    }

    // Returns the head of the free list of the lowest region that has a free cell of this size.
    #[inline(always)]
    fn place_for(&self, size: usize) -> Option<ObjRef>
        requires { IsCellSize size }
        ensures { result
            ≡ slice_get (filter_map (free_place size) (enumerate_from 0 self.now.regions)) 0 }
    {
        let region = self.free_classes.find(size_class(size))?;
        let cell = self.slots.free_head(region);
        Some(ObjRef {
            region: region as u16,
            cell: cell as u16,
        })
    }

    // Returns the region at the head of the pool.
    fn spare(&self) -> Option<usize>
        ensures value { result ≡ slice_get self.now.pool 0 }
        ensures limit { IfSome result (λ region. region < region_limit) }
    {
        pool_head(&self.pool)
    }

    // Puts a new object into the cell that heads its region's free list.
    #[inline(always)]
    #[tactic(auto, using(crate::proofs::SlotChanges::used_slots))]
    fn take_at(&mut self, at: ObjRef, kind: ObjKind, len: usize, mark: bool)
        requires { IsSomeAnd (used_at self.old.regions at.region)
            (λ u. (slice_get u.free 0 ≡ Some at.cell) × FitsWords u.cell_size len) }
        ensures { self.new ≡ taken at (blank_object kind len mark) self.old }
    {
        let region = at.region as usize;
        let header = Header {
            kind,
            len,
            live: true,
            mark,
        };
        self.totals = self.totals.with(header);
        if self.slots.take(region, at.cell as usize, kind, len, mark) {
            self.free_classes.set(region, 0);
        }
    }
}
