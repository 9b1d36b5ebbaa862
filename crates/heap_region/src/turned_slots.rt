//! The regions of a heap, which are turned all at once. A region's storage is turned once it is changed.
ghost use Rattle.std.specs.Prelude.{◌≡◌, ◌-◌, ◌<◌, ◌≤◌, length, map, Some, None, IfOk, IsSome, IfSome, IsSomeAnd, MatchOption, find, is_none, option_map, replicate, slice_index_or, slice_set};
ghost use Rattle.std.specs.List.{range_with_len};
ghost use Rattle.heap_region.specs.Regions.{FitsWords, regions_for, slot_object};
ghost use Rattle.heap_region.specs.Pool.{blank_object, cell_freed, is_run};
ghost use Rattle.heap_region.specs.Legal.{IsArea};
ghost use Rattle.heap_region.specs.Layout.{Heads, IsWholeRegion, changed_at, cell_filled, bit_of, bit_set, header_of, pending_set, word_set, words_of};
ghost use Rattle.heap_region.specs.Table.{first_in, free_class_of, shown_region, wait_class_of};
ghost use Rattle.heap_region.specs.Limits.{cell_limit, region_limit};
ghost use Rattle.heap_region.specs.Slots.{shown_slot};
ghost use Rattle.heap_region.specs.Turns.{turned_region, turned_back_region};

use crate::cell::{Bit, Header};
use crate::quarter::Quarter;
use crate::region_view::RegionView;
use crate::sizes::regions_for;
use crate::slots::{
    Slot, free_class_in, free_head_in, free_in, is_late_in, set_bit_in, set_pending_in,
    set_word_in, settle_in, take_in, take_out, unfree_in, view_in,
};
use crate::storage::{ObjectCopy, Storage};
use crate::waits::{SETTLED, WAITING};
use heap_class::ObjKind;
use std::alloc::{AllocError, Global};
use std::marker::Model;

// The regions of a heap. Contracts see each of them, or None if it is empty.
#[derive(Drop)]
pub(crate) struct Slots {
    slots: Vec<Slot>,
    // The turns that the heap was given.
    turns: Quarter,
}

impl Model for Slots {
    ghost use Rattle.std.specs.Prelude.{List, Option, map};
    ghost use Rattle.heap_region.specs.Regions.{UsedRegion};
    ghost use Rattle.heap_region.specs.Slots.{shown_slot};

    ghost Value = { List (Option UsedRegion) };

    ghost view = { λ s. map (shown_slot s.turns) s.slots.items };
}

// Returns the number of regions that the object of a region in use takes.
fn span(region: &RegionView<'_>) -> usize
    ensures value { result ≡ regions_for region.now.cell_size }
    ensures limit { result ≤ region_limit }
{
    regions_for(region.cell_size())
}

impl Slots {
    // Returns `count` empty regions. Fails if the allocation fails.
    pub(crate) fn new(alloc: Global, count: usize) -> Result<Slots, AllocError>
        ensures { IfOk result (λ s. s ≡ replicate count None) }
    {
        let mut slots = Vec::with_capacity(alloc, count)?;
        for i in 0..count {
            slots.push_reserved(Slot::Empty);
        }
        Ok(Slots {
            slots,
            turns: Quarter::Zero,
        })
    }

    // Returns the number of regions.
    #[inline(always)]
    pub(crate) fn len(&self) -> usize
        ensures { result ≡ length self.now }
    {
        self.slots.len()
    }

    // Returns a region in use. None if it is empty or there is no such region.
    #[tactic(auto, using(crate::proofs::SlotReads::slot_reads))]
    #[inline(always)]
    pub(crate) fn at(&self, region: usize) -> Option<RegionView<'_>>
        ensures value { MatchOption result (slice_index_or self.now region None ≡ None)
            (λ u. slice_index_or self.now region None ≡ Some u) }
        ensures limit { IfSome result (λ u. region < length self.now) }
    {
        if region >= self.slots.len() {
            return None;
        }
        view_in(&self.slots[region], self.turns)
    }

    // Returns the number of the cell size of a region that has a free cell, else 0.
    pub(crate) fn free_class(&self, region: usize) -> u8
        requires { region < length self.now }
        ensures value { result ≡ free_class_of (slice_index_or self.now region None) }
        ensures whole { IfSome (slice_index_or self.now region None) (λ u. IsWholeRegion u) }
    {
        free_class_in(&self.slots[region])
    }

    // Returns the class of a region by whether it waits to be swept.
    pub(crate) fn wait_class(&self, region: usize) -> u8
        ensures { result ≡ wait_class_of (slice_index_or self.now region None) }
    {
        match self.at(region) {
            Some(region) => { if region.pending() { WAITING } else { SETTLED } }
            None => 0,
        }
    }

    // Returns the cell that heads a region's free list, which must have one.
    #[inline(always)]
    pub(crate) fn free_head(&self, region: usize) -> usize
        requires { IsSome (first_in (slice_index_or self.now region None)) }
        ensures value { first_in (slice_index_or self.now region None) ≡ Some result }
        ensures limit { result < cell_limit }
    {
        free_head_in(&self.slots[region])
    }

    // Returns the lowest region from `start` on from which `count` regions are there that no object takes.
    pub(crate) fn first_run(&self, start: usize, count: usize) -> Option<usize>
        requires count { (1 ≤ count) × (count ≤ region_limit) }
        requires few { length self.now ≤ region_limit }
        requires area { IsArea (map shown_region self.now) start }
        ensures value { result
            ≡ find (is_run count (map shown_region self.now))
            (range_with_len start (length self.now - start)) }
        ensures limit { IfSome result (λ region. region < region_limit) }
    {
        // The first region that may begin the run.
        let mut first = start;
        for region in start..self.len() {
            if let Some(used) = self.at(region) {
                first = region + span(&used);
            } else if region + 1 >= first + count {
                return Some(first);
            }
        }
        None
    }

    // Puts a new object into the cell, which heads the free list. Tells whether no cell is free then.
    #[inline(always)]
    pub(crate) fn take(
        &mut self,
        region: usize,
        cell: usize,
        kind: ObjKind,
        len: usize,
        mark: bool,
    ) -> bool
        requires { IsSomeAnd (slice_index_or self.old region None)
            (λ u. Heads cell u.free × FitsWords u.cell_size len) }
        ensures state { self.new
            ≡ slice_set self.old region
            (option_map (λ u. cell_filled u cell (blank_object kind len mark))
            (slice_index_or self.old region None)) }
        ensures whole { IfSome (slice_index_or self.new region None) (λ u. IsWholeRegion u) }
        ensures full { result ≡ is_none (first_in (slice_index_or self.new region None)) }
    {
        take_in(&mut self.slots[region], self.turns, cell, kind, len, mark)
    }

    // Takes the object out of its cell. Tells whether no cell was free before, and the object's header.
    #[inline(always)]
    pub(crate) fn free(&mut self, region: usize, cell: usize) -> (bool, Header)
        requires { IsSome (slot_object (slice_index_or self.old region None) cell) }
        ensures state { self.new
            ≡ slice_set self.old region
            (option_map (λ u. cell_freed u cell) (slice_index_or self.old region None)) }
        ensures whole { IfSome (slice_index_or self.new region None) (λ u. IsWholeRegion u) }
        ensures full { result.0 ≡ is_none (first_in (slice_index_or self.old region None)) }
        ensures was { IfSome (slot_object (slice_index_or self.old region None) cell)
            (λ o. result.1 ≡ header_of o) }
    {
        free_in(&mut self.slots[region], self.turns, cell)
    }

    // Writes one slot of an object. The storage needn't be turned for that.
    #[inline(always)]
    pub(crate) fn set_word(&mut self, region: usize, cell: usize, index: usize, value: u64)
        requires { index
            < length (words_of (slot_object (slice_index_or self.old region None) cell)) }
        ensures state { self.new
            ≡ slice_set self.old region
            (option_map (λ u. changed_at u cell (word_set index value))
            (slice_index_or self.old region None)) }
        ensures whole { IfSome (slice_index_or self.new region None) (λ u. IsWholeRegion u) }
    {
        set_word_in(&mut self.slots[region], cell, index, value);
    }

    // Writes a bit of an object. Returns the bit that it had.
    #[inline(always)]
    pub(crate) fn set_bit(&mut self, region: usize, cell: usize, bit: Bit, on: bool) -> bool
        requires { IsSome (slot_object (slice_index_or self.old region None) cell) }
        ensures was { IfSome (slot_object (slice_index_or self.old region None) cell)
            (λ o. result ≡ bit_of bit o) }
        ensures state { self.new
            ≡ slice_set self.old region
            (option_map (λ u. changed_at u cell (bit_set bit on))
            (slice_index_or self.old region None)) }
        ensures whole { IfSome (slice_index_or self.new region None) (λ u. IsWholeRegion u) }
    {
        set_bit_in(&mut self.slots[region], self.turns, cell, bit, on)
    }

    // Sets whether a region waits to be swept.
    pub(crate) fn set_pending(&mut self, region: usize, pending: bool)
        requires { IsSome (slice_index_or self.old region None) }
        ensures { self.new
            ≡ slice_set self.old region
            (option_map (pending_set pending) (slice_index_or self.old region None)) }
    {
        set_pending_in(&mut self.slots[region], self.turns, pending);
    }

    // Puts an object back into the cell, which heads the free list. Tells whether no cell is free then.
    pub(crate) fn unfree(&mut self, region: usize, cell: usize, object: &ObjectCopy) -> bool
        requires { IsSomeAnd (slice_index_or self.old region None)
            (λ u. Heads cell u.free × FitsWords u.cell_size (length object.now.words)) }
        ensures state { self.new
            ≡ slice_set self.old region
            (option_map (λ u. cell_filled u cell object.now)
            (slice_index_or self.old region None)) }
        ensures whole { IfSome (slice_index_or self.new region None) (λ u. IsWholeRegion u) }
        ensures full { result ≡ is_none (first_in (slice_index_or self.new region None)) }
    {
        unfree_in(&mut self.slots[region], self.turns, cell, object)
    }

    // Moves the storage out of a region in use.
    pub(crate) fn take_out(&mut self, region: usize) -> Storage
        requires { IsSome (slice_index_or self.old region None) }
        ensures storage { slice_index_or self.old region None ≡ Some result }
        ensures state { self.new ≡ slice_set self.old region None }
    {
        take_out(&mut self.slots[region], self.turns)
    }

    // Moves a storage into a region.
    pub(crate) fn put_in(&mut self, region: usize, storage: Storage)
        requires { region < length self.old }
        ensures { self.new ≡ slice_set self.old region (Some storage) }
    {
        self.slots[region] = Slot::Used {
            seen: self.turns,
            storage,
        };
    }

    // Tells whether a region's storage was turned less far than the heap, which contracts don't see.
    #[inline(always)]
    pub(crate) fn is_late(&self, region: usize) -> bool
        requires { region < length self.now }
    {
        is_late_in(&self.slots[region], self.turns)
    }

    // Turns a region's storage as far as the heap. Contracts see no change.
    pub(crate) fn settle(&mut self, region: usize)
        ensures { self.new ≡ self.old }
    {
        if region >= self.slots.len() {
            return;
        }
        settle_in(&mut self.slots[region], self.turns);
    }

    // Turns all regions in use: each object is live if it was marked, and marked if it wasn't live. A region then waits to be
    // swept if it didn't.
    pub(crate) fn turn(&mut self)
        ensures { self.new ≡ map (option_map turned_region) self.old }
    {
        self.turns = self.turns.next();
    }

    // Undoes `turn`.
    pub(crate) fn turn_back(&mut self)
        ensures { self.new ≡ map (option_map turned_back_region) self.old }
    {
        self.turns = self.turns.prior();
    }
}
