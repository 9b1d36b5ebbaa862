//! A region in use, to be looked at.
ghost use Rattle.std.specs.Prelude.{◌≡◌, ◌<◌, ◌≤◌, length, IfOk, IfSome, IsSome, is_some, option_map, slice_index, slice_index_or};
ghost use Rattle.heap_region.specs.Regions.{Object, UsedRegion, block_words, cell_object};
ghost use Rattle.heap_region.specs.RegionCopies.{frozen};
ghost use Rattle.heap_region.specs.Layout.{IsWholeRegion, words_at};
ghost use Rattle.heap_region.specs.Limits.{cell_limit, heap_words};
ghost use Rattle.heap_region.specs.Live.{IsNextLive};
ghost use Rattle.heap_region.specs.Slots.{AreCounted};
ghost use Rattle.heap_region.specs.Turns.{object_turned_by, turned_by};

use crate::counts::Counts;
use crate::frozen_region::FrozenRegion;
use crate::lists::FreeCells;
use crate::quarter::Quarter;
use crate::storage::{ObjectCopy, Storage};
use heap_class::ObjKind;
use std::alloc::{AllocError, Global};
use std::marker::Model;

/// A region in use. Contracts see the region.
#[derive(Drop)]
pub struct RegionView<'a> {
    pub(crate) storage: &'a Storage,
    // The turns that the storage was given, and those that the region is shown at.
    pub(crate) seen: Quarter,
    pub(crate) turns: Quarter,
}

impl<'a> Model for RegionView<'a> {
    ghost use Rattle.heap_region.specs.Regions.{UsedRegion};

    ghost Value = { UsedRegion };

    ghost use Rattle.heap_region.specs.Quarters.{since};
    ghost use Rattle.heap_region.specs.Turns.{turned_by};

    ghost view = { λ v. turned_by (since v.turns v.seen) v.storage.now };
}

// Returns the two bits of an object, `live` and `mark`, after `turns` turns.
fn bits_turned(bits: (bool, bool), turns: Quarter) -> (bool, bool)
    ensures { (o : Object) → o.live ≡ bits.0 → o.mark ≡ bits.1
        → (result.0 ≡ (object_turned_by turns o).live)
        × (result.1 ≡ (object_turned_by turns o).mark) }
{
    let (live, mark) = bits;
    match turns {
        Quarter::Zero => (live, mark),
        Quarter::One => (mark, !live),
        Quarter::Two => (!live, !mark),
        Quarter::Three => (!mark, live),
    }
}

// Tells whether a region waits to be swept, after `turns` turns.
fn pending_turned(pending: bool, turns: Quarter) -> bool
    ensures { (u : UsedRegion) → u.pending ≡ pending → result ≡ (turned_by turns u).pending }
{
    match turns {
        Quarter::Zero => pending,
        Quarter::One => !pending,
        Quarter::Two => pending,
        Quarter::Three => !pending,
    }
}

// Returns the counts of objects after `turns` turns.
fn counts_turned(counts: Counts, turns: Quarter) -> Counts
    requires { (u : UsedRegion) × AreCounted u.cells counts }
    ensures { (u : UsedRegion) → AreCounted u.cells counts
        → AreCounted (turned_by turns u).cells result }
{
    match turns {
        Quarter::Zero => counts,
        Quarter::One => counts.next(),
        Quarter::Two => counts.next().next(),
        Quarter::Three => counts.prior(),
    }
}

impl<'a> RegionView<'a> {
    /// Returns the number of cells of the region: at most 256.
    #[inline(always)]
    pub fn cells(&self) -> u64
        ensures value { result ≡ length self.now.cells }
        ensures limit { result ≤ cell_limit }
    {
        self.storage.cells()
    }

    /// Returns the number of words of the regions that the region's objects take.
    pub fn word_count(&self) -> u64
        ensures value { result ≡ block_words self.now.cell_size }
        ensures limit { result ≤ heap_words }
    {
        self.storage.word_count()
    }

    // Returns the size of each cell in words.
    #[inline(always)]
    pub(crate) fn cell_size(&self) -> usize
        ensures value { result ≡ self.now.cell_size }
        ensures whole { IsWholeRegion self.now }
    {
        self.storage.cell_size()
    }

    // Tells whether the region waits to be swept.
    pub(crate) fn pending(&self) -> bool
        ensures { result ≡ self.now.pending }
    {
        pending_turned(self.storage.pending(), self.turns.since(self.seen))
    }

    // Returns how many objects there are, and of how many a bit isn't set.
    pub(crate) fn counts(&self) -> Counts
        ensures counted { AreCounted self.now.cells result }
        ensures whole { IsWholeRegion self.now }
    {
        counts_turned(self.storage.counts(), self.turns.since(self.seen))
    }

    // Returns the free cells, head first.
    pub(crate) fn free_list(self) -> FreeCells<'a>
        ensures { result ≡ self.entry.free }
    {
        self.storage.free_list()
    }

    // Returns the number of slots of the object in the cell.
    #[inline(always)]
    pub(crate) fn len(&self, cell: usize) -> usize
        requires { IsSome (cell_object self.now cell) }
        ensures value { result ≡ length (words_at self.now cell) }
        ensures limit { result ≤ heap_words }
    {
        self.storage.len(cell)
    }

    // Returns the kind of the object in the cell.
    #[inline(always)]
    pub(crate) fn kind(&self, cell: usize) -> ObjKind
        requires { IsSome (cell_object self.now cell) }
        ensures { IfSome (cell_object self.now cell) (λ o. result ≡ o.kind) }
    {
        self.storage.kind(cell)
    }

    // Returns the two bits of the object in the cell, `live` and `mark`.
    #[inline(always)]
    pub(crate) fn bits(&self, cell: usize) -> (bool, bool)
        requires { IsSome (cell_object self.now cell) }
        ensures { IfSome (cell_object self.now cell)
            (λ o. (result.0 ≡ o.live) × (result.1 ≡ o.mark)) }
    {
        let bits = self.storage.bits(cell);
        if self.turns.is(self.seen) {
            return bits;
        }
        bits_turned(bits, self.turns.since(self.seen))
    }

    /// Tells whether there is an object in the cell. False if the region doesn't have the cell.
    pub fn has_object(&self, cell: u64) -> bool
        ensures { result ≡ is_some (slice_index_or self.now.cells cell None) }
    {
        self.storage.has_object(cell)
    }

    /// Tells whether the object in the cell is live. None if there is no object in it or the region doesn't have the cell.
    #[inline(always)]
    pub fn liveness(&self, cell: u64) -> Option<bool>
        ensures { result ≡ option_map (λ o. o.live) (cell_object self.now cell) }
    {
        let Some(bits) = self.storage.bits_if(cell) else {
            return None;
        };
        if self.turns.is(self.seen) {
            return Some(bits.0);
        }
        Some(bits_turned(bits, self.turns.since(self.seen)).0)
    }

    // Returns the first cell from this one on that has a live object.
    pub(crate) fn next_live(&self, from: usize) -> Option<usize>
        ensures value { IsNextLive self.now from result }
        ensures limit { IfSome result (λ cell. cell < cell_limit) }
    {
        for cell in from..self.cells() as usize {
            if self.liveness(cell as u64).unwrap_or(false) {
                return Some(cell);
            }
        }
        None
    }

    // Returns a word of the object in the cell.
    #[inline(always)]
    pub(crate) fn word(&self, cell: usize, slot: usize) -> u64
        requires { slot < length (words_at self.now cell) }
        ensures { result ≡ slice_index (words_at self.now cell) slot }
    {
        self.storage.word(cell, slot)
    }

    // Returns the words of the object in the cell, in slot order.
    pub(crate) fn words(self, cell: usize) -> &'a [u64]
        requires { IsSome (cell_object self cell) }
        ensures { IfSome (cell_object self.entry cell) (λ o. result.now ≡ o.words) }
    {
        self.storage.words(cell)
    }

    // Returns a copy of the object in the cell. Fails if the allocation fails.
    pub(crate) fn object(&self, alloc: Global, cell: usize) -> Result<ObjectCopy, AllocError>
        requires { IsSome (cell_object self.now cell) }
        ensures { IfOk result (λ o. cell_object self.now cell ≡ Some o) }
    {
        let bits = self.bits(cell);
        let mut object = self.storage.object(alloc, cell)?;
        object.set_bits(bits);
        Ok(object)
    }

    /// Returns a copy of the region. Fails if the allocation fails.
    pub fn freeze(&self, alloc: Global) -> Result<FrozenRegion, AllocError>
        ensures { IfOk result (λ f. f ≡ frozen self.now) }
    {
        let mut copy = self.storage.freeze(alloc)?;
        copy.turn_by(self.turns.since(self.seen));
        Ok(copy)
    }
}
