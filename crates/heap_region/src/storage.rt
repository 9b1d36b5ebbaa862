//! A region in use: 1,024 words, cut into cells of one size, with a free list that lies in the free cells; or the words of
//! several regions in one cell.
ghost use Rattle.std.specs.Prelude.{◌≡◌, ◌+◌, ◌-◌, ◌*◌, ◌<◌, ◌≤◌, length, IfOk, IsSome, IfSome, slice_index, slice_index_or, take, drop, Some, None, is_none, is_some, option_map, slice_get, slice_set};
ghost use Rattle.heap_region.specs.Regions.{FitsWords, block_words, cell_object};
ghost use Rattle.heap_region.specs.Pool.{blank_object, cell_freed, fresh_region};
ghost use Rattle.heap_region.specs.Layout.{IsBlockSize, IsWholeRegion, words_at, changed_at, word_set, bit_of, bit_set, cell_filled, Heads, overwritten, header_of};
ghost use Rattle.heap_region.specs.Slots.{AreCounted};
ghost use Rattle.heap_region.specs.Turns.{turned_by, turned_region, turned_back_region};
ghost use Rattle.heap_region.specs.Limits.{cell_limit, heap_words};

use crate::block::Block;
use crate::cell::{Bit, Header};
use crate::counts::Counts;
use crate::headers::Headers;
use crate::lists::FreeCells;
use crate::quarter::Quarter;
use crate::region_view::RegionView;
use crate::sizes::cell_count;
use heap_class::ObjKind;
use smallvec::SmallVec;
use std::alloc::{AllocError, Global};
use std::marker::Model;

/// A region in use, or the regions that a large object takes.
#[derive(Drop)]
pub struct Storage {
    pub(crate) block: Block,
    pub(crate) cell_size: u32,
    // The number of the cell that heads the free list plus one, or 0 if there is none.
    // The first word of each free cell has the next such number.
    head: u16,
    pending: bool,
}

impl Model for Storage {
    ghost use Rattle.heap_region.specs.Regions.{UsedRegion};

    ghost Value = { UsedRegion };

    ghost use Rattle.std.specs.Prelude.{length};
    ghost use Rattle.heap_region.specs.Layout.{cells_from, walk, IsSound};

    ghost view = { λ s. record {
      cell_size = s.cell_size;
      pending = s.pending;
      cells = cells_from s.cell_size s.block.words 0 s.block.headers;
      free = walk (length s.block.headers) s.cell_size s.block.words s.head;
    } };

    ghost invariant = { λ s. IsSound s.cell_size s.block.words s.block.headers
        s.head (walk (length s.block.headers) s.cell_size s.block.words s.head) };
}

/// A copy of an object: its kind, its slots and its two bits.
#[derive(Drop)]
pub struct ObjectCopy {
    pub(crate) kind: ObjKind,
    // Those of the smallest cells need no allocation.
    pub(crate) words: SmallVec<u64, 4>,
    pub(crate) live: bool,
    pub(crate) mark: bool,
}

impl Model for ObjectCopy {
    ghost use Rattle.heap_region.specs.Regions.{Object};

    ghost Value = { Object };

    ghost view = { λ o. record {
      kind = o.kind;
      words = o.words.items;
      live = o.live;
      mark = o.mark;
    } };
}

impl ObjectCopy {
    /// Returns the kind of the object.
    pub fn kind(&self) -> ObjKind
        ensures { result ≡ self.now.kind }
    {
        self.kind
    }

    /// Returns the number of slots of the object.
    pub fn len(&self) -> u64
        ensures { result ≡ length self.now.words }
    {
        self.words.len() as u64
    }

    /// Returns the words of the object, in slot order.
    pub fn words(&self) -> &[u64]
        ensures { result.now ≡ self.now.words }
    {
        &self.words
    }

    /// Returns the two bits of the object, `live` and `mark`.
    pub fn bits(&self) -> (bool, bool)
        ensures { (result.0 ≡ self.now.live) × (result.1 ≡ self.now.mark) }
    {
        (self.live, self.mark)
    }

    // Sets the two bits, `live` and `mark`.
    #[inline(always)]
    pub(crate) fn set_bits(&mut self, bits: (bool, bool))
        ensures { self.new ≡ record self.old { live = bits.0; mark = bits.1 } }
    {
        self.live = bits.0;
        self.mark = bits.1;
    }

    // Returns what counts of the object: its header.
    pub(crate) fn header(&self) -> Header
        ensures { result ≡ header_of self.now }
    {
        Header {
            kind: self.kind,
            len: self.words.len(),
            live: self.live,
            mark: self.mark,
        }
    }
}

// Returns the header of the object in a cell, which must have one.
#[inline(always)]
pub(crate) fn header_at(headers: &Headers, cell: usize) -> Header
    requires { IsSome (slice_index_or headers.now cell None) }
    ensures { slice_index_or headers.now cell None ≡ Some result }
{
    match headers.at(cell) {
        Some(header) => header,
        None => unreachable!(),
    }
}

// Tells whether a cell has an object.
fn is_taken(headers: &Headers, cell: usize) -> bool
    ensures { result ≡ is_some (slice_index_or headers.now cell None) }
{
    cell < headers.len() && headers.at(cell).is_some()
}

// Returns the two bits of the object in a cell. None if the cell has no object.
#[inline(always)]
fn bits_at(headers: &Headers, cell: usize) -> Option<(bool, bool)>
    ensures { result ≡ option_map (λ h. (h.live, h.mark)) (slice_index_or headers.now cell None) }
{
    if cell >= headers.len() {
        return None;
    }
    match headers.at(cell) {
        Some(header) => Some((header.live, header.mark)),
        None => None,
    }
}

// Returns the `len` words from `start` on.
pub(crate) fn part(words: &[u64], start: usize, len: usize) -> &[u64]
    requires { start + len ≤ length words.now }
    ensures { result.now ≡ take len (drop start words.now) }
{
    &words[start..start + len]
}

// Writes an object into a cell: its words from `start` on, and its header.
pub(crate) fn put_object(block: &mut Block, start: usize, cell: usize, object: &ObjectCopy)
    requires lies { start + length object.now.words ≤ length block.old.words }
    requires within { cell < length block.old.headers }
    requires fits { length object.now.words ≤ heap_words }
    ensures words { block.new.words ≡ overwritten block.old.words start object.now.words }
    ensures headers { block.new.headers
        ≡ slice_set block.old.headers cell (Some (header_of object.now)) }
{
    block.overwrite(start, &object.words);
    block.set(cell, object.header());
}

impl Storage {
    // Creates a region with cells of this size, all of them free. Fails if an allocation fails.
    pub(crate) fn new(alloc: Global, cell_size: usize) -> Result<Storage, AllocError>
        requires { IsBlockSize cell_size }
        ensures { IfOk result (λ s. s ≡ fresh_region cell_size) }
    {
        let count = cell_count(cell_size);
        let mut block = Block::vacant(alloc, cell_size, count)?;
        block.link(cell_size, count);
        Ok(Storage {
            block,
            cell_size: cell_size as u32,
            head: 1,
            pending: false,
        })
    }

    // Returns the number of cells of the region: at most 256.
    pub(crate) fn cells(&self) -> u64
        ensures value { result ≡ length self.now.cells }
        ensures limit { result ≤ cell_limit }
    {
        self.block.headers().len() as u64
    }

    // Returns the number of words of the regions that the storage takes.
    pub(crate) fn word_count(&self) -> u64
        ensures value { result ≡ block_words self.now.cell_size }
        ensures limit { result ≤ heap_words }
    {
        self.block.words().len() as u64
    }

    // Returns the size of each cell in words.
    #[inline(always)]
    pub(crate) fn cell_size(&self) -> usize
        ensures value { result ≡ self.now.cell_size }
        ensures whole { IsWholeRegion self.now }
    {
        self.cell_size as usize
    }

    // Tells whether the region waits to be swept.
    pub(crate) fn pending(&self) -> bool
        ensures { result ≡ self.now.pending }
    {
        self.pending
    }

    // Sets whether the region waits to be swept.
    pub(crate) fn set_pending(&mut self, pending: bool)
        ensures { self.new ≡ record self.old { pending = pending } }
    {
        self.pending = pending;
    }

    // Turns the bits of all objects: each is live if it was marked, and marked if it wasn't live. The region then waits to be
    // swept if it didn't.
    pub(crate) fn turn(&mut self)
        ensures { self.new ≡ turned_region self.old }
    {
        self.block.turn();
        self.pending = !self.pending;
    }

    // Undoes `turn`.
    pub(crate) fn turn_back(&mut self)
        ensures { self.new ≡ turned_back_region self.old }
    {
        self.block.turn_back();
        self.pending = !self.pending;
    }

    // Turns the bits `turns` times, modulo 4.
    #[tactic(auto, unfolding(crate::specs::Turns::turned_by))]
    #[inline(never)]
    pub(crate) fn turn_by(&mut self, turns: Quarter)
        ensures { self.new ≡ turned_by turns self.old }
    {
        match turns {
            Quarter::Zero => {}
            Quarter::One => self.turn(),
            Quarter::Two => {
                self.turn();
                self.turn();
            }
            Quarter::Three => self.turn_back(),
        }
    }

    /// Returns the region as it is read.
    #[inline(always)]
    pub fn view(&self) -> RegionView<'_>
        ensures { result ≡ self.now }
    {
        RegionView {
            storage: self,
            seen: Quarter::Zero,
            turns: Quarter::Zero,
        }
    }

    // Returns how many objects there are, and of how many a bit isn't set.
    #[inline(always)]
    pub(crate) fn counts(&self) -> Counts
        ensures counted { AreCounted self.now.cells result }
        ensures whole { IsWholeRegion self.now }
    {
        self.block.headers().counts()
    }

    // Returns the cell that heads the free list, which must have one.
    #[inline(always)]
    pub(crate) fn free_head(&self) -> usize
        requires { IsSome (slice_get self.now.free 0) }
        ensures value { slice_get self.now.free 0 ≡ Some result }
        ensures limit { result < cell_limit }
    {
        (self.head - 1) as usize
    }

    // Tells whether no cell is free.
    #[inline(always)]
    pub(crate) fn is_full(&self) -> bool
        ensures value { result ≡ is_none (slice_get self.now.free 0) }
        ensures whole { IsWholeRegion self.now }
    {
        self.head == 0
    }

    // Returns the free cells, head first.
    pub(crate) fn free_list(&self) -> FreeCells<'_>
        ensures { result ≡ self.now.free }
    {
        FreeCells {
            words: self.block.words(),
            cell_size: self.cell_size as usize,
            count: self.block.headers().len(),
            link: self.head as u64,
        }
    }

    // Returns the number of slots of the object in the cell.
    #[tactic(auto, using(crate::proofs::Cells::headers_lie, crate::proofs::Cells::length_of_object))]
    #[inline(always)]
    pub(crate) fn len(&self, cell: usize) -> usize
        requires { IsSome (cell_object self.now cell) }
        ensures value { result ≡ length (words_at self.now cell) }
        ensures limit { result ≤ heap_words }
    {
        header_at(self.block.headers(), cell).len
    }

    // Returns the kind of the object in the cell.
    #[tactic(auto, using(crate::proofs::Cells::shown_headers))]
    #[inline(always)]
    pub(crate) fn kind(&self, cell: usize) -> ObjKind
        requires { IsSome (cell_object self.now cell) }
        ensures { IfSome (cell_object self.now cell) (λ o. result ≡ o.kind) }
    {
        header_at(self.block.headers(), cell).kind
    }

    // Returns the two bits of the object in the cell, `live` and `mark`.
    #[tactic(auto, using(crate::proofs::Cells::shown_headers))]
    #[inline(always)]
    pub(crate) fn bits(&self, cell: usize) -> (bool, bool)
        requires { IsSome (cell_object self.now cell) }
        ensures { IfSome (cell_object self.now cell)
            (λ o. (result.0 ≡ o.live) × (result.1 ≡ o.mark)) }
    {
        let header = header_at(self.block.headers(), cell);
        (header.live, header.mark)
    }

    // Tells whether there is an object in the cell. False if the region doesn't have the cell.
    pub(crate) fn has_object(&self, cell: u64) -> bool
        ensures { result ≡ is_some (slice_index_or self.now.cells cell None) }
    {
        is_taken(self.block.headers(), cell as usize)
    }

    // Returns the two bits of the object in the cell, `live` and `mark`. None if there is no object in it or the region doesn't
    // have the cell.
    #[inline(always)]
    pub(crate) fn bits_if(&self, cell: u64) -> Option<(bool, bool)>
        ensures { result ≡ option_map (λ o. (o.live, o.mark)) (cell_object self.now cell) }
    {
        bits_at(self.block.headers(), cell as usize)
    }

    // Returns a word of the object in the cell.
    #[tactic(auto, using(crate::proofs::Cells::words_lie))]
    #[inline(always)]
    pub(crate) fn word(&self, cell: usize, slot: usize) -> u64
        requires { slot < length (words_at self.now cell) }
        ensures { result ≡ slice_index (words_at self.now cell) slot }
    {
        self.block.word(cell * self.cell_size as usize + slot)
    }

    // Returns the words of the object in the cell, in slot order.
    #[tactic(auto, using(crate::proofs::Cells::headers_lie))]
    pub(crate) fn words(&self, cell: usize) -> &[u64]
        requires { IsSome (cell_object self.now cell) }
        ensures { IfSome (cell_object self.now cell) (λ o. result.now ≡ o.words) }
    {
        let len = header_at(self.block.headers(), cell).len;
        part(self.block.words(), cell * self.cell_size as usize, len)
    }

    // Writes a word of the object in the cell.
    #[tactic(auto, using(crate::proofs::Cells::words_lie))]
    #[inline(always)]
    pub(crate) fn set_word(&mut self, cell: usize, slot: usize, value: u64)
        requires { slot < length (words_at self.old cell) }
        ensures value { self.new ≡ changed_at self.old cell (word_set slot value) }
        ensures whole { IsWholeRegion self.new }
    {
        let at = cell * self.cell_size as usize + slot;
        self.block.set_word(at, value);
    }

    // Writes a bit of the object in the cell. Returns the bit that it had.
    #[tactic(auto, using(crate::proofs::Cells::shown_headers))]
    #[inline(always)]
    pub(crate) fn set_bit(&mut self, cell: usize, bit: Bit, on: bool) -> bool
        requires { IsSome (cell_object self.old cell) }
        ensures was { IfSome (cell_object self.old cell) (λ o. result ≡ bit_of bit o) }
        ensures value { self.new ≡ changed_at self.old cell (bit_set bit on) }
        ensures whole { IsWholeRegion self.new }
    {
        self.block.set_bit(cell, bit, on)
    }

    // Returns a copy of the object in the cell. Fails if the allocation fails.
    #[tactic(auto, using(crate::proofs::Cells::headers_lie))]
    pub(crate) fn object(&self, alloc: Global, cell: usize) -> Result<ObjectCopy, AllocError>
        requires { IsSome (cell_object self.now cell) }
        ensures { IfOk result (λ o. cell_object self.now cell ≡ Some o) }
    {
        let header = header_at(self.block.headers(), cell);
        let start = cell * self.cell_size as usize;
        let words = SmallVec::from_slice(alloc, part(self.block.words(), start, header.len))?;
        Ok(ObjectCopy {
            kind: header.kind,
            words,
            live: header.live,
            mark: header.mark,
        })
    }

    // Takes the object out of the cell, which then heads the free list. Returns the object's header.
    #[tactic(auto, using(crate::proofs::Cells::headers_lie))]
    #[inline(always)]
    pub(crate) fn free(&mut self, cell: usize) -> Header
        requires { IsSome (cell_object self.old cell) }
        ensures was { IfSome (cell_object self.old cell) (λ o. result ≡ header_of o) }
        ensures state { self.new ≡ cell_freed self.old cell }
        ensures whole { IsWholeRegion self.new }
    {
        let start = cell * self.cell_size as usize;
        self.block.set_word(start, self.head as u64);
        let was = self.block.free(cell);
        self.head = (cell + 1) as u16;
        was
    }

    // Puts a new object into the cell, which heads the free list.
    #[tactic(auto, using(crate::proofs::CellChanges::free_head_lies_within_region))]
    #[inline(always)]
    pub(crate) fn take(&mut self, cell: usize, kind: ObjKind, len: usize, mark: bool)
        requires head { Heads cell self.old.free }
        requires fits { FitsWords self.old.cell_size len }
        ensures { self.new ≡ cell_filled self.old cell (blank_object kind len mark) }
    {
        let start = cell * self.cell_size as usize;
        self.head = self.block.word(start) as u16;
        self.block.clear(start, len);
        let header = Header {
            kind,
            len,
            live: true,
            mark,
        };
        self.block.fill(cell, header);
    }

    // Puts an object back into the cell, which heads the free list.
    #[tactic(auto, using(crate::proofs::CellChanges::free_head_lies_within_region))]
    pub(crate) fn unfree(&mut self, cell: usize, object: &ObjectCopy)
        requires head { Heads cell self.old.free }
        requires fits { FitsWords self.old.cell_size (length object.now.words) }
        ensures { self.new ≡ cell_filled self.old cell object.now }
    {
        let start = cell * self.cell_size as usize;
        self.head = self.block.word(start) as u16;
        put_object(&mut self.block, start, cell, object);
    }
}
