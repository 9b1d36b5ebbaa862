//! A copy of a region, to be read after the region was overwritten.
ghost use Rattle.std.specs.Prelude.{◌≡◌, ◌*◌, ◌+◌, ◌<◌, ◌≤◌, length, IfOk, IsSome, IfSome, Some};
ghost use Rattle.heap_region.specs.Regions.{FitsWords, UsedRegion};
ghost use Rattle.heap_region.specs.Turns.{turned_back_region, turned_by, turned_region};
ghost use Rattle.heap_region.specs.RegionCopies.{frozen, frozen_object, frozen_with, frozen_word_set, frozen_words};
ghost use Rattle.heap_region.specs.Limits.{heap_words};

use crate::block::Block;
use crate::quarter::Quarter;
use crate::storage::{ObjectCopy, Storage, header_at, part, put_object};
use heap_class::ObjKind;
use std::alloc::{AllocError, Global};
use std::marker::Model;

/// A copy of a region: its cells with the objects in them, and no free list. The bits of its objects are those that they
/// had when it was made.
#[derive(Drop)]
pub struct FrozenRegion {
    block: Block,
    cell_size: u32,
}

impl Model for FrozenRegion {
    ghost use Rattle.heap_region.specs.RegionCopies.{Frozen, IsLaid};

    ghost Value = { Frozen };

    ghost use Rattle.heap_region.specs.Layout.{cells_from};

    ghost view = { λ f.
        record {
          cell_size = f.cell_size;
          cells = cells_from f.cell_size f.block.words 0 f.block.headers;
        } };

    ghost invariant = { λ f. IsLaid f.cell_size f.block.words f.block.headers };
}

impl Storage {
    // Returns a copy of the region. Fails if the allocation fails.
    pub(crate) fn freeze(&self, alloc: Global) -> Result<FrozenRegion, AllocError>
        ensures { IfOk result (λ f. f ≡ frozen self.now) }
    {
        Ok(FrozenRegion {
            block: self.block.copied(alloc)?,
            cell_size: self.cell_size,
        })
    }
}

impl FrozenRegion {
    // Turns the bits of all objects.
    fn turn(&mut self)
        ensures { (u : UsedRegion) → self.old ≡ frozen u → self.new ≡ frozen (turned_region u) }
    {
        self.block.turn();
    }

    // Undoes `turn`.
    fn turn_back(&mut self)
        ensures { (u : UsedRegion) → self.old ≡ frozen u
            → self.new ≡ frozen (turned_back_region u) }
    {
        self.block.turn_back();
    }

    // Turns the bits of all objects `turns` times, modulo 4.
    #[tactic(auto, unfolding(crate::specs::Turns::turned_by))]
    pub(crate) fn turn_by(&mut self, turns: Quarter)
        ensures { (u : UsedRegion) → self.old ≡ frozen u → self.new ≡ frozen (turned_by turns u) }
    {
        match turns {
            Quarter::Zero => {}
            Quarter::One => self.turn(),
            Quarter::Two => {
                self.turn();
                self.turn();
            }
            Quarter::Three => self.turn_back(),
        }
    }

    /// Returns a copy of the copy. Fails if the allocation fails.
    pub fn copied(&self, alloc: Global) -> Result<FrozenRegion, AllocError>
        ensures { IfOk result (λ f. f ≡ self.now) }
    {
        Ok(FrozenRegion {
            block: self.block.copied(alloc)?,
            cell_size: self.cell_size,
        })
    }

    /// Returns the size of each cell in words.
    pub fn cell_size(&self) -> u64
        ensures value { result ≡ self.now.cell_size }
        ensures limit { result ≤ heap_words }
    {
        self.cell_size as u64
    }

    /// Returns the kind of the object in the cell, which must have one.
    #[tactic(auto, using(crate::proofs::Cells::shown_headers))]
    pub fn kind(&self, cell: u64) -> ObjKind
        requires { IsSome (frozen_object self.now cell) }
        ensures { IfSome (frozen_object self.now cell) (λ o. result ≡ o.kind) }
    {
        header_at(self.block.headers(), cell as usize).kind
    }

    /// Returns the words of the object in the cell, in slot order. The cell must have one.
    #[tactic(auto, using(crate::proofs::Cells::headers_lie))]
    pub fn words(&self, cell: u64) -> &[u64]
        requires { IsSome (frozen_object self.now cell) }
        ensures { IfSome (frozen_object self.now cell) (λ o. result.now ≡ o.words) }
    {
        let len = header_at(self.block.headers(), cell as usize).len;
        part(
            self.block.words(),
            cell as usize * self.cell_size as usize,
            len,
        )
    }

    /// Writes a word of the object in the cell, which must have the slot. Takes no memory.
    #[tactic(auto, using(crate::proofs::Cells::words_lie))]
    pub fn set_word(&mut self, cell: u64, slot: u64, value: u64)
        requires { slot < length (frozen_words self.old cell) }
        ensures { self.new ≡ frozen_word_set cell slot value self.old }
    {
        let at = cell as usize * self.cell_size as usize + slot as usize;
        self.block.set_word(at, value);
    }

    /// Puts an object into the cell, whether or not the cell had one. The cells must have the least size that holds it. Takes
    /// no memory.
    #[tactic(auto, using(crate::proofs::Cells::shown_cell_lies_within_words))]
    pub fn put(&mut self, cell: u64, object: &ObjectCopy)
        requires within { cell < length self.old.cells }
        requires fits { FitsWords self.old.cell_size (length object.now.words) }
        ensures { self.new ≡ frozen_with cell (Some object.now) self.old }
    {
        let start = cell as usize * self.cell_size as usize;
        put_object(&mut self.block, start, cell as usize, object);
    }
}
