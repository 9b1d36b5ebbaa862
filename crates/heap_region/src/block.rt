//! The words and the headers of a region in use, or of the regions that a large object takes.
ghost use Rattle.std.specs.Prelude.{◌≡◌, ◌+◌, ◌*◌, ℕ, ◌<◌, ◌≤◌, [], length, IfOk, IfSome, IsSome, slice_index, slice_index_or, slice_set, map, option_map, replicate, Some, None};
ghost use Rattle.heap_region.specs.Layout.{IsBlockSize, header_bit, next_link, overwritten, with_bit};
ghost use Rattle.heap_region.specs.Limits.{cell_limit, heap_words};
ghost use Rattle.heap_region.specs.Regions.{block_words};
ghost use Rattle.heap_region.specs.TurnedHeaders.{turned_header, turned_back_header};

use crate::cell::{Bit, Header};
use crate::headers::Headers;
use std::alloc::{AllocError, Global};
use std::marker::Model;

// The largest number of cells of a region.
const CELLS: usize = 256;

// The words and the headers of one region, allocated together.
#[derive(Drop)]
struct RegionBlock {
    // The headers of the cells. They stand at the beginning of either block, so that it doesn't matter to them which it is.
    headers: Headers,
    words: [u64; 1024],
}

// The words of several regions, and the header of the object in them.
#[derive(Drop)]
struct LargeBlock {
    headers: Headers,
    words: Vec<u64>,
}

// The words and the headers, as they are allocated.
#[derive(Drop)]
enum Parts {
    // Those of one region.
    Region(Box<RegionBlock>),
    // Those of several regions.
    Large(Box<LargeBlock>),
}

// The words and the headers of the cells of one region, or of the cell that takes several. Contracts see both.
#[derive(Drop)]
pub(crate) struct Block {
    parts: Parts,
}

impl Model for Block {
    ghost use Rattle.heap_region.specs.Blocks.{Contents, contents_of};

    ghost Value = { Contents };

    ghost view = { λ b. contents_of b.parts };
}

// Returns the word at a place.
#[inline(always)]
fn word_at(words: &[u64], at: usize) -> u64
    requires { at < length words.now }
    ensures { result ≡ slice_index words.now at }
{
    words[at]
}

// Writes the word at a place.
#[inline(always)]
fn write_at(words: &mut [u64], at: usize, value: u64)
    requires { at < length words.old }
    ensures { words.new ≡ slice_set words.old at value }
{
    words[at] = value;
}

// Sets the `len` words from `start` on to 0. A known number of words is written without a call.
#[inline(always)]
fn clear(words: &mut [u64], start: usize, len: usize)
    requires { start + len ≤ length words.old }
    ensures { words.new ≡ overwritten words.old start (replicate len 0) }
{
    match len {
        1 => words[start..start + 1].fill(0),
        2 => words[start..start + 2].fill(0),
        3 => words[start..start + 3].fill(0),
        4 => words[start..start + 4].fill(0),
        _ => words[start..start + len].fill(0),
    }
}

// Copies words over those from `start` on.
fn overwrite(words: &mut [u64], start: usize, from: &[u64])
    requires { start + length from.now ≤ length words.old }
    ensures { words.new ≡ overwritten words.old start from.now }
{
    words[start..start + from.len()].copy_from_slice(from);
}

// Links the first `count` cells, each to the next.
fn link_cells(words: &mut [u64], cell_size: usize, count: usize)
    requires sized { 0 < cell_size }
    requires within { count * cell_size ≤ length words.old }
    ensures { (cell : ℕ) → cell < count
        → slice_index words.new (cell * cell_size) ≡ next_link count cell }
{
    for cell in 0..count {
        let link = if cell + 1 < count { cell as u64 + 2 } else { 0 };
        words[cell * cell_size] = link;
    }
}

impl RegionBlock {
    // Returns words that are all 0, and no cells. It is never inlined, so that no other function has a block on its stack.
    #[inline(never)]
    fn blank(alloc: Global) -> Result<Box<RegionBlock>, AllocError>
        ensures { IfOk result
            (λ b. (b.value.words ≡ replicate 1024 0) × (b.value.headers ≡ [])) }
    {
        let blank = RegionBlock {
            headers: Headers::new(),
            words: [0; 1024],
        };
        Ok(Box::new(alloc, blank)?)
    }

    // Returns words that are all 0, and 256 cells, all of them free.
    #[inline(never)]
    fn full(alloc: Global) -> Result<Box<RegionBlock>, AllocError>
        ensures { IfOk result
            (λ b. (b.value.words ≡ replicate 1024 0)
            × (b.value.headers ≡ replicate cell_limit None)) }
    {
        let full = RegionBlock {
            headers: Headers::full(),
            words: [0; 1024],
        };
        Ok(Box::new(alloc, full)?)
    }

    // Returns words that are all 0, and this number of cells, all of them free.
    fn vacant(alloc: Global, count: usize) -> Result<Box<RegionBlock>, AllocError>
        requires { count ≤ cell_limit }
        ensures { IfOk result
            (λ b. (b.value.words ≡ replicate 1024 0)
            × (b.value.headers ≡ replicate count None)) }
    {
        if count == CELLS {
            return RegionBlock::full(alloc);
        }
        let mut block = RegionBlock::blank(alloc)?;
        block.headers.add_vacant(count);
        Ok(block)
    }

    // Copies the words and the headers.
    fn copied(&self, alloc: Global) -> Result<Box<RegionBlock>, AllocError>
        ensures { IfOk result
            (λ b. (b.value.words ≡ self.now.words)
            × (b.value.headers ≡ self.now.headers)) }
    {
        if self.headers.len() == CELLS {
            self.copied_full(alloc)
        } else {
            self.copied_few(alloc)
        }
    }

    // Copies the words and the headers of 256 cells. It is never inlined, so that no other function has a block on its stack.
    #[inline(never)]
    fn copied_full(&self, alloc: Global) -> Result<Box<RegionBlock>, AllocError>
        requires { length self.now.headers ≡ cell_limit }
        ensures { IfOk result
            (λ b. (b.value.words ≡ self.now.words)
            × (b.value.headers ≡ self.now.headers)) }
    {
        let copy = RegionBlock {
            headers: self.headers.full_copy(),
            words: self.words,
        };
        Ok(Box::new(alloc, copy)?)
    }

    // Copies the words and the headers of any number of cells. It is never inlined, for the same reason.
    #[inline(never)]
    fn copied_few(&self, alloc: Global) -> Result<Box<RegionBlock>, AllocError>
        ensures { IfOk result
            (λ b. (b.value.words ≡ self.now.words)
            × (b.value.headers ≡ self.now.headers)) }
    {
        let copy = RegionBlock {
            headers: self.headers.copied(),
            words: self.words,
        };
        Ok(Box::new(alloc, copy)?)
    }
}

impl LargeBlock {
    // Returns `count` words that are all 0, and no cells.
    #[inline(never)]
    fn blank(alloc: Global, count: usize) -> Result<Box<LargeBlock>, AllocError>
        requires { count ≤ heap_words }
        ensures { IfOk result
            (λ b. (b.value.words.items ≡ replicate count 0) × (b.value.headers ≡ [])) }
    {
        let blank = LargeBlock {
            words: vec![in alloc; 0; count]?,
            headers: Headers::new(),
        };
        Ok(Box::new(alloc, blank)?)
    }

    // Returns `words` words that are all 0, and this number of cells, all of them free.
    fn vacant(alloc: Global, words: usize, count: usize) -> Result<Box<LargeBlock>, AllocError>
        requires { (words ≤ heap_words) × (count ≤ cell_limit) }
        ensures { IfOk result
            (λ b. (b.value.words.items ≡ replicate words 0)
            × (b.value.headers ≡ replicate count None)) }
    {
        let mut block = LargeBlock::blank(alloc, words)?;
        block.headers.add_vacant(count);
        Ok(block)
    }

    // Copies the words and the headers.
    #[inline(never)]
    fn copied(&self, alloc: Global) -> Result<Box<LargeBlock>, AllocError>
        ensures { IfOk result
            (λ b. (b.value.words.items ≡ self.now.words.items)
            × (b.value.headers ≡ self.now.headers)) }
    {
        let copy = LargeBlock {
            words: Vec::from_slice(alloc, &self.words)?,
            headers: self.headers.copied(),
        };
        Ok(Box::new(alloc, copy)?)
    }
}

impl Block {
    // Returns the words of a region, or of the regions that a cell of this size takes, all 0, and this number of cells, all of
    // them free. Fails if an allocation fails.
    pub(crate) fn vacant(alloc: Global, cell_size: usize, count: usize) -> Result<Block, AllocError>
        requires size { IsBlockSize cell_size }
        requires few { count ≤ cell_limit }
        ensures { IfOk result
            (λ b. (b.words ≡ replicate (block_words cell_size) 0)
            × (b.headers ≡ replicate count None)) }
    {
        if cell_size > 1024 {
            let large = LargeBlock::vacant(alloc, cell_size, count)?;
            return Ok(Block {
                parts: Parts::Large(large),
            });
        }
        let region = RegionBlock::vacant(alloc, count)?;
        Ok(Block {
            parts: Parts::Region(region),
        })
    }

    // Returns a copy of the words and the headers. Fails if an allocation fails.
    pub(crate) fn copied(&self, alloc: Global) -> Result<Block, AllocError>
        ensures { IfOk result (λ b. b ≡ self.now) }
    {
        let parts = match &self.parts {
            Parts::Region(block) => Parts::Region(block.copied(alloc)?),
            Parts::Large(block) => Parts::Large(block.copied(alloc)?),
        };
        Ok(Block { parts })
    }

    // Returns the words.
    #[inline(always)]
    pub(crate) fn words(&self) -> &[u64]
        ensures { result.now ≡ self.now.words }
    {
        match &self.parts {
            Parts::Region(block) => &block.words,
            Parts::Large(block) => &block.words,
        }
    }

    // Returns the headers of the cells.
    #[inline(always)]
    pub(crate) fn headers(&self) -> &Headers
        ensures { result.now ≡ self.now.headers }
    {
        match &self.parts {
            Parts::Region(block) => &block.headers,
            Parts::Large(block) => &block.headers,
        }
    }

    // Returns a word.
    #[inline(always)]
    pub(crate) fn word(&self, at: usize) -> u64
        requires { at < length self.now.words }
        ensures { result ≡ slice_index self.now.words at }
    {
        match &self.parts {
            Parts::Region(block) => word_at(&block.words, at),
            Parts::Large(block) => word_at(&block.words, at),
        }
    }

    // Writes a word.
    #[inline(always)]
    pub(crate) fn set_word(&mut self, at: usize, value: u64)
        requires { at < length self.old.words }
        ensures { self.new ≡ record self.old { words = slice_set self.old.words at value } }
    {
        match &mut self.parts {
            Parts::Region(block) => write_at(&mut block.words, at, value),
            Parts::Large(block) => write_at(&mut block.words, at, value),
        }
    }

    // Sets the `len` words from `start` on to 0.
    #[inline(always)]
    pub(crate) fn clear(&mut self, start: usize, len: usize)
        requires { start + len ≤ length self.old.words }
        ensures { self.new
            ≡ record self.old { words = overwritten self.old.words start (replicate len 0) } }
    {
        match &mut self.parts {
            Parts::Region(block) => clear(&mut block.words, start, len),
            Parts::Large(block) => clear(&mut block.words, start, len),
        }
    }

    // Copies words over those from `start` on.
    pub(crate) fn overwrite(&mut self, start: usize, from: &[u64])
        requires { start + length from.now ≤ length self.old.words }
        ensures { self.new
            ≡ record self.old { words = overwritten self.old.words start from.now } }
    {
        match &mut self.parts {
            Parts::Region(block) => overwrite(&mut block.words, start, from),
            Parts::Large(block) => overwrite(&mut block.words, start, from),
        }
    }

    // Links the first `count` cells, each to the next.
    pub(crate) fn link(&mut self, cell_size: usize, count: usize)
        requires sized { 0 < cell_size }
        requires within { count * cell_size ≤ length self.old.words }
        ensures links { (cell : ℕ) → cell < count
            → slice_index self.new.words (cell * cell_size) ≡ next_link count cell }
        ensures words { length self.new.words ≡ length self.old.words }
        ensures headers { self.new.headers ≡ self.old.headers }
    {
        match &mut self.parts {
            Parts::Region(block) => link_cells(&mut block.words, cell_size, count),
            Parts::Large(block) => link_cells(&mut block.words, cell_size, count),
        }
    }

    // Writes the header of the object in a free cell.
    #[inline(always)]
    pub(crate) fn fill(&mut self, cell: usize, header: Header)
        requires within { cell < length self.old.headers }
        requires vacant { slice_index_or self.old.headers cell None ≡ None }
        requires fits { header.len ≤ heap_words }
        ensures { self.new
            ≡ record self.old { headers = slice_set self.old.headers cell (Some header) } }
    {
        match &mut self.parts {
            Parts::Region(block) => block.headers.fill(cell, header),
            Parts::Large(block) => block.headers.fill(cell, header),
        }
    }

    // Writes the header of the object in a cell.
    pub(crate) fn set(&mut self, cell: usize, header: Header)
        requires within { cell < length self.old.headers }
        requires fits { header.len ≤ heap_words }
        ensures { self.new
            ≡ record self.old { headers = slice_set self.old.headers cell (Some header) } }
    {
        match &mut self.parts {
            Parts::Region(block) => block.headers.set(cell, header),
            Parts::Large(block) => block.headers.set(cell, header),
        }
    }

    // Writes a bit of the object in a cell, which must have one. Returns the bit that it had.
    #[inline(always)]
    pub(crate) fn set_bit(&mut self, cell: usize, bit: Bit, on: bool) -> bool
        requires { IsSome (slice_index_or self.old.headers cell None) }
        ensures was { IfSome (slice_index_or self.old.headers cell None)
            (λ h. result ≡ header_bit bit h) }
        ensures state { self.new
            ≡ record self.old {
              headers = slice_set self.old.headers cell
                  (option_map (with_bit bit on) (slice_index_or self.old.headers cell None));
            } }
    {
        match &mut self.parts {
            Parts::Region(block) => block.headers.set_bit(cell, bit, on),
            Parts::Large(block) => block.headers.set_bit(cell, bit, on),
        }
    }

    // Makes a cell free, which must have an object. Returns the header that it had.
    #[inline(always)]
    pub(crate) fn free(&mut self, cell: usize) -> Header
        requires { IsSome (slice_index_or self.old.headers cell None) }
        ensures state { self.new
            ≡ record self.old { headers = slice_set self.old.headers cell None } }
        ensures was { slice_index_or self.old.headers cell None ≡ Some result }
    {
        match &mut self.parts {
            Parts::Region(block) => block.headers.free(cell),
            Parts::Large(block) => block.headers.free(cell),
        }
    }

    // Makes each object live if it was marked, and marked if it wasn't live.
    pub(crate) fn turn(&mut self)
        ensures { self.new
            ≡ record self.old { headers = map (option_map turned_header) self.old.headers } }
    {
        match &mut self.parts {
            Parts::Region(block) => block.headers.turn(),
            Parts::Large(block) => block.headers.turn(),
        }
    }

    // Undoes `turn`.
    pub(crate) fn turn_back(&mut self)
        ensures { self.new
            ≡ record self.old { headers = map (option_map turned_back_header) self.old.headers } }
    {
        match &mut self.parts {
            Parts::Region(block) => block.headers.turn_back(),
            Parts::Large(block) => block.headers.turn_back(),
        }
    }
}
