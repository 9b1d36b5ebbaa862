//! The headers of a region's cells, whose bits are read by turns.
ghost use Rattle.std.specs.Prelude.{◌≡◌, ◌<◌, ◌≤◌, [], length, map, Some, None, IfSome, IsSome, option_map, replicate, slice_index_or, slice_set};
ghost use Rattle.heap_region.specs.Layout.{header_bit, with_bit};
ghost use Rattle.heap_region.specs.Limits.{cell_limit, heap_words};
ghost use Rattle.heap_region.specs.TurnedHeaders.{IsCounted, turned_header, turned_back_header};

use crate::cell::{Bit, Cell, Header};
use crate::counts::Counts;
use crate::turn::Turn;
use arrayvec::ArrayVec;
use std::marker::Model;

// The headers of up to 256 cells, and the turn by which their bits are read. Contracts see the headers as they are read.
#[derive(Drop)]
pub(crate) struct Headers {
    kept: ArrayVec<Cell, 256>,
    turn: Turn,
    counts: Counts,
}

impl Model for Headers {
    ghost use Rattle.std.specs.Prelude.{List, Option};
    ghost use Rattle.heap_region.specs.TurnedHeaders.{IsCounted, shown_headers};
    ghost use Rattle.heap_region.specs.declared.cell.Header.{Header};

    ghost Value = { List (Option Header) };

    ghost view = { λ h. shown_headers h.turn h.kept.items };

    ghost invariant = { λ h. IsCounted (shown_headers h.turn h.kept.items) h.counts };
}

// Returns the header in a cell. There must be one.
#[inline(always)]
fn header_in(header: Option<Header>) -> Header
    requires { IsSome header }
    ensures { header ≡ Some result }
{
    match header {
        Some(header) => header,
        None => unreachable!(),
    }
}

// Returns a bit of the header in a cell. There must be one.
#[inline(always)]
fn bit_in(header: Option<Header>, bit: Bit) -> bool
    requires { IsSome header }
    ensures { IfSome header (λ h. result ≡ header_bit bit h) }
{
    match header {
        Some(header) => match bit {
            Bit::Live => header.live,
            Bit::Mark => header.mark,
        },
        None => unreachable!(),
    }
}

// Writes the header of the object in a cell.
#[inline(always)]
fn set_header(kept: &mut ArrayVec<Cell, 256>, cell: usize, header: Header)
    requires within { cell < length kept.old.items }
    requires fits { header.len ≤ heap_words }
    ensures { kept.new.items ≡ slice_set kept.old.items cell (Some header) }
{
    kept[cell] = Cell::with_header(header);
}

// Writes a bit of the object in a cell, which must have one.
#[inline(always)]
fn set_bit_at(kept: &mut ArrayVec<Cell, 256>, cell: usize, bit: Bit, on: bool)
    requires { IsSome (slice_index_or kept.old.items cell None) }
    ensures { kept.new.items
        ≡ slice_set kept.old.items cell
        (option_map (with_bit bit on) (slice_index_or kept.old.items cell None)) }
{
    kept[cell].set_bit(bit, on);
}

// Makes a cell free.
#[inline(always)]
fn set_free(kept: &mut ArrayVec<Cell, 256>, cell: usize)
    requires { cell < length kept.old.items }
    ensures { kept.new.items ≡ slice_set kept.old.items cell None }
{
    kept[cell] = Cell::default();
}

// Adds `count` cells to none, all of them free.
fn add_vacant(kept: &mut ArrayVec<Cell, 256>, count: usize)
    requires none { kept.old.items ≡ [] }
    requires few { count ≤ cell_limit }
    ensures { kept.new.items ≡ replicate count None }
{
    for _ in 0..count {
        kept.push(Cell::default());
    }
}

// Returns a copy of 256 cells.
#[inline(always)]
fn all_cells(kept: &[Cell]) -> [Cell; 256]
    requires { length kept.now ≡ cell_limit }
    ensures { result ≡ kept.now }
{
    match <[Cell; 256]>::try_from(kept) {
        Ok(cells) => cells,
        Err(_) => unreachable!(),
    }
}

impl Headers {
    // Returns no headers.
    pub(crate) fn new() -> Headers
        ensures { result ≡ [] }
    {
        Headers {
            kept: ArrayVec::new(),
            turn: Turn::start(),
            counts: Counts::none(),
        }
    }

    // Returns the headers of 256 cells, all of them free. They are written once, instead of as blanks and then as free cells.
    #[inline(always)]
    pub(crate) fn full() -> Headers
        ensures { result ≡ replicate cell_limit None }
    {
        Headers {
            kept: ArrayVec::from_array_in((), [Cell::default(); 256]),
            turn: Turn::start(),
            counts: Counts::none(),
        }
    }

    // Returns the number of cells: at most 256.
    #[inline(always)]
    pub(crate) fn len(&self) -> usize
        ensures value { result ≡ length self.now }
        ensures limit { result ≤ cell_limit }
    {
        self.kept.len()
    }

    // Adds `count` cells to none, all of them free.
    pub(crate) fn add_vacant(&mut self, count: usize)
        requires none { self.old ≡ [] }
        requires few { count ≤ cell_limit }
        ensures { self.new ≡ replicate count None }
    {
        add_vacant(&mut self.kept, count);
    }

    // Returns the header of the object in a cell, or None if the cell is free.
    #[inline(always)]
    pub(crate) fn at(&self, cell: usize) -> Option<Header>
        requires { cell < length self.now }
        ensures { result ≡ slice_index_or self.now cell None }
    {
        match self.kept[cell].header() {
            Some(header) => Some(self.turn.shown(header)),
            None => None,
        }
    }

    // Returns how many objects there are, and of how many a bit isn't set.
    #[inline(always)]
    pub(crate) fn counts(&self) -> Counts
        ensures { IsCounted self.now result }
    {
        self.counts
    }

    // Writes the header of the object in a free cell.
    #[inline(always)]
    pub(crate) fn fill(&mut self, cell: usize, header: Header)
        requires within { cell < length self.old }
        requires vacant { slice_index_or self.old cell None ≡ None }
        requires fits { header.len ≤ heap_words }
        ensures { self.new ≡ slice_set self.old cell (Some header) }
    {
        self.counts = self.counts.with(header);
        set_header(&mut self.kept, cell, self.turn.kept(header));
    }

    // Writes the header of the object in a cell.
    pub(crate) fn set(&mut self, cell: usize, header: Header)
        requires within { cell < length self.old }
        requires fits { header.len ≤ heap_words }
        ensures { self.new ≡ slice_set self.old cell (Some header) }
    {
        let was = self.at(cell);
        self.counts = self.counts.without(was).with(header);
        set_header(&mut self.kept, cell, self.turn.kept(header));
    }

    // Writes a bit of the object in a cell, which must have one. Returns the bit that it had.
    #[inline(always)]
    pub(crate) fn set_bit(&mut self, cell: usize, bit: Bit, on: bool) -> bool
        requires { IsSome (slice_index_or self.old cell None) }
        ensures state { self.new
            ≡ slice_set self.old cell
            (option_map (with_bit bit on) (slice_index_or self.old cell None)) }
        ensures was { IfSome (slice_index_or self.old cell None) (λ h. result ≡ header_bit bit h) }
    {
        let was = bit_in(self.at(cell), bit);
        self.counts = self.counts.with_bit(bit, was, on);
        let (kept_bit, kept_on) = self.turn.kept_bit(bit, on);
        set_bit_at(&mut self.kept, cell, kept_bit, kept_on);
        was
    }

    // Makes a cell free, which must have an object. Returns the header that it had.
    #[inline(always)]
    pub(crate) fn free(&mut self, cell: usize) -> Header
        requires { IsSome (slice_index_or self.old cell None) }
        ensures state { self.new ≡ slice_set self.old cell None }
        ensures was { slice_index_or self.old cell None ≡ Some result }
    {
        let was = header_in(self.at(cell));
        self.counts = self.counts.without(Some(was));
        set_free(&mut self.kept, cell);
        was
    }

    // Makes each object live if it was marked, and marked if it wasn't live.
    pub(crate) fn turn(&mut self)
        ensures { self.new ≡ map (option_map turned_header) self.old }
    {
        self.turn = self.turn.next();
        self.counts = self.counts.next();
    }

    // Undoes `turn`.
    pub(crate) fn turn_back(&mut self)
        ensures { self.new ≡ map (option_map turned_back_header) self.old }
    {
        self.turn = self.turn.prior();
        self.counts = self.counts.prior();
    }

    // Returns a copy of the headers of 256 cells. They are written once, instead of as blanks and then as copies.
    #[inline(always)]
    pub(crate) fn full_copy(&self) -> Headers
        requires { length self.now ≡ cell_limit }
        ensures { result ≡ self.now }
    {
        Headers {
            kept: ArrayVec::from_array_in((), all_cells(&self.kept)),
            turn: self.turn,
            counts: self.counts,
        }
    }

    // Returns a copy of the headers.
    #[inline(always)]
    pub(crate) fn copied(&self) -> Headers
        ensures { result ≡ self.now }
    {
        let mut kept = ArrayVec::new();
        if kept.try_extend_from_slice(&self.kept).is_err() {
            unreachable!();
        }
        Headers {
            kept,
            turn: self.turn,
            counts: self.counts,
        }
    }
}
