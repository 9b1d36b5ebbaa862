//! Headers of cells, in eight bytes each.
ghost use Rattle.std.specs.Prelude.{◌≡◌, ◌≤◌, Some, None, IsSome, option_map};
ghost use Rattle.heap_region.specs.KindNumbers.{kind_number, kind_numbered, sort_numbered};
ghost use Rattle.heap_region.specs.Layout.{header_live, with_bit};
ghost use Rattle.heap_region.specs.Limits.{heap_words};

use heap_class::{Kind, ObjKind};
use std::marker::Model;
use std::mem::size_of;

// The header of an object: its kind, its number of slots, and its two bits.
#[derive(Clone, Copy)]
pub(crate) struct Header {
    pub(crate) kind: ObjKind,
    pub(crate) len: usize,
    pub(crate) live: bool,
    pub(crate) mark: bool,
}

// A bit of an object.
#[derive(Clone, Copy)]
pub(crate) enum Bit {
    // Whether the object is live.
    Live,
    // Whether the object is marked.
    Mark,
}

// The sort of a cell: free, or the sort of the object in it.
#[derive(Clone, Copy)]
pub(crate) enum Sort {
    // No object.
    Free,
    // An instance of a class.
    Instance,
    // An array of references.
    Array,
    // An array of values.
    Prim,
}

// The number of sorts.
const SORTS: u32 = 4;

// A cell: the header of the object in it, or none if it is free. Contracts see the header.
#[derive(Clone, Copy)]
pub(crate) struct Cell {
    // The number of slots, times the number of sorts, and the number of the sort.
    slots_and_sort: u32,
    // The class of an instance or of an array of references, the number of the kind of an array's values, else 0.
    number: u16,
    live: bool,
    mark: bool,
}

// A region has up to 256 of them.
const _: () = prove!(size_of::<Cell>() <= 8);

impl Model for Cell {
    ghost use Rattle.std.specs.Prelude.{◌≡◌, Option};
    ghost use Rattle.heap_region.specs.declared.cell.Header.{Header};

    ghost Value = { Option Header };

    ghost use Rattle.heap_region.specs.Cell.{header_in, packed};

    ghost view = { header_in };

    ghost inverse = { packed };

    ghost invariant = { λ c. packed (header_in c) ≡ c };

    ghost inverse_ok = { λ a h. h };
}

impl Default for Cell {
    ghost is_default = { λ c. c ≡ None };

    // Returns a free cell.
    fn default() -> Cell {
        Cell {
            slots_and_sort: 0,
            number: 0,
            live: false,
            mark: false,
        }
    }
}

// Returns the number of a kind.
#[inline(always)]
fn kind_number(kind: Kind) -> u16
    ensures { result ≡ kind_number kind }
{
    kind as u16
}

// Returns the kind that has a number, or Object if none has it.
#[inline(always)]
fn kind_numbered(number: u16) -> Kind
    ensures { result ≡ kind_numbered number }
{
    match number {
        1 => Kind::Boolean,
        2 => Kind::Char,
        3 => Kind::Float,
        4 => Kind::Double,
        5 => Kind::Byte,
        6 => Kind::Short,
        7 => Kind::Int,
        8 => Kind::Long,
        _ => Kind::Object,
    }
}

// Returns the sort that has a number.
#[inline(always)]
fn sort_numbered(number: u32) -> Sort
    ensures { result ≡ sort_numbered number }
{
    match number {
        0 => Sort::Free,
        1 => Sort::Instance,
        2 => Sort::Array,
        _ => Sort::Prim,
    }
}

impl Cell {
    // Returns a cell with an object of this header.
    #[inline(always)]
    pub(crate) fn with_header(header: Header) -> Cell
        requires { header.len ≤ heap_words }
        ensures { result ≡ Some header }
    {
        let (sort, number) = match header.kind {
            ObjKind::Instance(class) => (Sort::Instance, class),
            ObjKind::Array(class) => (Sort::Array, class),
            ObjKind::Prim(kind) => (Sort::Prim, kind_number(kind)),
        };
        Cell {
            slots_and_sort: header.len as u32 * SORTS + sort as u32,
            number,
            live: header.live,
            mark: header.mark,
        }
    }

    // Returns the header of the object in the cell, or None if the cell is free.
    #[inline(always)]
    pub(crate) fn header(&self) -> Option<Header>
        ensures { result ≡ self.now }
    {
        let kind = match sort_numbered(self.slots_and_sort % SORTS) {
            Sort::Free => return None,
            Sort::Instance => ObjKind::Instance(self.number),
            Sort::Array => ObjKind::Array(self.number),
            Sort::Prim => ObjKind::Prim(kind_numbered(self.number)),
        };
        Some(Header {
            kind,
            len: (self.slots_and_sort / SORTS) as usize,
            live: self.live,
            mark: self.mark,
        })
    }

    // Writes a bit of the object in the cell, which must have one.
    #[inline(always)]
    pub(crate) fn set_bit(&mut self, bit: Bit, on: bool)
        requires { IsSome self.old }
        ensures { self.new ≡ option_map (with_bit bit on) self.old }
    {
        match bit {
            Bit::Live => self.live = on,
            Bit::Mark => self.mark = on,
        }
    }

    // Tells whether the object in the cell is live. False if the cell is free.
    #[inline(always)]
    pub(crate) fn is_live(&self) -> bool
        ensures { result ≡ header_live self.now }
    {
        self.live
    }
}
