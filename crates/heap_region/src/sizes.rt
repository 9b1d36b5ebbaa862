//! Sizes of regions and cells.

ghost use Rattle.std.specs.Prelude.{◌≡◌, ◌+◌, ◌*◌, ◌≤◌};
ghost use Rattle.heap_region.specs.Limits.{cell_limit, heap_words, region_limit, region_words};
ghost use Rattle.heap_region.specs.Regions.{cell_count, cell_size_for, object_base, regions_for};

use heap_class::ObjRef;

/// The number of words of a region.
pub const REGION_WORDS: u64 = 1024;

/// The address of the first word of region 0.
pub const OBJECT_BASE: u64 = 0x1000_0000;

// The largest number of slots of an object.
pub(crate) const LARGE_LIMIT: u64 = 2_097_147;

// Returns the number of regions that have `words` words together.
#[tactic(auto, unfolding(crate::specs::Regions::regions_for))]
pub(crate) fn regions_for(words: usize) -> usize
    requires { words ≤ heap_words }
    ensures value { result ≡ regions_for words }
    ensures limit { result ≤ region_limit }
{
    (words + 1023) / 1024
}

// Returns the cell size for an object of `slots` slots: the least of 4, 16, 64, 256 and 1,024 words that holds them, or the
// words of the regions that hold them.
#[tactic(auto, unfolding(crate::specs::Regions::cell_size_for))]
pub(crate) fn cell_size_for(slots: usize) -> usize
    requires { slots ≤ heap_words }
    ensures value { result ≡ cell_size_for slots }
    ensures limit { result ≤ heap_words }
{
    if slots <= 4 {
        4
    } else if slots <= 16 {
        16
    } else if slots <= 64 {
        64
    } else if slots <= 256 {
        256
    } else if slots <= 1024 {
        1024
    } else {
        1024 * regions_for(slots)
    }
}

// Returns the id of a cell in a region with cells of this size: the address of its first word.
#[inline(always)]
pub(crate) fn id_in(at: ObjRef, cell_size: u64) -> u64
    requires { cell_size ≤ heap_words }
    ensures { result ≡ object_base + 8 * (region_words * at.region + at.cell * cell_size) }
{
    OBJECT_BASE + 8 * (REGION_WORDS * at.region as u64 + at.cell as u64 * cell_size)
}

// Returns the number of cells of this size in a region; a cell that takes several regions is the only one.
#[tactic(auto, unfolding(crate::specs::Regions::cell_count))]
pub(crate) fn cell_count(cell_size: usize) -> usize
    requires { 4 ≤ cell_size }
    ensures value { result ≡ cell_count cell_size }
    ensures limit { result ≤ cell_limit }
{
    if cell_size <= 1024 {
        1024 / cell_size
    } else {
        1
    }
}
