//! How many objects a region has.
ghost use Rattle.std.specs.Prelude.{◌≡◌, ◌+◌, ◌≤◌};
ghost use Rattle.heap_region.specs.Limits.{cell_limit};
ghost use Rattle.heap_questions.specs.RegionCounts.{counts_of};

use heap_region::RegionView;

/// The objects of a region: how many are live, and how many aren't.
#[derive(Clone, Copy)]
pub struct RegionCounts {
    pub live: u64,
    pub dead: u64,
}

/// Counts the objects of a region: at most 256. Looks at each cell once. Takes no memory.
pub fn count_region(storage: &RegionView<'_>) -> RegionCounts
    ensures counts { result ≡ counts_of storage.now }
    ensures few { result.live + result.dead ≤ cell_limit }
{
    let mut live = 0;
    let mut dead = 0;
    for cell in 0..storage.cells() {
        match storage.liveness(cell) {
            Some(true) => live += 1,
            Some(false) => dead += 1,
            None => {}
        }
    }
    RegionCounts { live, dead }
}
