//! The end of a cycle, as a turn of the bits of every object, and its undoing.
ghost use Rattle.std.specs.Prelude.{◌≡◌, slice_get};
ghost use Rattle.heap_region.specs.Turns.{turned_region, turned_back_region};
ghost use Rattle.heap_mark.specs.MarkSteps.{pending_regions, dead_count, each_region};

use heap_region::Regions;

/// Returns the lowest region that waits to be swept, or None if none does. Takes constant time.
#[tactic(auto, unfolding(crate::specs::MarkSteps::pending_regions))]
pub fn first_pending(regions: &Regions) -> Option<u64>
    ensures { result ≡ slice_get (pending_regions regions.now.regions) 0 }
{
    regions.first_pending()
}

/// Turns every region in use. Returns the number of objects that aren't live then. Takes constant time.
pub(crate) fn turn_all(regions: &mut Regions) -> u64
    ensures regions { regions.new
        ≡ record regions.old { regions = each_region turned_region regions.old.regions } }
    ensures condemned { result ≡ dead_count regions.new.regions }
{
    regions.turn()
}

/// Undoes `turn_all`. Takes constant time.
pub(crate) fn turn_all_back(regions: &mut Regions)
    ensures { regions.new
        ≡ record regions.old { regions = each_region turned_back_region regions.old.regions } }
{
    regions.turn_back()
}
