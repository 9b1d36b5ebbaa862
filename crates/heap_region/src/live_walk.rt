//! The walk over the live objects, by region and cell.
ghost use Rattle.std.specs.Prelude.{◌≡◌, ◌+◌, ℕ, Some, slice_get};
ghost use Rattle.heap_region.specs.Regions.{live_places};
ghost use Rattle.heap_region.specs.Live.{live_in, live_from};

use super::Regions;
use heap_class::ObjRef;

impl Regions {
    /// Returns the place of the first live object, by region and cell.
    pub fn first_live(&self) -> Option<ObjRef>
        ensures { result ≡ slice_get (live_places self.now.regions) 0 }
    {
        self.live_from(0)
    }

    /// Returns the place of the next live object after a place, by region and cell.
    pub(crate) fn next_live(&self, at: ObjRef) -> Option<ObjRef>
        ensures { (i : ℕ) → slice_get (live_places self.now.regions) i ≡ Some at
            → result ≡ slice_get (live_places self.now.regions) (i + 1) }
    {
        match self.next_live_in(at.region as usize, at.cell as usize + 1) {
            Some(next) => Some(next),
            None => self.live_from(at.region as usize + 1),
        }
    }

    // Returns the place of the first live object of a region from a cell on.
    fn next_live_in(&self, region: usize, from: usize) -> Option<ObjRef>
        ensures { result ≡ slice_get (live_in self.now.regions region from) 0 }
    {
        let storage = self.storage_at(region)?;
        let cell = storage.next_live(from)?;
        Some(ObjRef {
            region: region as u16,
            cell: cell as u16,
        })
    }

    // Returns the place of the first live object from a region on.
    fn live_from(&self, first: usize) -> Option<ObjRef>
        ensures { result ≡ slice_get (live_from self.now.regions first) 0 }
    {
        for region in first..self.count() as usize {
            if let Some(at) = self.next_live_in(region, 0) {
                return Some(at);
            }
        }
        None
    }
}
