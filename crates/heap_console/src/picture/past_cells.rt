//! The cells of a state that isn't the current one: those of its objects.
use crate::picture::colors::Palette;
use crate::picture::map::{CellMap, SeenObject};
use crate::picture::rows::{REGION_WORDS, regions_for};
use heap_class::ObjRef;
use heap_questions::CellState;
use hprof_text::View;
use std::alloc::{AllocError, Global};

// The largest number of cells of a region.
const CELLS_EACH: usize = 256;

// The byte of a cell without an object. Each other is the number of the object's colour.
const FREE: u8 = 255;

// The cells of a view: for each region their size, or 0 if no object is in one; and for each cell a byte.
#[derive(Drop)]
pub(crate) struct PastCells {
    sizes: Vec<u64>,
    colors: Vec<u8>,
}

impl PastCells {
    // Reads the objects of a view of `count` regions. Fails if an allocation fails. Reads each object once.
    pub(crate) fn new<V: View>(
        alloc: Global,
        view: &V,
        count: usize,
        palette: &Palette,
    ) -> Result<PastCells, AllocError> {
        let mut cells = PastCells {
            sizes: vec![in alloc; 0; count]?,
            colors: vec![in alloc; FREE; count.saturating_mul(CELLS_EACH)]?,
        };
        // Its contract says that what the view shows is within the limits of a dump.
        let _classes = view.classes();
        let mut passed = 0usize;
        let mut here = view.first();
        while let Some(at) = here {
            let words = view.words(at).len() as u64;
            let color = palette.color_of(view.kind(at));
            cells.put(at, words, color);
            passed += 1;
            here = view.next(at);
        }
        Ok(cells)
    }

    // Puts an object of `words` words and this colour into its cell.
    fn put(&mut self, at: ObjRef, words: u64, color: usize) {
        let region = at.region as usize;
        if region < self.sizes.len() {
            self.sizes[region] = cell_size_for(words);
        }
        let number = number_of(at);
        if number < self.colors.len() {
            self.colors[number] = color.min(254) as u8;
        }
    }
}

// Returns the number of a cell among those of all regions.
fn number_of(at: ObjRef) -> usize {
    at.region as usize * CELLS_EACH + at.cell as usize
}

// Returns the size of the cell of an object of `words` words.
fn cell_size_for(words: u64) -> u64 {
    if words <= 4 {
        4
    } else if words <= 16 {
        16
    } else if words <= 64 {
        64
    } else if words <= 256 {
        256
    } else {
        REGION_WORDS.saturating_mul(regions_for(words))
    }
}

impl CellMap for PastCells {
    fn count(&self) -> u64 {
        self.sizes.len() as u64
    }

    fn cell_size(&self, region: u64) -> Option<u64> {
        let region = region as usize;
        if region < self.sizes.len() && self.sizes[region] > 0 {
            Some(self.sizes[region])
        } else {
            None
        }
    }

    fn object(&self, at: ObjRef) -> Option<SeenObject> {
        let number = number_of(at);
        if number >= self.colors.len() || self.colors[number] == FREE {
            return None;
        }
        let color = self.colors[number] as usize;
        let state = CellState::Live;
        Some(SeenObject { color, state })
    }
}
