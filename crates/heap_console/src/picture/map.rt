//! The cells of a state, as a picture sees them.
ghost use Rattle.std.specs.Prelude.{◌≡◌, IfErr};
ghost use Rattle.heap_class.specs.declared.Refusal.TheVariants.{NoMemory};

use crate::picture::colors::Palette;
use crate::picture::rows::REGION_WORDS;
use heap_class::{ObjRef, Refusal};
use heap_questions::{CellState, CellStates};
use heap_trail::Machine;
use std::alloc::Global;

// An object in a cell: the number of its colour, and what there is of it.
#[derive(Clone, Copy)]
pub(crate) struct SeenObject {
    pub(crate) color: usize,
    pub(crate) state: CellState,
}

// The cells of a state.
pub(crate) trait CellMap {
    // Returns the number of regions.
    fn count(&self) -> u64;

    // Returns the size of each cell of a region in words. None if no cell begins there.
    fn cell_size(&self, region: u64) -> Option<u64>;

    // Returns the object in a cell, if it has one.
    fn object(&self, at: ObjRef) -> Option<SeenObject>;
}

// Returns the place of a cell.
pub(crate) fn place_of(region: u64, cell: u64) -> ObjRef {
    ObjRef {
        region: region.min(65_535) as u16,
        cell: cell.min(65_535) as u16,
    }
}

// Returns the number of cells of this size in a region.
pub(crate) fn cells_each(size: u64) -> u64 {
    REGION_WORDS.checked_div(size).unwrap_or(0)
}

// The cells of the current state.
#[derive(Drop)]
pub(crate) struct CurrentCells<'a> {
    states: CellStates<'a>,
    palette: &'a Palette,
}

impl<'a> CurrentCells<'a> {
    // Finds the gray objects of a machine's heap. Fails if an allocation fails.
    pub(crate) fn new(
        alloc: Global,
        machine: &'a Machine,
        palette: &'a Palette,
    ) -> Result<CurrentCells<'a>, Refusal>
        ensures { IfErr result (λ e. e ≡ NoMemory) }
    {
        let states = CellStates::new(alloc, machine.world())?;
        Ok(CurrentCells { states, palette })
    }
}

impl CellMap for CurrentCells<'_> {
    fn count(&self) -> u64 {
        self.states.world().regions().count()
    }

    fn cell_size(&self, region: u64) -> Option<u64> {
        self.states.world().regions().cell_size(region)
    }

    fn object(&self, at: ObjRef) -> Option<SeenObject> {
        let regions = self.states.world().regions();
        if !regions.has_object(at) {
            return None;
        }
        let color = self.palette.color_of(regions.kind(at));
        let state = self.states.state_at(at);
        Some(SeenObject { color, state })
    }
}
