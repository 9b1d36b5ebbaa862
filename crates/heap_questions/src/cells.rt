//! What the cells of a heap hold.
ghost use Rattle.std.specs.Prelude.{◌≡◌, IsSome, IfOk, IfErr};
ghost use Rattle.heap_class.specs.declared.Refusal.TheVariants.{NoMemory};
ghost use Rattle.heap_region.specs.Regions.{object_at};
ghost use Rattle.heap_questions.specs.Cells.{AreMarksOf, cell_number, cell_state, is_gray};

use heap_class::{ObjRef, Refusal};
use heap_world::World;
use std::alloc::Global;
use std::marker::Model;

// The largest number of cells of a region.
const CELLS_EACH: usize = 256;

/// What a cell holds.
#[derive(Clone, Copy)]
pub enum CellState {
    /// No object.
    Free,
    /// A live object that isn't marked.
    Live,
    /// A marked object that isn't gray.
    Marked,
    /// A gray object.
    Gray,
    /// An object that isn't live.
    Dead,
}

// Returns for each cell whether a gray object stands there. Fails with NoMemory.
fn gray_marks(alloc: Global, world: &World) -> Result<Vec<bool>, Refusal>
    ensures marks { IfOk result (λ marks. AreMarksOf world.now.regions world.now.gray marks.items) }
    ensures refused { IfErr result (λ e. e ≡ NoMemory) }
{
    let regions = world.regions();
    let gray = world.gray();
    let count = regions.count() as usize;
    let mut marks = vec![in alloc; false; count * CELLS_EACH]?;
    for i in 0..gray.len() {
        if let Some(at) = regions.find(gray[i]) {
            marks[cell_number(at)] = true;
        }
    }
    Ok(marks)
}

// Returns the number of a cell among those of all regions.
fn cell_number(at: ObjRef) -> usize
    ensures { result ≡ cell_number at }
{
    at.region as usize * CELLS_EACH + at.cell as usize
}

/// The cells of a heap, and what they hold. Contracts see the heap.
#[derive(Drop)]
pub struct CellStates<'a> {
    world: &'a World,
    gray: Vec<bool>,
}

impl<'a> Model for CellStates<'a> {
    ghost use Rattle.heap_world.specs.State.{HeapState};
    ghost use Rattle.heap_questions.specs.Cells.{AreMarksOf};

    ghost Value = { HeapState };

    ghost view = { λ c. c.world.now };

    ghost invariant = { λ c. AreMarksOf c.world.now.regions c.world.now.gray c.gray.items };
}

impl<'a> CellStates<'a> {
    /// Finds the gray objects of a heap. Fails with NoMemory.
    pub fn new(alloc: Global, world: &'a World) -> Result<CellStates<'a>, Refusal>
        ensures heap { IfOk result (λ c. c ≡ world.now) }
        ensures refused { IfErr result (λ e. e ≡ NoMemory) }
    {
        let gray = gray_marks(alloc, world)?;
        Ok(CellStates { world, gray })
    }

    /// Returns the heap.
    pub fn world(&self) -> &World
        ensures { result.now ≡ self.now }
    {
        self.world
    }

    /// Returns what a cell holds. Takes constant time.
    #[tactic(auto, unfolding(crate::specs::Cells::cell_state))]
    pub fn state_at(&self, at: ObjRef) -> CellState
        ensures { result ≡ cell_state self.now at }
    {
        let regions = self.world.regions();
        if !regions.has_object(at) {
            return CellState::Free;
        }
        let (live, mark) = regions.bits(at);
        if !live {
            return CellState::Dead;
        }
        if self.is_gray(at) {
            return CellState::Gray;
        }
        if mark {
            CellState::Marked
        } else {
            CellState::Live
        }
    }

    // Tells whether the object in a cell is gray.
    fn is_gray(&self, at: ObjRef) -> bool
        requires { IsSome (object_at self.now.regions at) }
        ensures { result ≡ is_gray self.now at }
    {
        let number = cell_number(at);
        number < self.gray.len() && self.gray[number]
    }
}
