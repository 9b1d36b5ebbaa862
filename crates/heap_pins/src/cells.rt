//! The states of cells: a cell is empty, has a live object, or has one that is not live.
ghost use Rattle.std.specs.Prelude.{◌≡◌, ◌<◌, ℕ, if◌then◌else◌, All, Some};
ghost use Rattle.heap_class.specs.declared.ObjRef.{ObjRef};
ghost use Rattle.heap_region.specs.Limits.{cell_limit};
ghost use Rattle.heap_region.specs.Regions.{cell_object};
ghost use Rattle.heap_pins.specs.KeptCopies.{touched};
ghost use Rattle.heap_pins.specs.Pin.{cell_state, state_kept};
ghost use Rattle.heap_pins.specs.SharedCopies.{HasLowCells};
ghost use Rattle.heap_pins.specs.States.{AreOf, AreRestored, AreSettled, cell_states, storage_states};
ghost use Rattle.heap_pins.specs.Walk.{states_before};

use crate::kept::blank;
use heap_region::{ObjectCopy, RegionView, Regions};
use heap_step::Undo;

// The state of an empty cell.
pub(crate) const EMPTY: u8 = 0;

// The state of a live object's cell.
pub(crate) const LIVE: u8 = 1;

// The state of the cell of an object that is not live.
const DEAD: u8 = 2;

// The byte of a cell that was taken since the pin was opened, if its region has no copy.
pub(crate) const TAKEN: u8 = 1;

// Returns the states of the cells of a region as they are now.
pub(crate) fn states_now(regions: &Regions, region: u64) -> [u8; 256]
    ensures { AreOf (cell_states regions.now.regions) region cell_limit result }
{
    match regions.region(region) {
        Some(storage) => storage_states(&storage),
        None => blank(),
    }
}

// Returns the states of the cells of a region in use.
pub(crate) fn storage_states(storage: &RegionView<'_>) -> [u8; 256]
    ensures { (r : ℕ) → AreOf (storage_states storage.now) r cell_limit result }
{
    let mut states = blank();
    for cell in 0..storage.cells() {
        states[cell as usize] = storage_state(storage, cell);
    }
    states
}

// Returns the state of a cell of a region in use.
#[inline(always)]
pub(crate) fn storage_state(storage: &RegionView<'_>, cell: u64) -> u8
    ensures { result ≡ cell_state (cell_object storage.now cell) }
{
    match storage.liveness(cell) {
        Some(true) => LIVE,
        Some(false) => DEAD,
        None => EMPTY,
    }
}

// Makes of the states of the cells of the region that a step touched, which are those after it, the ones before it, by the step's
// record.
pub(crate) fn restore_states(states: &mut [u8; 256], left: &Undo)
    requires { HasLowCells left.now }
    ensures { (f : ObjRef → ℕ) (r : ℕ) → touched left.now ≡ Some r → AreOf f r cell_limit states.old
        → AreOf (states_before left.now f) r cell_limit states.new }
{
    match left {
        Undo::Sweep { dead, .. } => restore_dead(states, dead.as_slice()),
        Undo::Reclaim { storage, .. } => *states = storage_states(&storage.view()),
        _ => {}
    }
}

// Writes the states of dead objects that are back in a region.
fn restore_dead(states: &mut [u8; 256], dead: &[(u64, ObjectCopy)])
    requires within { All (λ d. d.0 < cell_limit) dead.now }
    ensures { AreRestored dead.now states.old states.new }
{
    for (cell, object) in dead {
        states[*cell as usize] = object_state(object);
    }
}

// Returns the state of the cell of this object.
fn object_state(object: &ObjectCopy) -> u8
    ensures { result ≡ (if object.now.live then 1 else 2) }
{
    if object.bits().0 { LIVE } else { DEAD }
}

// Makes of the states of the cells of a region without a copy those that they had, by their bytes.
pub(crate) fn settle_states(ended: bool, bytes: &[u8; 256], states: &mut [u8; 256])
    ensures { AreSettled ended bytes.now states.old states.new }
{
    for cell in 0..256 {
        states[cell] = state_kept(ended, bytes[cell], states[cell]);
    }
}

// Returns the state that a cell of a region without a copy had, from its byte and its state now.
#[inline(always)]
pub(crate) fn state_kept(ended: bool, byte: u8, now: u8) -> u8
    ensures { result ≡ state_kept ended byte now }
{
    if byte != 0 || now == EMPTY {
        return EMPTY;
    }
    if ended { LIVE } else { now }
}
