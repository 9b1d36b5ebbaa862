//! Where registers may have lost an object: a guess, by which its search begins.
ghost use Rattle.std.specs.Prelude.{◌≡◌, ◌<◌, ◌≤◌, IfOk, IfErr};
ghost use Rattle.heap_class.specs.declared.Refusal.TheVariants.{NoMemory};
ghost use Rattle.heap_region.specs.Limits.{region_limit};
ghost use Rattle.heap_trail.specs.Trail.{retained};

use heap_class::{ObjRef, Refusal};
use heap_region::{OBJECT_BASE, REGION_WORDS, Regions};
use heap_step::Undo;
use heap_trail::Machine;
use std::alloc::Global;

// The most passes over the heap by which a guess is made.
const PASSES: u64 = 16;

// Returns how many steps ago the newest state may have been in which a register reached the object with this id, at most
// `oldest`. Any number would do; this one is right unless references to the object came to be in a way that is passed over here,
// such as from objects that were swept. Fails with NoMemory.
pub(crate) fn suspect(
    alloc: Global,
    machine: &Machine,
    id: u64,
    oldest: u64,
) -> Result<u64, Refusal>
    requires { oldest ≤ retained machine.now.trail }
    ensures within { IfOk result (λ n. n ≤ oldest) }
    ensures refused { IfErr result (λ e. e ≡ NoMemory) }
{
    let world = machine.world();
    match leading_to(alloc, world.regions(), id)? {
        Some(marks) => {
            if names_marked(marks.as_slice(), world.registers()) {
                Ok(0)
            } else {
                Ok(newest_taking(machine, marks.as_slice(), oldest))
            }
        }
        None => Ok(0),
    }
}

// Marks the objects from which references lead to the one with this id, itself too. Returns None if some passes over the heap,
// up and down by turns, didn't find all. Fails with NoMemory.
fn leading_to(alloc: Global, regions: &Regions, id: u64) -> Result<Option<Vec<bool>>, Refusal>
    ensures { IfErr result (λ e. e ≡ NoMemory) }
{
    let mut marks = vec![in alloc; false; (REGION_WORDS * regions.count()) as usize]?;
    set_mark(&mut marks, id);
    for pass in 0..PASSES {
        if !mark_namers(regions, pass % 2 == 0, &mut marks) {
            return Ok(Some(marks));
        }
    }
    Ok(None)
}

// Marks the object with this id.
fn set_mark(marks: &mut [bool], id: u64) {
    let index = id.wrapping_sub(OBJECT_BASE) / 8;
    if index < marks.len() as u64 {
        marks[index as usize] = true;
    }
}

// Marks the objects that name marked ones, in one pass over the heap, upwards or downwards. Tells whether it marked any.
fn mark_namers(regions: &Regions, upwards: bool, marks: &mut [bool]) -> bool {
    let count = regions.count();
    let mut any = false;
    for i in 0..count {
        let region = if upwards { i } else { count - 1 - i };
        if mark_cells(regions, region, upwards, marks) {
            any = true;
        }
    }
    any
}

// Marks the objects of a region that name marked ones, cell by cell, upwards or downwards. Tells whether it marked any.
fn mark_cells(regions: &Regions, region: u64, upwards: bool, marks: &mut [bool]) -> bool
    requires { region < region_limit }
{
    let count = cells_of(regions, region);
    let mut any = false;
    for i in 0..count {
        let cell = if upwards { i } else { count - 1 - i };
        let at = ObjRef {
            region: region as u16,
            cell: cell as u16,
        };
        if mark_namer(regions, at, marks) {
            any = true;
        }
    }
    any
}

// Returns the number of cells of a region, 0 if it is empty.
fn cells_of(regions: &Regions, region: u64) -> u64
    ensures { result ≤ 256 }
{
    match regions.region(region) {
        Some(storage) => storage.cells(),
        None => 0,
    }
}

// Marks the object in a cell if it names a marked one and wasn't marked. Tells whether it did.
fn mark_namer(regions: &Regions, at: ObjRef, marks: &mut [bool]) -> bool {
    if !regions.has_object(at) {
        return false;
    }
    let id = regions.id(at);
    if is_marked(marks, id) || !names_marked(marks, regions.words(at)) {
        return false;
    }
    set_mark(marks, id);
    true
}

// Tells whether a word is the id of a marked object; there is a mark for each word of the heap.
fn is_marked(marks: &[bool], word: u64) -> bool {
    let index = word.wrapping_sub(OBJECT_BASE) / 8;
    index < marks.len() as u64 && marks[index as usize]
}

// Tells whether one of these words is the id of a marked object.
fn names_marked(marks: &[bool], words: &[u64]) -> bool {
    words.iter().any(|word| is_marked(marks, *word))
}

// Returns how many steps ago the newest of the last `oldest` steps overwrote the id of a marked object, or `oldest` if none did.
fn newest_taking(machine: &Machine, marks: &[bool], oldest: u64) -> u64
    requires { oldest ≤ retained machine.now.trail }
    ensures { result ≤ oldest }
{
    for n in 0..oldest {
        if takes(machine.record_ago(n), marks) {
            return n + 1;
        }
    }
    oldest
}

// Tells whether the step that left this record overwrote the id of a marked object.
fn takes(left: &Undo, marks: &[bool]) -> bool {
    match left {
        Undo::Put { old, .. }
        | Undo::Store { old, .. }
        | Undo::Reg { old, .. }
        | Undo::New { old, .. } => is_marked(marks, *old),
        _ => false,
    }
}
