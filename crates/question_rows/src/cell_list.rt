//! The answer of `cells`.
ghost use Rattle.std.specs.Prelude.{◌≡◌, flat_map, length, option_map, IsSome, Some, IfOk};
ghost use Rattle.heap_world.specs.Live.{cells_of};
ghost use Rattle.heap_world.specs.Regions.{used_at};
ghost use Rattle.heap_questions.specs.Cells.{used_regions};
ghost use Rattle.question_words.specs.Appends.{Appends, ReturnsText};
ghost use Rattle.question_rows.specs.CellLists.{IsCellsText, cell_letter, cell_letters, cells_text, region_text, sweep_words};
ghost use Rattle.question_words.specs.Moments.{told_text};

use heap_class::{ObjRef, Refusal};
use heap_questions::{CellState, CellStates};
use heap_trail::Machine;
use question_words::{Unanswered, push_count, push_number, push_row, push_words};
use std::alloc::{AllocError, Global};

/// Returns the answer of `cells`. Fails with NoMemory if an allocation fails. Looks at each cell once.
pub fn cells_answer(alloc: Global, machine: &Machine) -> Result<Vec<u8>, Unanswered>
    ensures { IsCellsText machine.now.trail.current (told_text result) }
{
    Ok(cells_text(alloc, machine)?)
}

// Returns the lines of the regions in use, and their number. Fails with NoMemory. Looks at each cell once.
fn cells_text(alloc: Global, machine: &Machine) -> Result<Vec<u8>, Refusal>
    ensures { ReturnsText (λ text. text ≡ cells_text machine.now.trail.current) result }
{
    let cells = CellStates::new(alloc, machine.world())?;
    let mut text = Vec::new(alloc);
    let count = push_regions(&mut text, &cells)?;
    push_count(&mut text, count)?;
    Ok(text)
}

// Appends the lines of the regions in use, and returns their number. Fails if an allocation fails.
fn push_regions(text: &mut Vec<u8>, cells: &CellStates<'_>) -> Result<u64, AllocError>
    ensures appended { Appends (flat_map (region_text cells.now) (used_regions cells.now.regions))
        text.old.items text.new.items result }
    ensures count { IfOk result (λ n. n ≡ length (used_regions cells.now.regions)) }
{
    let regions = cells.world().regions();
    let mut count = 0;
    for region in 0..regions.count() {
        if let Some(size) = regions.cell_size(region) {
            push_region(text, cells, region, size)?;
            count += 1;
        }
    }
    Ok(count)
}

// Appends the line of a region, whose cells must have this size. Fails if an allocation fails.
fn push_region(
    text: &mut Vec<u8>,
    cells: &CellStates<'_>,
    region: u64,
    size: u64,
) -> Result<(), AllocError>
    requires { option_map (λ u. u.cell_size) (used_at cells.now.regions region) ≡ Some size }
    ensures { Appends (region_text cells.now region) text.old.items text.new.items result }
{
    let waits = cells.world().regions().pending(region).unwrap_or(false);
    push_row(text, region)?;
    push_number(text, size)?;
    push_sweep(text, waits)?;
    push_letters(text, cells, region)?;
    push_words(text, b"\n")
}

// Appends whether a region waits to be swept. Fails if an allocation fails.
fn push_sweep(text: &mut Vec<u8>, waits: bool) -> Result<(), AllocError>
    ensures { Appends (sweep_words waits) text.old.items text.new.items result }
{
    if waits {
        push_words(text, b" sweep ")
    } else {
        push_words(text, b" - ")
    }
}

// Appends the letters of the cells of a region, which must be in use. Fails if an allocation fails.
fn push_letters(text: &mut Vec<u8>, cells: &CellStates<'_>, region: u64) -> Result<(), AllocError>
    requires { IsSome (used_at cells.now.regions region) }
    ensures { Appends
        (cell_letters cells.now region (length (cells_of (used_at cells.now.regions region))))
        text.old.items text.new.items result }
{
    let regions = cells.world().regions();
    let number = regions.region_number(region);
    for cell in 0..regions.cell_count(region) {
        let at = ObjRef {
            region: number,
            cell,
        };
        text.push(cell_letter(cells.state_at(at)))?;
    }
    Ok(())
}

// Returns the letter of what a cell holds.
fn cell_letter(state: CellState) -> u8
    ensures { result ≡ cell_letter state }
{
    match state {
        CellState::Free => b'.',
        CellState::Live => b'o',
        CellState::Marked => b'm',
        CellState::Gray => b'g',
        CellState::Dead => b'x',
    }
}
