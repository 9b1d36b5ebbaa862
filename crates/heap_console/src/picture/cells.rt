//! The cells of regions, as strokes of a picture: a row for each region, and a pixel for each word.
use crate::picture::map::{CellMap, SeenObject, cells_each, place_of};
use crate::picture::rows::{REGION_WORDS, Rows, regions_for};
use crate::picture::text::{add, add_next_stroke, add_stroke};
use heap_questions::CellState;
use std::alloc::AllocError;

// The left end of each row, and the height of the first row's middle.
pub(crate) const LEFT: u64 = 40;

const TOP: u64 = 40;

// The distance of two rows.
pub(crate) const STEP: u64 = 12;

// The cells that a stroke is for.
#[derive(Clone, Copy)]
pub(crate) enum CellSort {
    // The free cells.
    Free,
    // The cells whose objects have the colour of this number.
    Colored(usize),
    // The cells whose objects are dead, and wait to be swept.
    Dead,
    // The cells whose objects are marked.
    Marked,
    // The cells whose objects are gray.
    Gray,
}

impl CellSort {
    // Tells whether a cell with this object is of this sort.
    fn has(self, object: Option<SeenObject>) -> bool {
        let Some(SeenObject { color, state }) = object else {
            return matches!(self, CellSort::Free);
        };
        match self {
            CellSort::Free => false,
            CellSort::Colored(shade) => color == shade,
            CellSort::Dead => matches!(state, CellState::Dead),
            CellSort::Marked => matches!(state, CellState::Marked | CellState::Gray),
            CellSort::Gray => matches!(state, CellState::Gray),
        }
    }

    // Returns where in its row a stroke for these cells runs.
    fn level(self) -> Level {
        match self {
            CellSort::Free | CellSort::Colored(_) | CellSort::Dead => Level::Middle,
            CellSort::Marked => Level::Below,
            CellSort::Gray => Level::Above,
        }
    }
}

// Where in its row a stroke runs.
#[derive(Clone, Copy)]
enum Level {
    Above,
    Middle,
    Below,
}

impl Level {
    // Returns the height of a stroke in this row.
    fn height_in(self, row: u64) -> u64 {
        let middle = middle_of(row);
        match self {
            Level::Above => middle.saturating_sub(4),
            Level::Middle => middle,
            Level::Below => middle.saturating_add(4),
        }
    }
}

// Returns the height of the middle of a row.
pub(crate) fn middle_of(row: u64) -> u64 {
    TOP.saturating_add(STEP.saturating_mul(row))
}

// Appends the strokes of all cells that are of this sort, of the regions that have a row.
pub(crate) fn add_all_cells<C: CellMap>(
    text: &mut Vec<u8>,
    cells: &C,
    rows: &Rows,
    sort: CellSort,
) -> Result<(), AllocError> {
    for region in 0..cells.count() {
        let size = cells.cell_size(region).unwrap_or(0);
        if size > REGION_WORDS {
            add_large(text, cells, rows, sort, region, size)?;
        } else if let Some(row) = rows.row(region) {
            add_cells(text, cells, sort, region, size, row)?;
        }
    }
    Ok(())
}

// Appends the strokes of a cell of this size, which takes several regions from this one on, if it is of this sort.
fn add_large<C: CellMap>(
    text: &mut Vec<u8>,
    cells: &C,
    rows: &Rows,
    sort: CellSort,
    region: u64,
    size: u64,
) -> Result<(), AllocError> {
    if sort.has(cells.object(place_of(region, 0))) {
        add_whole_rows(text, rows, region, size, sort.level())?;
    }
    Ok(())
}

// Appends a stroke, at this level, in the row of each region that a cell of this size takes, from the first on.
fn add_whole_rows(
    text: &mut Vec<u8>,
    rows: &Rows,
    first: u64,
    size: u64,
    level: Level,
) -> Result<(), AllocError> {
    for region in first..first.saturating_add(regions_for(size)) {
        if let Some(row) = rows.row(region) {
            add_stroke(text, LEFT, level.height_in(row), REGION_WORDS - 1)?;
        }
    }
    Ok(())
}

// Appends the strokes of a region's cells, of this size, that are of this sort, in this row.
fn add_cells<C: CellMap>(
    text: &mut Vec<u8>,
    cells: &C,
    sort: CellSort,
    region: u64,
    size: u64,
    row: u64,
) -> Result<(), AllocError> {
    let y = sort.level().height_in(row);
    let mut pen = None;
    for cell in 0..cells_each(size) {
        if sort.has(cells.object(place_of(region, cell))) {
            let x = LEFT.saturating_add(size.saturating_mul(cell));
            pen = Some(add_next_stroke(text, pen, x, y, size.saturating_sub(1))?);
        }
    }
    Ok(())
}

// Appends the beginning of a path in this colour and width.
pub(crate) fn add_path_begin(
    text: &mut Vec<u8>,
    color: &[u8],
    width: &[u8],
) -> Result<(), AllocError> {
    add(text, b"<path stroke=\"")?;
    add(text, color)?;
    add(text, b"\" stroke-width=\"")?;
    add(text, width)?;
    add(text, b"\" d=\"")
}

// Appends the end of a path.
pub(crate) fn add_path_end(text: &mut Vec<u8>) -> Result<(), AllocError> {
    add(text, b"\"/>\n")
}
