//! The bars of the regions that have no row: each as long as the part of the region that is in use.
use crate::picture::cells::{LEFT, add_path_begin, add_path_end, middle_of};
use crate::picture::rows::Rows;
use crate::picture::text::{add, add_next_stroke, add_number, add_text_at};
use std::alloc::AllocError;

// The number of bars in a line, the distance of two, and the length of that of a full region.
const LINE_BARS: u64 = 64;

const BAR_STEP: u64 = 16;

const BAR_WIDTH: u64 = 14;

// The number of words for each point of a bar: a part of a point is a point.
const POINT_WORDS: u64 = 74;

// Returns the number of lines that the bars of this many regions take, with the one above them.
pub(crate) fn bar_lines(others: u64) -> u64 {
    if others == 0 {
        0
    } else {
        others.div_ceil(LINE_BARS).saturating_add(1)
    }
}

// Appends the bars of the regions that have no row, if there are such regions.
pub(crate) fn add_bars(text: &mut Vec<u8>, count: u64, rows: &Rows) -> Result<(), AllocError> {
    if rows.others() == 0 {
        return Ok(());
    }
    add_bars_title(text, rows)?;
    add_bar_labels(text, count, rows)?;
    add_path_begin(text, b"#9498a0", b"9")?;
    add_bar_strokes(text, count, rows)?;
    add_path_end(text)
}

// Appends the line above the bars, in the row behind those of the regions.
fn add_bars_title(text: &mut Vec<u8>, rows: &Rows) -> Result<(), AllocError> {
    add_text_at(text, LEFT, middle_of(rows.count()).saturating_add(4))?;
    add_number(text, rows.others())?;
    add(
        text,
        b" other regions, with fewer bytes: each bar shows how full a region is</text>\n",
    )
}

// Appends the number of the first region of each line of bars.
fn add_bar_labels(text: &mut Vec<u8>, count: u64, rows: &Rows) -> Result<(), AllocError> {
    let mut place: u64 = 0;
    for region in 0..count {
        if rows.row(region).is_none() {
            if place % LINE_BARS == 0 {
                let line = rows.count().saturating_add(1 + place / LINE_BARS);
                add_text_at(text, 4, middle_of(line).saturating_add(4))?;
                add_number(text, region)?;
                add(text, b"</text>\n")?;
            }
            place = place.saturating_add(1);
        }
    }
    Ok(())
}

// Appends the strokes of the bars.
fn add_bar_strokes(text: &mut Vec<u8>, count: u64, rows: &Rows) -> Result<(), AllocError> {
    let mut place: u64 = 0;
    let mut pen = None;
    for region in 0..count {
        if rows.row(region).is_none() {
            if place % LINE_BARS == 0 {
                pen = None;
            }
            let width = bar_of(rows.words(region));
            if width > 0 {
                let line = rows.count().saturating_add(1 + place / LINE_BARS);
                let x = LEFT.saturating_add(BAR_STEP.saturating_mul(place % LINE_BARS));
                pen = Some(add_next_stroke(text, pen, x, middle_of(line), width)?);
            }
            place = place.saturating_add(1);
        }
    }
    Ok(())
}

// Returns the length of the bar of a region with this many words in use.
fn bar_of(words: u64) -> u64 {
    words.div_ceil(POINT_WORDS).min(BAR_WIDTH)
}
