//! The legend of a picture: what each colour and stroke means.
ghost use Rattle.std.specs.Prelude.{◌<◌, ◌+◌, length};
ghost use Rattle.heap_questions.specs.Histogram.{class_rows};

use crate::picture::cells::{LEFT, add_path_begin, add_path_end};
use crate::picture::colors::{COLORS, OTHER};
use crate::picture::text::{add, add_name, add_number, add_stroke, add_text_at};
use heap_class::FirstClasses;
use heap_questions::Row;
use question_words::push_row_name;
use std::alloc::{AllocError, Global};

// The distance of two lines of the legend.
pub(crate) const LEGEND_STEP: u64 = 16;

// The strokes of the legend beside those of classes: colour, width and meaning.
const STROKES: [(&[u8], &[u8], &[u8]); 5] = [
    (b"#9498a0", b"9", b"other classes"),
    (b"#eeeeee", b"9", b"free cells"),
    (b"url(#dead)", b"9", b"dead, not swept yet"),
    (b"#000000", b"2", b"marked"),
    (b"#e00000", b"2", b"gray"),
];

// The number of lines that the legend has beside those of classes.
pub(crate) const OTHER_LINES: u64 = 5;

// Appends the line of a row of a histogram.
pub(crate) fn add_row(
    alloc: Global,
    text: &mut Vec<u8>,
    y: u64,
    classes: &FirstClasses<'_>,
    colored: ColoredRow,
) -> Result<(), AllocError>
    requires { colored.index < class_rows + length classes.now }
{
    let ColoredRow { index, color, row } = colored;
    let shade = if color < OTHER {
        COLORS[color]
    } else {
        COLORS[OTHER]
    };
    add_sample(text, y, shade, b"9")?;
    let mut name = Vec::new(alloc);
    push_row_name(&mut name, classes, index)?;
    add_name(text, name.as_slice())?;
    add(text, b": ")?;
    add_number(text, row.objects)?;
    add(text, b" objects, ")?;
    add_number(text, row.bytes)?;
    add(text, b" bytes</text>\n")?;
    Ok(())
}

// A row of a histogram: its number, that of its colour, and what it counts.
#[derive(Clone, Copy)]
pub(crate) struct ColoredRow {
    pub(crate) index: usize,
    pub(crate) color: usize,
    pub(crate) row: Row,
}

// Appends a stroke of the legend, and the beginning of the text beside it.
fn add_sample(text: &mut Vec<u8>, y: u64, color: &[u8], width: &[u8]) -> Result<(), AllocError> {
    add_path_begin(text, color, width)?;
    add_stroke(text, LEFT, y.saturating_sub(4), 15)?;
    add_path_end(text)?;
    add_text_at(text, LEFT + 24, y)
}

// Appends the lines of the other strokes, the first at this height.
pub(crate) fn add_strokes(text: &mut Vec<u8>, y: u64) -> Result<(), AllocError> {
    let mut y = y;
    for (color, width, meaning) in STROKES {
        add_sample(text, y, color, width)?;
        add(text, meaning)?;
        add(text, b"</text>\n")?;
        y = y.saturating_add(LEGEND_STEP);
    }
    Ok(())
}
