//! The answers of `histogram`, `garbage` and `retained`.
ghost use Rattle.std.specs.Prelude.{◌≡◌, ◌<◌, ◌+◌, ◌^◌, All, length, flat_map};
ghost use Rattle.heap_questions.specs.Histogram.{class_rows};
ghost use Rattle.question_words.specs.Appends.{Appends, ReturnsText};
ghost use Rattle.question_rows.specs.Histograms.{IsGarbageText, IsHistogramText, IsRetainedCount, IsRetainedText, IsRowsText, and_counts, row_text, sum_of, total_text};
ghost use Rattle.question_words.specs.Moments.{IsToldOf, told_text};

use heap_class::{FirstClasses, Refusal};
use heap_questions::{
    Histogram, Row, count_by_class, count_garbage, count_retained, object_with, ranking,
};
use hprof_text::View;
use question_words::{Unanswered, push_number, push_row_name, push_words};
use std::alloc::{AllocError, Global};

// Appends the numbers of a row, each after a space. Fails if an allocation fails.
pub(crate) fn push_counts(text: &mut Vec<u8>, row: Row) -> Result<(), AllocError>
    ensures { Appends (and_counts row) text.old.items text.new.items result }
{
    push_number(text, row.objects)?;
    push_number(text, row.bytes)
}

// Returns the lines of a count's rows, in order, and of their total, which must be below 2^64. Fails with NoMemory if an
// allocation fails.
pub(crate) fn rows_text(
    alloc: Global,
    classes: &FirstClasses<'_>,
    histogram: &Histogram,
) -> Result<Vec<u8>, Refusal>
    requires classes { length histogram.now ≡ class_rows + length classes.now }
    requires objects { (sum_of histogram.now).objects < 2 ^ 64 }
    requires bytes { (sum_of histogram.now).bytes < 2 ^ 64 }
    ensures { ReturnsText (IsRowsText classes.now histogram.now (sum_of histogram.now)) result }
{
    let ranked = ranking(alloc, histogram)?;
    let rows = histogram.as_slice();
    let mut text = Vec::new(alloc);
    push_rows(&mut text, classes, rows, ranked.as_slice())?;
    push_total(&mut text, sum_of(rows))?;
    Ok(text)
}

// Appends the lines of the rows with these numbers. Fails if an allocation fails.
fn push_rows(
    text: &mut Vec<u8>,
    classes: &FirstClasses<'_>,
    rows: &[Row],
    ranked: &[usize],
) -> Result<(), AllocError>
    requires within { All (λ g. g < length rows.now) ranked.now }
    requires classes { length rows.now ≡ class_rows + length classes.now }
    ensures { Appends (flat_map (row_text classes.now rows.now) ranked.now)
        text.old.items text.new.items result }
{
    for index in ranked {
        push_row(text, classes, rows, *index)?;
    }
    Ok(())
}

// Appends the line of a row. Fails if an allocation fails.
#[tactic(auto, unfolding(crate::specs::Histograms::row_text))]
fn push_row(
    text: &mut Vec<u8>,
    classes: &FirstClasses<'_>,
    rows: &[Row],
    index: usize,
) -> Result<(), AllocError>
    requires within { index < length rows.now }
    requires classes { index < class_rows + length classes.now }
    ensures { Appends (row_text classes.now rows.now index) text.old.items text.new.items result }
{
    push_words(text, b"row")?;
    push_counts(text, rows[index])?;
    push_words(text, b" ")?;
    push_row_name(text, classes, index)?;
    push_words(text, b"\n")
}

// Appends the last line of a count. Fails if an allocation fails.
fn push_total(text: &mut Vec<u8>, total: Row) -> Result<(), AllocError>
    ensures { Appends (total_text total) text.old.items text.new.items result }
{
    push_words(text, b"ok")?;
    push_counts(text, total)?;
    push_words(text, b"\n")
}

// Returns the objects of all rows together, and their bytes: both must be below 2^64.
fn sum_of(rows: &[Row]) -> Row
    requires objects { (sum_of rows.now).objects < 2 ^ 64 }
    requires bytes { (sum_of rows.now).bytes < 2 ^ 64 }
    ensures { result ≡ sum_of rows.now }
{
    let mut objects = 0;
    let mut bytes = 0;
    for row in rows {
        objects += row.objects;
        bytes += row.bytes;
    }
    Row { objects, bytes }
}

/// Returns the answer of `histogram` about a view. Fails with NoMemory if an allocation fails. Reads each object once.
pub fn histogram_text<V: View>(alloc: Global, view: &V) -> Result<Vec<u8>, Refusal>
    ensures { ReturnsText (IsHistogramText (V.ids view.now) (V.image view.now)) result }
{
    let histogram = count_by_class(alloc, view)?;
    let classes = view.classes();
    rows_text(alloc, &classes, &histogram)
}

/// Returns the answer of `garbage` about a view. Fails with NoMemory if an allocation fails. Reads each object at most three times.
pub fn garbage_text<V: View>(alloc: Global, view: &V) -> Result<Vec<u8>, Refusal>
    ensures { ReturnsText (IsGarbageText (V.ids view.now) (V.image view.now)) result }
{
    let histogram = count_garbage(alloc, view)?;
    let classes = view.classes();
    rows_text(alloc, &classes, &histogram)
}

/// Returns the answer of `retained` about a view. Fails with NoObject if the id names no object, and with NoMemory if an
/// allocation fails. Reads each object a few times.
pub fn retained_answer<V: View>(alloc: Global, view: &V, id: u64) -> Result<Vec<u8>, Unanswered>
    ensures { IsToldOf (IsRetainedText id (V.ids view.now)) (V.image view.now) (told_text result) }
{
    match object_with(view, id) {
        Some(_) => Ok(retained_text(alloc, view, id)?),
        None => Err(Unanswered::NoObject),
    }
}

// Returns the lines of what the object with this id dominates. Fails with NoMemory.
fn retained_text<V: View>(alloc: Global, view: &V, id: u64) -> Result<Vec<u8>, Refusal>
    ensures { ReturnsText (IsRetainedCount id (V.ids view.now) (V.image view.now)) result }
{
    let histogram = count_retained(alloc, view, id)?;
    let classes = view.classes();
    rows_text(alloc, &classes, &histogram)
}
