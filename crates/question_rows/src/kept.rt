//! The answer of `kept`.
ghost use Rattle.question_words.specs.Appends.{ReturnsText};
ghost use Rattle.question_rows.specs.Kept.{IsKeptText};

use crate::histogram::rows_text;
use heap_class::Refusal;
use heap_questions::count_kept;
use hprof_text::View;
use std::alloc::Global;

/// Returns the answer of `kept` from an older view to a newer one. Fails with NoMemory if an allocation fails. Reads each object
/// of the newer view at most five times, and each id of the older view once.
pub fn kept_text<V: View>(alloc: Global, older: &V, newer: &V) -> Result<Vec<u8>, Refusal>
    ensures { ReturnsText (IsKeptText (V.ids newer.now) (V.image older.now) (V.image newer.now))
        result }
{
    let histogram = count_kept(alloc, older, newer)?;
    let classes = newer.classes();
    rows_text(alloc, &classes, &histogram)
}
