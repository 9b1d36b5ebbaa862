//! The answer of `growth`.
ghost use Rattle.std.specs.Prelude.{◌≡◌, ◌<◌, ◌+◌, ◌≤◌, length, count_by};
ghost use Rattle.heap_questions.specs.Histogram.{class_rows};
ghost use Rattle.question_words.specs.Appends.{Appends, ReturnsText};
ghost use Rattle.question_rows.specs.Growths.{IsGrowthText, changed_text, changed_texts, changes_text, differs, more_classes};

use crate::histogram::push_counts;
use heap_class::{FirstClasses, Refusal};
use heap_questions::{CLASS_ROWS, Change, compare, count_by_class};
use hprof_text::View;
use question_words::{push_count, push_row_name, push_words};
use std::alloc::{AllocError, Global};

/// Returns the answer of `growth` from an older view to a newer one. Fails with NoMemory if an allocation fails. Reads each
/// object once.
pub fn growth_answer<V: View>(alloc: Global, older: &V, newer: &V) -> Result<Vec<u8>, Refusal>
    requires { V.ids older.now ≡ V.ids newer.now }
    ensures { ReturnsText
        (IsGrowthText (V.ids newer.now) (V.image older.now) (V.image newer.now)) result }
{
    let before = count_by_class(alloc, older)?;
    let after = count_by_class(alloc, newer)?;
    let changes = compare(alloc, &before, &after)?;
    named_changes(alloc, older, newer, changes.as_slice())
}

// Returns the same about two views, with the names of the one that has more classes. Fails with NoMemory.
fn named_changes<V: View>(
    alloc: Global,
    older: &V,
    newer: &V,
    changes: &[Change],
) -> Result<Vec<u8>, Refusal>
    requires least { class_rows ≤ length changes.now }
    requires most { length changes.now
        ≤ class_rows
        + length (more_classes (V.image older.now).classes (V.image newer.now).classes) }
    ensures { ReturnsText (λ text. text
        ≡ changes_text (more_classes (V.image older.now).classes (V.image newer.now).classes)
        changes.now) result }
{
    let (old_classes, new_classes) = (older.classes(), newer.classes());
    if new_classes.len() < old_classes.len() {
        changes_text(alloc, &old_classes, changes)
    } else {
        changes_text(alloc, &new_classes, changes)
    }
}

// Returns the lines of the rows that changed, and their number. Fails with NoMemory.
fn changes_text(
    alloc: Global,
    classes: &FirstClasses<'_>,
    changes: &[Change],
) -> Result<Vec<u8>, Refusal>
    requires least { class_rows ≤ length changes.now }
    requires most { length changes.now ≤ class_rows + length classes.now }
    ensures { ReturnsText (λ text. text ≡ changes_text classes.now changes.now) result }
{
    let mut text = Vec::new(alloc);
    push_changes(&mut text, classes, CLASS_ROWS, &changes[CLASS_ROWS..])?;
    push_changes(&mut text, classes, 0, &changes[..CLASS_ROWS])?;
    push_count(&mut text, count_changes(changes))?;
    Ok(text)
}

// Appends the lines of the rows from number `first` on that changed. Fails if an allocation fails.
fn push_changes(
    text: &mut Vec<u8>,
    classes: &FirstClasses<'_>,
    first: usize,
    changes: &[Change],
) -> Result<(), AllocError>
    requires { first + length changes.now ≤ class_rows + length classes.now }
    ensures { Appends (changed_texts classes.now first changes.now)
        text.old.items text.new.items result }
{
    // Its contract says that there are few classes, so that no row's number overflows.
    classes.len();
    for index in 0..changes.len() {
        if differs(changes[index]) {
            push_change(text, classes, first + index, changes[index])?;
        }
    }
    Ok(())
}

// Tells whether a row has other numbers than before.
fn differs(change: Change) -> bool
    ensures { result ≡ differs change }
{
    change.older.objects != change.newer.objects || change.older.bytes != change.newer.bytes
}

// Appends the line of a row that changed. Fails if an allocation fails.
#[tactic(auto, unfolding(crate::specs::Growths::changed_text))]
fn push_change(
    text: &mut Vec<u8>,
    classes: &FirstClasses<'_>,
    index: usize,
    change: Change,
) -> Result<(), AllocError>
    requires { index < class_rows + length classes.now }
    ensures { Appends (changed_text classes.now index change) text.old.items text.new.items result }
{
    push_words(text, b"row ")?;
    push_row_name(text, classes, index)?;
    push_counts(text, change.older)?;
    push_counts(text, change.newer)?;
    push_words(text, b"\n")
}

// Returns how many rows changed.
fn count_changes(changes: &[Change]) -> u64
    ensures { result ≡ count_by differs changes.now }
{
    let mut count = 0;
    for change in changes {
        if differs(*change) {
            count += 1;
        }
    }
    count
}
