//! What differs between the objects of two views.
ghost use Rattle.std.specs.Prelude.{◌≡◌, ◌++◌, ◌∷◌, ◌<◌, [], length, slice_index, IfOk, IfErr, OnOk};
ghost use Rattle.heap_class.specs.declared.Refusal.TheVariants.{NoMemory};
ghost use Rattle.hprof_text.specs.Image.{IsKnown};
ghost use Rattle.heap_questions.specs.Differences.{AreDifferences, AreIdsOfBoth, IsKnownIf, changes_of_slots, differences_between, differences_of_two, is_like, slot_seen};
ghost use Rattle.heap_questions.specs.Graph.{object_with};

use crate::index::ObjectIndex;
use crate::past::SeenSlot;
use crate::references::is_reference_slot;
use crate::rows::row_number;
use heap_class::{FirstClasses, Refusal};
use hprof_text::{ShownObject, View};
use std::alloc::{AllocError, Global};

/// What differs between two states of a heap.
#[derive(Clone, Copy)]
pub enum Difference {
    /// The object with this id is in the newer state alone, or it is of another class or length in the older.
    Made(u64),
    /// The object with this id is in the older state alone, or it is of another class or length in the newer.
    Gone(u64),
    /// A slot of the object with this id holds other words in the two states.
    Changed {
        id: u64,
        slot: u64,
        old: SeenSlot,
        new: SeenSlot,
    },
}

/// Lists what differs between the objects of an older view and a newer one, by id, and the slots of an object by number: the
/// objects that one view alone shows, and the slots of objects of both that hold other words. An object that is of another class or
/// length in the newer view is listed as gone, and then as made. Fails with NoMemory if an allocation fails. Reads each object at
/// most twice. If ids rise in both, as those of a heap do, both are walked once, side by side; else n ids are compared about n log
/// n times.
pub fn object_differences<V: View>(
    alloc: Global,
    older: &V,
    newer: &V,
) -> Result<Vec<Difference>, Refusal>
    ensures rows { IfOk result (λ rows.
        AreDifferences (V.image older.now) (V.image newer.now) rows.items) }
    ensures refused { IfErr result (λ e. e ≡ NoMemory) }
{
    let before = ObjectIndex::new(alloc, older)?;
    let after = ObjectIndex::new(alloc, newer)?;
    let ids = ids_of_both(alloc, &before, &after)?;
    let old_classes = older.classes();
    let new_classes = newer.classes();
    let mut rows = Vec::new(alloc);
    for place in 0..ids.len() {
        let id = ids[place];
        add_differences(id, &old_classes, &before, &new_classes, &after, &mut rows)?;
    }
    Ok(rows)
}

// Lists the ids of the objects of two views, each once, in order. Fails if an allocation fails. If ids rise in both, reads them
// once.
fn ids_of_both<V: View>(
    alloc: Global,
    before: &ObjectIndex<'_, V>,
    after: &ObjectIndex<'_, V>,
) -> Result<Vec<u64>, AllocError>
    ensures { IfOk result (λ ids. AreIdsOfBoth before.now after.now ids.items) }
{
    let mut ids = Vec::new(alloc);
    before.add_ids(&mut ids)?;
    after.add_ids(&mut ids)?;
    ids.sort()?;
    ids.dedup();
    Ok(ids)
}

// Adds what differs between the objects with this id, whose classes must be there. Fails with NoMemory.
#[tactic(auto, unfolding(crate::specs::Differences::differences_between))]
fn add_differences<V: View>(
    id: u64,
    old_classes: &FirstClasses<'_>,
    before: &ObjectIndex<'_, V>,
    new_classes: &FirstClasses<'_>,
    after: &ObjectIndex<'_, V>,
    rows: &mut Vec<Difference>,
) -> Result<(), Refusal>
    requires old { IsKnownIf old_classes.now (object_with before.now id) }
    requires new { IsKnownIf new_classes.now (object_with after.now id) }
    ensures added { OnOk result (rows.new.items ≡ rows.old.items
        ++ differences_between id
        old_classes.now (object_with before.now id) new_classes.now (object_with after.now id)) }
    ensures refused { IfErr result (λ e. e ≡ NoMemory) }
{
    match (before.object_with(id), after.object_with(id)) {
        (Some(old), Some(new)) => add_changes(id, old_classes, &old, new_classes, &new, rows),
        (Some(_), None) => add_row(rows, Difference::Gone(id)),
        (None, Some(_)) => add_row(rows, Difference::Made(id)),
        (None, None) => Ok(()),
    }
}

// Adds what differs between two objects with this id, whose classes must be there. Fails with NoMemory.
#[tactic(auto, unfolding(crate::specs::Differences::differences_of_two))]
fn add_changes(
    id: u64,
    old_classes: &FirstClasses<'_>,
    old: &ShownObject<'_>,
    new_classes: &FirstClasses<'_>,
    new: &ShownObject<'_>,
    rows: &mut Vec<Difference>,
) -> Result<(), Refusal>
    requires old { IsKnown old_classes.now old.now.kind (length old.now.words) }
    requires new { IsKnown new_classes.now new.now.kind (length new.now.words) }
    ensures added { OnOk result (rows.new.items ≡ rows.old.items
        ++ differences_of_two id old_classes.now old.now new_classes.now new.now) }
    ensures refused { IfErr result (λ e. e ≡ NoMemory) }
{
    if is_like(old_classes, old, new_classes, new) {
        return add_slots(id, old_classes, old, new_classes, new, rows);
    }
    add_row(rows, Difference::Gone(id))?;
    add_row(rows, Difference::Made(id))
}

// Tells whether two objects are of one class and have as many slots. Their classes must be there.
fn is_like(
    old_classes: &FirstClasses<'_>,
    old: &ShownObject<'_>,
    new_classes: &FirstClasses<'_>,
    new: &ShownObject<'_>,
) -> bool
    requires old { IsKnown old_classes.now old.now.kind (length old.now.words) }
    requires new { IsKnown new_classes.now new.now.kind (length new.now.words) }
    ensures { result ≡ is_like old.now new.now }
{
    let old_count = old.words().len() as u64;
    let new_count = new.words().len() as u64;
    let old_row = row_number(old_classes, old.kind(), old_count);
    let new_row = row_number(new_classes, new.kind(), new_count);
    old_row == new_row && old_count == new_count
}

// Adds the slots in which two objects of as many slots hold other words. Their classes must be there. Fails with NoMemory.
fn add_slots(
    id: u64,
    old_classes: &FirstClasses<'_>,
    old: &ShownObject<'_>,
    new_classes: &FirstClasses<'_>,
    new: &ShownObject<'_>,
    rows: &mut Vec<Difference>,
) -> Result<(), Refusal>
    requires old { IsKnown old_classes.now old.now.kind (length old.now.words) }
    requires new { IsKnown new_classes.now new.now.kind (length new.now.words) }
    requires like { length old.now.words ≡ length new.now.words }
    ensures added { OnOk result (rows.new.items ≡ rows.old.items
        ++ changes_of_slots id old_classes.now old.now new_classes.now new.now) }
    ensures refused { IfErr result (λ e. e ≡ NoMemory) }
{
    for slot in 0..old.words().len() {
        let before = word_at(old, slot);
        let after = word_at(new, slot);
        if before != after {
            let seen = slot_seen(old_classes, old, slot);
            let now = slot_seen(new_classes, new, slot);
            rows.push(Difference::Changed {
                id,
                slot: slot as u64,
                old: seen,
                new: now,
            })?;
        }
    }
    Ok(())
}

// Returns the word in a slot of an object.
fn word_at(object: &ShownObject<'_>, slot: usize) -> u64
    requires { slot < length object.now.words }
    ensures { result ≡ slice_index object.now.words slot }
{
    object.words()[slot]
}

// Returns what a slot of an object holds. Its class must be there.
fn slot_seen(classes: &FirstClasses<'_>, object: &ShownObject<'_>, slot: usize) -> SeenSlot
    requires known { IsKnown classes.now object.now.kind (length object.now.words) }
    requires within { slot < length object.now.words }
    ensures { result ≡ slot_seen classes.now object.now slot }
{
    let count = object.words().len() as u64;
    SeenSlot {
        word: word_at(object, slot),
        refers: is_reference_slot(classes, object.kind(), count, slot as u64),
    }
}

// Adds a row. Fails with NoMemory.
fn add_row(rows: &mut Vec<Difference>, row: Difference) -> Result<(), Refusal>
    ensures added { OnOk result (rows.new.items ≡ rows.old.items ++ row ∷ []) }
    ensures refused { IfErr result (λ e. e ≡ NoMemory) }
{
    rows.push(row)?;
    Ok(())
}
