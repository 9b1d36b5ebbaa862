//! The changes of one slot of an object in the retained steps: a walk over the records, the newest first.
ghost use Rattle.std.specs.Prelude.{◌≡◌, ◌++◌, Some, IfOk, IfErr, OnOk};
ghost use Rattle.heap_class.specs.declared.Refusal.TheVariants.{NoMemory};
ghost use Rattle.heap_questions.specs.Changes.{slot_word};
ghost use Rattle.heap_questions.specs.SlotChanges.{IsWatched, IsWatchedBack, changed, word_before};

use crate::past::changes::makes;
use crate::past::trail::PastTrail;
use heap_class::{ObjRef, Refusal};
use heap_step::Undo;
use std::alloc::Global;

/// A change of a word: the place that the step led to, and the words before and after it.
#[derive(Clone, Copy)]
pub struct SlotChange {
    pub place: u64,
    pub old: u64,
    pub new: u64,
}

/// Returns the changes of a slot of the object at `at` by the steps of a trail since it was made, the oldest first. The trail leads
/// to a state in which the slot holds `now`. Fails with NoMemory if an allocation fails. Reads each of the steps' records once.
pub fn slot_changes(
    alloc: Global,
    past: &PastTrail<'_>,
    at: ObjRef,
    slot: u64,
    now: u64,
) -> Result<Vec<SlotChange>, Refusal>
    requires { slot_word past.now.current at slot ≡ Some now }
    ensures watched { IfOk result (λ changes. IsWatched past.now at slot changes.items) }
    ensures refused { IfErr result (λ e. e ≡ NoMemory) }
{
    let mut changes = newest_changes(alloc, past, at, slot, now)?;
    changes.reverse();
    Ok(changes)
}

// Returns the changes of a slot of the object at `at` by the steps of a trail since it was made, the newest first. The trail leads
// to a state in which the slot holds `now`. Fails with NoMemory.
fn newest_changes(
    alloc: Global,
    past: &PastTrail<'_>,
    at: ObjRef,
    slot: u64,
    now: u64,
) -> Result<Vec<SlotChange>, Refusal>
    requires { slot_word past.now.current at slot ≡ Some now }
    ensures watched { IfOk result (λ changes. IsWatchedBack past.now at slot changes.items) }
    ensures refused { IfErr result (λ e. e ≡ NoMemory) }
{
    let place = past.place();
    let mut now = now;
    let mut changes = Vec::new(alloc);
    for n in 0..past.retained_count() {
        let left = past.record_ago(n);
        if makes(left, at) {
            return Ok(changes);
        }
        let old = word_before(left, at, slot, now);
        push_change(&mut changes, place - n, old, now)?;
        now = old;
    }
    Ok(changes)
}

// Returns the word of a slot before the step that left this record, which didn't make the object. After it, it is `now`.
fn word_before(left: &Undo, at: ObjRef, slot: u64, now: u64) -> u64
    ensures { result ≡ word_before left.now at slot now }
{
    match left {
        Undo::Put {
            at: place,
            slot: written,
            old,
        }
        | Undo::Store {
            at: place,
            slot: written,
            old,
            ..
        } => {
            if place.region == at.region && place.cell == at.cell && *written as u64 == slot {
                *old
            } else {
                now
            }
        }
        _ => now,
    }
}

// Adds the change that the step to a place made, if the words before and after it differ. Fails with NoMemory.
fn push_change(changes: &mut Vec<SlotChange>, place: u64, old: u64, new: u64) -> Result<(), Refusal>
    ensures added { OnOk result
        (changes.new.items ≡ changes.old.items ++ changed place (Some old) (Some new)) }
    ensures refused { IfErr result (λ e. e ≡ NoMemory) }
{
    if old != new {
        changes.push(SlotChange { place, old, new })?;
    }
    Ok(())
}
