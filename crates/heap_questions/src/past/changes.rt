//! The retained steps that changed a slot or created an object: a walk over the records, the newest first.
ghost use Rattle.std.specs.Prelude.{◌≡◌, IsSome, IfSome, IfNone, Some};
ghost use Rattle.heap_region.specs.Regions.{object_at};
ghost use Rattle.heap_questions.specs.Changes.{IsBirth, IsLastWrite, IsOld, IsUnwritten, changed_by, made_by, slot_word};

use crate::past::trail::PastTrail;
use heap_class::ObjRef;
use heap_step::Undo;

// Tells whether the step that left this record changed the word of a slot, which is `now` after the step. A new object in a
// fresh region is the only one there, so before the step nothing stood in its other cells.
fn changes(left: &Undo, at: ObjRef, slot: u64, now: u64) -> bool
    ensures { result ≡ changed_by left.now at slot now }
{
    match left {
        Undo::Put {
            at: place,
            slot: written,
            old,
        }
        | Undo::Store {
            at: place,
            slot: written,
            old,
            ..
        } => place.region == at.region
            && place.cell == at.cell
            && *written as u64 == slot
            && *old != now,
        Undo::New {
            at: place,
            fresh,
            ..
        } => place.region == at.region && (*fresh || place.cell == at.cell),
        _ => false,
    }
}

// Tells whether the step that left this record created the object at a place.
pub(crate) fn makes(left: &Undo, at: ObjRef) -> bool
    ensures { result ≡ made_by left.now at }
{
    match left {
        Undo::New {
            at: place,
            fresh,
            ..
        } => place.region == at.region && (*fresh || place.cell == at.cell),
        _ => false,
    }
}

/// Returns the place of the newest step of a trail that changed the word of a slot of the object at `at` or created the object, or
/// None if none did. The trail leads to a state in which the slot holds `now`. Reads each record since that step once. Takes no
/// memory.
pub fn last_write(past: &PastTrail<'_>, at: ObjRef, slot: u64, now: u64) -> Option<u64>
    requires { slot_word past.now.current at slot ≡ Some now }
    ensures written { IfSome result (λ place. IsLastWrite past.now at slot place) }
    ensures none { IfNone result (IsUnwritten past.now at slot) }
{
    let place = past.place();
    for n in 0..past.retained_count() {
        if changes(past.record_ago(n), at, slot, now) {
            return Some(place - n);
        }
    }
    None
}

/// Returns the place of the step of a trail that created the object at `at`, or None if the object is older than all its steps.
/// Reads each record since that step once. Takes no memory.
pub fn birth(past: &PastTrail<'_>, at: ObjRef) -> Option<u64>
    requires { IsSome (object_at past.now.current.regions at) }
    ensures born { IfSome result (λ place. IsBirth past.now at place) }
    ensures none { IfNone result (IsOld past.now at) }
{
    let place = past.place();
    for n in 0..past.retained_count() {
        if makes(past.record_ago(n), at) {
            return Some(place - n);
        }
    }
    None
}
