//! When registers lost an object.
ghost use Rattle.std.specs.Prelude.{◌≡◌, ◌≤◌, ℕ, Some, IsSome, IfOk, IfErr};
ghost use Rattle.heap_class.specs.declared.Refusal.TheVariants.{NoMemory};
ghost use Rattle.heap_region.specs.Regions.{object_at, ref_of};
ghost use Rattle.heap_step.specs.declared.Event.{Event};
ghost use Rattle.heap_world.specs.State.{HeapState};
ghost use Rattle.heap_questions.specs.Losses.{HasStood, IsLossOf, IsNewest, PathIsReach, StaysUnreached, id_now};

use crate::past::changes::birth;
use crate::past::trail::PastTrail;
use heap_class::{ObjRef, Refusal};
use std::alloc::Global;

/// Whether registers reach an object, or when they lost it.
#[derive(Clone, Copy)]
pub enum Loss {
    /// A register reaches the object.
    Reached,
    /// No register has reached the object since the step that led to this place.
    At(u64),
    /// No register reached the object in any retained state in which it stood.
    Older,
}

/// States that the image of a legal state has a path to an id exactly if a register reaches it.
pub fn path_is_reach()
    ensures { (w : HeapState) (x : ℕ) → PathIsReach w x }
{}

/// States that an object that no register reaches isn't reached after any event that a legal heap accepts.
pub fn unreached_stays()
    ensures { (e : Event) (w : HeapState) → StaysUnreached e w }
{}

/// Tells whether a register reaches the object at `at` in the state to which a trail leads, in which it has this id, or which step
/// of the trail took the last path from it. Fails with NoMemory if an allocation fails. Searches the heap twice if a guess by the
/// references of the current state is right, and if it isn't, once more for each halving of the retained states: 17 times for
/// 65,536 steps.
pub fn loss_of(alloc: Global, past: &PastTrail<'_>, at: ObjRef, id: u64) -> Result<Loss, Refusal>
    requires named { ref_of past.now.current.regions id ≡ Some at }
    requires there { IsSome (object_at past.now.current.regions at) }
    ensures loss { IfOk result (λ loss. IsLossOf past.now at loss) }
    ensures refused { IfErr result (λ e. e ≡ NoMemory) }
{
    let oldest = oldest_state(past, at);
    let newest = newest_reached(alloc, past, at, id, oldest)?;
    let Some(ago) = newest else {
        return Ok(Loss::Older);
    };
    if ago == 0 {
        return Ok(Loss::Reached);
    }
    Ok(Loss::At(past.place() - (ago - 1)))
}

// Returns how many steps ago the oldest state of a trail was since which the object at `at` has stood there.
fn oldest_state(past: &PastTrail<'_>, at: ObjRef) -> u64
    requires { IsSome (object_at past.now.current.regions at) }
    ensures { HasStood past.now at result }
{
    let now = past.place();
    match birth(past, at) {
        Some(place) => now - place,
        None => past.retained_count(),
    }
}

// Returns how many steps ago the newest state was in which a register reached the object at `at`, whose id is `id` and which has
// stood there since `oldest` steps ago, or None if no register has reached it since then. Begins with a guess, and halves the
// states then, since an object that isn't reached is never reached again. Fails with NoMemory.
fn newest_reached(
    alloc: Global,
    past: &PastTrail<'_>,
    at: ObjRef,
    id: u64,
    oldest: u64,
) -> Result<Option<u64>, Refusal>
    requires named { id ≡ id_now past.now at }
    requires stood { HasStood past.now at oldest }
    ensures newest { IfOk result (λ newest. IsNewest past.now at oldest newest) }
    ensures refused { IfErr result (λ e. e ≡ NoMemory) }
{
    // Its contract says that each retained state came from the one before it.
    let _place = past.place();
    let guess = past.suspect(alloc, id, oldest)?;
    let mut newest = None;
    let mut low = 0;
    let mut last = oldest;
    loop {
        let middle = next_look(low, last, guess);
        if past.was_reached(alloc, id, middle)? {
            newest = Some(middle);
            if middle == low {
                return Ok(newest);
            }
            last = middle - 1;
        } else {
            if middle == last {
                return Ok(newest);
            }
            low = middle + 1;
        }
    }
}

// Returns the state to look at next, of those from `low` to `last` steps ago: the guess if it is among them, the last if that
// came after the guess, and else the middle.
fn next_look(low: u64, last: u64, guess: u64) -> u64
    requires { low ≤ last }
    ensures { (low ≤ result) × (result ≤ last) }
{
    if low <= guess && guess <= last {
        guess
    } else if guess > last && guess - last == 1 {
        last
    } else {
        low + (last - low) / 2
    }
}
