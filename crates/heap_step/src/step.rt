//! Applying events and undoing them.
ghost use Rattle.std.specs.Prelude.{◌≡◌, ◌⊎◌, None, Ok, Err, true, IfOk, IfErr, OnOk, OnErr};
ghost use Rattle.heap_class.specs.Refusals.{IsAnswered};
ghost use Rattle.heap_class.specs.declared.Refusal.TheVariants.{NoMemory};
ghost use Rattle.heap_world.specs.State.{HeapState};
ghost use Rattle.heap_world.specs.Legal.{IsLegal};
ghost use Rattle.heap_step.specs.declared.Event.{Event};
ghost use Rattle.heap_step.specs.Apply.{refusal_of, state_after, applied, event_may_grow};
ghost use Rattle.heap_step.specs.Records.{undo_record, weight};
ghost use Rattle.heap_step.specs.Laws.{IsApplied, IsLight, IsStep, StaysFound};

use crate::events::AnyEvent;
use crate::sorts::ApplyEvent;
use crate::{Effect, Event, Undo};
use heap_world::World;

/// Applies an event, and returns its answer and the record that undoes it. Fails as the event's own call does, and changes
/// nothing then. Fails with NoMemory only if the event may grow and nothing else refuses it. While a cycle runs, marked and
/// sheltered objects stay marked or sheltered.
#[inline(always)]
pub fn apply(world: &mut World, event: &Event) -> Effect
    ensures answered { IsAnswered (refusal_of event.now world.old)
        (event_may_grow event.now world.old) result }
    ensures state { IfOk result (λ p. world.new ≡ state_after event.now world.old) }
    ensures done { IfOk result (λ p. applied event.now world.old ≡ Ok (world.new, p.0)) }
    ensures recorded { IfOk result (λ p. p.1 ≡ undo_record event.now world.old) }
    ensures refused { IfErr result
        (λ e. (applied event.now world.old ≡ Err e)
        ⊎ ((refusal_of event.now world.old ≡ None)
        × (event_may_grow event.now world.old ≡ true)
        × (e ≡ NoMemory))) }
    ensures unchanged { OnErr result (world.new ≡ world.old) }
    ensures legal { IsLegal world.new }
    ensures found { OnOk result (StaysFound world.old world.new) }
{
    // Its contract says that the heap is legal.
    let _phase = world.phase();
    AnyEvent(event).apply_to(world)
}

/// Applies an event whose sort its type tells, as `apply` does: marked and sheltered objects stay marked or sheltered.
#[inline(always)]
pub fn apply_sort<E: ApplyEvent>(world: &mut World, event: &E) -> Effect
    ensures legal { IsLegal world.new }
    ensures effect { IsApplied (E.event event.now) world.old world.new result }
    ensures done { IfOk result
        (λ p. applied (E.event event.now) world.old ≡ Ok (world.new, p.0)) }
    ensures refused { IfErr result
        (λ e. (applied (E.event event.now) world.old ≡ Err e)
        ⊎ ((refusal_of (E.event event.now) world.old ≡ None)
        × (event_may_grow (E.event event.now) world.old ≡ true)
        × (e ≡ NoMemory))) }
    ensures found { OnOk result (StaysFound world.old world.new) }
{
    // Its contract says that the heap is legal.
    let _phase = world.phase();
    event.apply_to(world)
}

/// Undoes the step that left this record and this state. There must be such a step. Takes no memory.
#[tactic(auto, using(crate::proofs::Steps::undone_steps))]
pub fn undo(world: &mut World, left: Undo)
    requires { (e : Event) × (before : HeapState) × IsStep e before world.old left }
    ensures { (e : Event) (before : HeapState) → IsStep e before world.old left
        → world.new ≡ before }
{
    match left {
        Undo::Put { at, slot, old } => world.unput(at, slot as u64, old),
        Undo::Store {
            at,
            slot,
            old,
            logged,
        } => world.unstore(at, slot as u64, old, logged),
        Undo::Reg { m, r, old } => world.restore_register(m as u64, r as u64, old),
        Undo::New {
            at,
            fresh,
            m,
            r,
            old,
        } => world.unmake(at, fresh, m as u64, r as u64, old),
        Undo::Class => world.undefine_class(),
        Undo::Snap => world.unsnap(),
        Undo::Mark { parent, pushed } => world.unmark(parent, pushed),
        Undo::Drain { pushed } => world.undrain(pushed),
        Undo::Finish { log } => world.unfinish(log),
        Undo::Sweep { region, dead } => world.unsweep(region, dead),
        Undo::Reclaim { region, storage } => world.unreclaim(region, storage),
    }
}

/// Returns the weight of a record, the entries and words that it keeps besides its fixed fields: at most 2,048, or for a
/// Finish the number of entries of the log, and for a Reclaim the words and the cells of its regions.
#[tactic(auto, unfolding(crate::specs::Records::weight))]
pub fn weight(left: &Undo) -> u64
    ensures value { result ≡ weight left.now }
    ensures light { IsLight left.now result }
{
    match left {
        Undo::Put { .. } | Undo::Store { .. } => 1,
        Undo::Reg { .. } | Undo::New { .. } | Undo::Class => 0,
        Undo::Snap | Undo::Mark { .. } | Undo::Drain { .. } => 0,
        Undo::Finish { log } => log.len(),
        Undo::Sweep { dead, .. } => dead.weight(),
        Undo::Reclaim { storage, .. } => storage.view().word_count() + storage.view().cells(),
    }
}
