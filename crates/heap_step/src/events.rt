//! The effect of each event on the heap, with its answer and its record.
#![tactic(auto, using(crate::proofs::AppliedResults::refused_event_is_applied), unfolding(crate::specs::Apply::refusal_of, crate::specs::Apply::event_may_grow))]

ghost use Rattle.std.specs.Prelude.{◌≡◌, ℕ, List, if◌then◌else◌};
ghost use Rattle.heap_region.specs.Regions.{Object, UsedRegion};
ghost use Rattle.heap_sweep.specs.declared.Reclaimed.TheVariants.{Swept, Emptied};
ghost use Rattle.heap_world.specs.Legal.{IsLegal};
ghost use Rattle.heap_step.specs.declared.Event.{Event};
ghost use Rattle.heap_step.specs.declared.Answer.{Answer};
ghost use Rattle.heap_step.specs.declared.Answer.TheVariants.{Value};
ghost use Rattle.heap_step.specs.declared.Undo.{Undo};
ghost use Rattle.heap_step.specs.Apply.{object_or_null};
ghost use Rattle.heap_step.specs.Laws.{IsApplied};

use crate::sorts::ApplyEvent;
use crate::{Answer, Effect, Event, Undo};
use heap_class::{ClassNo, Fields, Kind, Name, NewClass};
use heap_sweep::Reclaimed;
use heap_world::{Created, Loaded, World};

/// An event of any sort, which is lent.
#[derive(Clone, Copy)]
pub struct AnyEvent<'a>(pub &'a Event);

impl<'a> ApplyEvent for AnyEvent<'a> {
    ghost event = { λ e. e.0.now };

    // Some events are inlined, without a call that is given the place of the result, which then stays in registers.
    #[inline(always)]
    #[tactic(auto, using(crate::proofs::AppliedResults::as_event))]
    fn apply_to(&self, world: &mut World) -> Effect {
        match *self.0 {
            Event::Load { m, to, from, slot } => load(world, m, to, from, slot),
            Event::Put {
                m,
                target,
                slot,
                value,
            } => put(world, m, target, slot, value),
            Event::Move {
                m,
                to,
                from_m,
                from,
            } => copy(world, m, to, from_m, from),
            Event::Clear { m, r } => clear(world, m, r),
            _ => Ok(apply_any(world, self.0)?),
        }
    }
}

// Applies an event of any sort.
#[inline(never)]
#[tactic(auto, using(crate::proofs::AppliedResults::as_event))]
fn apply_any(world: &mut World, event: &Event) -> Effect
    requires { IsLegal world.old }
    ensures { IsApplied event.now world.old world.new result }
{
    match event {
        Event::Class { name, sup, fields } => define(world, name, *sup, fields),
        Event::ArrayClass { name } => define_array(world, name),
        Event::New { m, r, class } => create(world, *m, *r, *class),
        Event::NewArray { m, r, class, len } => create_array(world, *m, *r, *class, *len),
        Event::NewPrim { m, r, kind, len } => create_prim(world, *m, *r, *kind, *len),
        Event::Load { m, to, from, slot } => load(world, *m, *to, *from, *slot),
        Event::Store {
            m,
            target,
            slot,
            source,
        } => store(world, *m, *target, *slot, *source),
        Event::Put {
            m,
            target,
            slot,
            value,
        } => put(world, *m, *target, *slot, *value),
        Event::Move {
            m,
            to,
            from_m,
            from,
        } => copy(world, *m, *to, *from_m, *from),
        Event::Clear { m, r } => clear(world, *m, *r),
        Event::Snap => snap(world),
        Event::Mark => mark(world),
        Event::Drain => drain(world),
        Event::Finish => finish(world),
        Event::Sweep { region } => sweep(world, *region),
    }
}

// Applies an event that defines an instance class.
fn define(world: &mut World, name: &Name, sup: Option<ClassNo>, fields: &Fields) -> Effect
    ensures { IsApplied (Event.Class name.now sup fields.now) world.old world.new result }
{
    let class = world.define_class(NewClass { name, sup, fields })?;
    Ok((Answer::Class(class), Undo::Class))
}

// Applies an event that defines a class of object arrays.
fn define_array(world: &mut World, name: &Name) -> Effect
    ensures { IsApplied (Event.ArrayClass name.now) world.old world.new result }
{
    let class = world.define_array_class(name)?;
    Ok((Answer::Class(class), Undo::Class))
}

// Applies an event that makes an object array.
fn create_array(world: &mut World, m: u64, r: u64, class: ClassNo, len: u64) -> Effect
    requires { IsLegal world.old }
    ensures { IsApplied (Event.NewArray m r class len) world.old world.new result }
{
    let created = world.new_array(m, r, class, len)?;
    Ok(record_new(m as u8, r as u8, created))
}

// Returns the answer and the record of a new object in register `r` of mutator `m`.
fn record_new(m: u8, r: u8, created: Created) -> (Answer, Undo)
    ensures answer { result.0 ≡ Answer.Object created.id }
    ensures record { result.1 ≡ Undo.New created.at created.fresh m r created.old }
{
    let record = Undo::New {
        at: created.at,
        fresh: created.fresh,
        m,
        r,
        old: created.old,
    };
    (Answer::Object(created.id), record)
}

// Applies an event that makes an array of values.
fn create_prim(world: &mut World, m: u64, r: u64, kind: Kind, len: u64) -> Effect
    requires { IsLegal world.old }
    ensures { IsApplied (Event.NewPrim m r kind len) world.old world.new result }
{
    let created = world.new_prim(m, r, kind, len)?;
    Ok(record_new(m as u8, r as u8, created))
}

// Applies an event that begins a marking cycle.
fn snap(world: &mut World) -> Effect
    ensures { IsApplied Event.Snap world.old world.new result }
{
    let pushed = world.snap()?;
    Ok((Answer::Pushed(pushed), Undo::Snap))
}

// Applies an event that marks the object that the next entry of the log names.
fn drain(world: &mut World) -> Effect
    ensures { IsApplied Event.Drain world.old world.new result }
{
    let pushed = world.drain()?;
    Ok((Answer::Pushed(pushed), Undo::Drain { pushed }))
}

// Applies an event that ends a marking cycle.
fn finish(world: &mut World) -> Effect
    ensures { IsApplied Event.Finish world.old world.new result }
{
    let finished = world.finish()?;
    let record = Undo::Finish { log: finished.log };
    Ok((Answer::Condemned(finished.condemned), record))
}

// Applies an event that removes the objects of a region that aren't live.
fn sweep(world: &mut World, region: u64) -> Effect
    ensures { IsApplied (Event.Sweep region) world.old world.new result }
{
    let reclaimed = world.sweep(region)?;
    let answer = Answer::Swept {
        dead: reclaimed.dead(),
        emptied: reclaimed.is_emptied(),
    };
    Ok((answer, sweep_record(reclaimed)))
}

// Returns the record of a sweep with this outcome.
fn sweep_record(reclaimed: Reclaimed) -> Undo
    ensures swept { (region : ℕ) (dead : List (ℕ × Object)) → reclaimed ≡ Swept region dead
        → result ≡ Undo.Sweep region dead }
    ensures emptied { (region : ℕ) (storage : UsedRegion) (dead : ℕ)
        → reclaimed ≡ Emptied region storage dead → result ≡ Undo.Reclaim region storage }
{
    match reclaimed {
        Reclaimed::Swept { region, dead } => Undo::Sweep { region, dead },
        Reclaimed::Emptied {
            region,
            storage,
            ..
        } => Undo::Reclaim { region, storage },
    }
}

// Applies an event that makes an instance of a class.
#[inline(always)]
pub(crate) fn create(world: &mut World, m: u64, r: u64, class: ClassNo) -> Effect
    requires { IsLegal world.old }
    ensures { IsApplied (Event.New m r class) world.old world.new result }
{
    let created = world.new_instance(m, r, class)?;
    Ok(record_new(m as u8, r as u8, created))
}

// Applies an event that reads a slot.
#[inline(always)]
pub(crate) fn load(world: &mut World, m: u64, to: u64, from: u64, slot: u64) -> Effect
    requires { IsLegal world.old }
    ensures { IsApplied (Event.Load m to from slot) world.old world.new result }
{
    let loaded = world.load(m, to, from, slot)?;
    Ok((
        slot_answer(loaded),
        reg_record(m as u8, to as u8, loaded.old),
    ))
}

// Returns the answer of a load: the object for a reference, or the value.
#[inline(always)]
#[tactic(auto, unfolding(crate::specs::Apply::object_or_null))]
fn slot_answer(loaded: Loaded) -> Answer
    ensures { result
        ≡ (if loaded.reference then object_or_null loaded.word else Value loaded.word) }
{
    if !loaded.reference {
        return Answer::Value(loaded.word);
    }
    if loaded.word == 0 {
        return Answer::Null;
    }
    Answer::Object(loaded.word)
}

// Returns the record of register `r` of mutator `m`, with its old word.
#[inline(always)]
fn reg_record(m: u8, r: u8, old: u64) -> Undo
    ensures { result ≡ Undo.Reg m r old }
{
    Undo::Reg { m, r, old }
}

// Applies an event that writes a reference slot.
#[inline(always)]
pub(crate) fn store(world: &mut World, m: u64, target: u64, slot: u64, source: u64) -> Effect
    ensures { IsApplied (Event.Store m target slot source) world.old world.new result }
{
    let replaced = world.store(m, target, slot, source)?;
    let record = Undo::Store {
        at: replaced.at,
        slot: slot as u32,
        old: replaced.old,
        logged: replaced.logged,
    };
    Ok((Answer::Done, record))
}

// Applies an event that writes a value slot.
#[inline(always)]
pub(crate) fn put(world: &mut World, m: u64, target: u64, slot: u64, value: u64) -> Effect
    ensures { IsApplied (Event.Put m target slot value) world.old world.new result }
{
    let overwritten = world.put(m, target, slot, value)?;
    let (at, slot, old) = (overwritten.at, slot as u32, overwritten.old);
    Ok((Answer::Done, Undo::Put { at, slot, old }))
}

// Applies an event that copies a register.
#[inline(always)]
pub(crate) fn copy(world: &mut World, m: u64, to: u64, from_m: u64, from: u64) -> Effect
    requires { IsLegal world.old }
    ensures { IsApplied (Event.Move m to from_m from) world.old world.new result }
{
    let held = world.move_register(m, to, from_m, from)?;
    Ok((Answer::Done, reg_record(m as u8, to as u8, held)))
}

// Applies an event that makes a register null.
#[inline(always)]
pub(crate) fn clear(world: &mut World, m: u64, r: u64) -> Effect
    requires { IsLegal world.old }
    ensures { IsApplied (Event.Clear m r) world.old world.new result }
{
    let held = world.clear_register(m, r)?;
    Ok((Answer::Done, reg_record(m as u8, r as u8, held)))
}

// Applies an event that marks the children of the newest gray object.
#[inline(always)]
pub(crate) fn mark(world: &mut World) -> Effect
    ensures { IsApplied Event.Mark world.old world.new result }
{
    let marked = world.mark()?;
    let record = Undo::Mark {
        parent: marked.parent,
        pushed: marked.pushed,
    };
    Ok((Answer::Pushed(marked.pushed), record))
}
