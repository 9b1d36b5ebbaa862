//! The objects that had an id in the retained states: a walk over the records, the newest first, that follows the cell that the id
//! names.
ghost use Rattle.std.specs.Prelude.{◌≡◌, ◌≤◌, ◌+◌, ◌-◌, ◌/◌, ◌++◌, [], reverse, true, IfOk, IfErr, OnOk};
ghost use Rattle.heap_class.specs.declared.Refusal.TheVariants.{NoMemory};
ghost use Rattle.heap_region.specs.Limits.{region_words};
ghost use Rattle.heap_region.specs.Regions.{object_base};
ghost use Rattle.heap_trail.specs.Trail.{retained};
ghost use Rattle.heap_questions.specs.Lives.{AreLives, HasId, IsLifeIf, before_lives, born_ago, stands_in, stood_in, swept_ago};

use crate::past::losses::{Loss, loss_of};
use crate::past::standing::{cell_by, size_at, size_before, stood_before};
use crate::past::trail::PastTrail;
use heap_class::{ObjKind, ObjRef, Refusal};
use heap_region::{OBJECT_BASE, REGION_WORDS};
use heap_step::Undo;
use heap_trail::Machine;
use heap_world::World;
use std::alloc::Global;

/// What the retained steps did to an object: its kind, the place of the step that made it, or None if none of them did, when
/// registers lost it, and the place of the step that removed it, or None if it is still there.
#[derive(Clone, Copy)]
pub struct Life {
    pub kind: ObjKind,
    pub born: Option<u64>,
    pub lost: Loss,
    pub swept: Option<u64>,
}

/// Returns what the retained steps did to each object, dead or not, that had an id in one of the retained states, the oldest first.
/// Fails with NoMemory if an allocation fails. Reads each record once, and for each object those since its last state several
/// times, and searches the heap as `loss_of` does.
pub fn lives_of(alloc: Global, machine: &Machine, id: u64) -> Result<Vec<Life>, Refusal>
    ensures lives { IfOk result
        (λ lives. AreLives machine.now.trail id (retained machine.now.trail + 1) lives.items) }
    ensures refused { IfErr result (λ e. e ≡ NoMemory) }
{
    // Its contract says that each retained state came from the one before it.
    let _place = machine.place();
    let region = id.saturating_sub(OBJECT_BASE) / 8 / REGION_WORDS;
    if region >= machine.world().regions().count() {
        return Ok(Vec::new(alloc));
    }
    let mut lives = newest_lives(alloc, machine, id, region as u16)?;
    lives.reverse();
    Ok(lives)
}

// Returns the same of an id that has a word of this region, the newest first. Fails with NoMemory.
fn newest_lives(
    alloc: Global,
    machine: &Machine,
    id: u64,
    region: u16,
) -> Result<Vec<Life>, Refusal>
    requires { region ≡ (id - object_base) / 8 / region_words }
    ensures lives { IfOk result (λ lives.
        AreLives machine.now.trail id (retained machine.now.trail + 1) (reverse lives.items)) }
    ensures refused { IfErr result (λ e. e ≡ NoMemory) }
{
    // Its contract says that each retained state came from the one before it.
    let _place = machine.place();
    let mut size = size_at(machine.world(), region as u64);
    let mut stood = stands_in(machine.world(), cell_by(size, region, id));
    let mut newest = 0;
    let mut lives = Vec::new(alloc);
    for n in 0..machine.retained_count() {
        let record = machine.record_ago(n);
        size = size_before(record, region as u64, size);
        let was = stood_in(record, cell_by(size, region, id), stood);
        push_life(
            &mut lives,
            life_if(alloc, machine, id, stood && !was, newest, n)?,
        )?;
        newest = if stood { newest } else { n + 1 };
        stood = was;
    }
    let oldest = machine.retained_count();
    push_life(
        &mut lives,
        life_if(alloc, machine, id, stood, newest, oldest)?,
    )?;
    Ok(lives)
}

// Tells whether an object stands in a cell, if there is one.
fn stands_in(world: &World, cell: Option<ObjRef>) -> bool
    ensures { result ≡ stands_in world.now cell }
{
    match cell {
        Some(at) => world.regions().has_object(at),
        None => false,
    }
}

// Tells whether an object stood in a cell, if there is one, before the step with this record. `now` says whether one with the same
// id stands after it.
fn stood_in(left: &Undo, cell: Option<ObjRef>, now: bool) -> bool
    ensures { result ≡ stood_in left.now cell now }
{
    match cell {
        Some(at) => stood_before(left, at, now),
        None => false,
    }
}

// Adds a life, if there is one. Fails with NoMemory.
fn push_life(lives: &mut Vec<Life>, life: Option<Life>) -> Result<(), Refusal>
    ensures added { OnOk result (lives.new.items ≡ lives.old.items ++ before_lives life []) }
    ensures refused { IfErr result (λ e. e ≡ NoMemory) }
{
    if let Some(life) = life {
        lives.push(life)?;
    }
    Ok(())
}

// Returns what is told of the object that has the id since the state of `oldest` steps ago, and last in that of `newest` steps ago,
// if it is asked for. Fails with NoMemory.
fn life_if(
    alloc: Global,
    machine: &Machine,
    id: u64,
    asked: bool,
    newest: u64,
    oldest: u64,
) -> Result<Option<Life>, Refusal>
    requires within { (oldest ≤ retained machine.now.trail) × (asked ≡ true → newest ≤ oldest) }
    requires there { asked ≡ true → HasId machine.now.trail id newest }
    ensures life { IfOk result
        (λ life. IsLifeIf machine.now.trail id oldest newest asked life) }
    ensures refused { IfErr result (λ e. e ≡ NoMemory) }
{
    if !asked {
        return Ok(None);
    }
    let past = PastTrail::new(machine, newest);
    let Some(at) = past.find(id) else {
        return Ok(None);
    };
    let kind = past.kind(alloc, at)?;
    let lost = loss_of(alloc, &past, at, id)?;
    Ok(Some(Life {
        kind,
        born: born_ago(machine, oldest),
        lost,
        swept: swept_ago(machine, newest),
    }))
}

// Returns the place of the step to the state of `ago` steps ago, or None if the step isn't retained.
fn born_ago(machine: &Machine, ago: u64) -> Option<u64>
    requires { ago ≤ retained machine.now.trail }
    ensures { result ≡ born_ago machine.now.trail ago }
{
    if ago < machine.retained_count() {
        Some(machine.place() - ago)
    } else {
        None
    }
}

// Returns the place of the step from the state of `ago` steps ago, or None if it is the current one.
fn swept_ago(machine: &Machine, ago: u64) -> Option<u64>
    requires { ago ≤ retained machine.now.trail }
    ensures { result ≡ swept_ago machine.now.trail ago }
{
    if ago == 0 {
        None
    } else {
        Some(machine.place() - (ago - 1))
    }
}
