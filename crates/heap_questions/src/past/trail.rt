//! The trail up to a retained state.
ghost use Rattle.std.specs.Prelude.{◌≡◌, ◌↔◌, ◌<◌, ◌≤◌, MatchOption, IsSome, IfSome, IsTrue, IfOk, IfErr, None, Some, is_some, slice_get};
ghost use Rattle.heap_class.specs.declared.Refusal.TheVariants.{NoMemory};
ghost use Rattle.heap_region.specs.Regions.{object_at, object_of, ref_of};
ghost use Rattle.heap_trail.specs.Trail.{retained, rewound, state_ago};
ghost use Rattle.heap_world.specs.Reach.{Reaches};
ghost use Rattle.heap_questions.specs.PastTrails.{IsPast, seen_slot};

use crate::past::seen::{SeenSlot, kind_of, past_pin, slot_of};
use crate::past::standing::{cell_with, stood_ago};
use crate::past::suspects::suspect;
use crate::paths::shortest_path;
use heap_class::{ObjKind, ObjRef, Refusal};
use heap_step::Undo;
use heap_trail::Machine;
use std::alloc::Global;
use std::marker::Model;

/// The retained steps that led to a retained state. Contracts see the trail that a rewind to that state would leave.
#[derive(Drop)]
pub struct PastTrail<'a> {
    machine: &'a Machine,
    ago: u64,
}

impl<'a> Model for PastTrail<'a> {
    ghost use Rattle.std.specs.Prelude.{◌≤◌};
    ghost use Rattle.heap_trail.specs.Trail.{Trail, retained, rewound};

    ghost Value = { Trail };

    ghost view = { λ p. rewound p.ago p.machine.now.trail };

    ghost invariant = { λ p. p.ago ≤ retained p.machine.now.trail };
}

impl<'a> PastTrail<'a> {
    /// Returns the trail up to the state of `ago` steps ago, which must be retained.
    pub fn new(machine: &'a Machine, ago: u64) -> PastTrail<'a>
        requires { ago ≤ retained machine.now.trail }
        ensures { result ≡ rewound ago machine.now.trail }
    {
        PastTrail { machine, ago }
    }

    /// Returns the number of steps that led to the state.
    pub fn place(&self) -> u64
        ensures value { result ≡ self.now.place }
        ensures trail { IsPast self.now }
    {
        self.machine.place() - self.ago
    }

    /// Returns the number of retained steps that led to the state.
    pub fn retained_count(&self) -> u64
        ensures { result ≡ retained self.now }
    {
        self.machine.retained_count() - self.ago
    }

    // Returns the record of the step that led from the state `n + 1` steps before this one to that `n` steps before it.
    pub(crate) fn record_ago(&self, n: u64) -> &Undo
        requires { n < retained self.now }
        ensures { slice_get self.now.records n ≡ Some result.now }
    {
        // The number of retained steps fits a u64.
        let _count = self.machine.retained_count();
        self.machine.record_ago(self.ago + n)
    }

    /// Tells whether an object stood at a place in the state, dead or not. Reads each record of the steps since once. Takes no
    /// memory.
    pub fn has_object(&self, at: ObjRef) -> bool
        ensures { result ≡ is_some (object_at self.now.current.regions at) }
    {
        stood_ago(self.machine, self.ago, at)
    }

    /// Returns the place of the object that an id named in the state, dead or not, or None if it named none. Reads each record of
    /// the steps since twice. Takes no memory.
    pub fn find(&self, id: u64) -> Option<ObjRef>
        ensures { MatchOption result (object_of self.now.current.regions id ≡ None)
            (λ at. (ref_of self.now.current.regions id ≡ Some at)
            × IsSome (object_at self.now.current.regions at)) }
    {
        let at = cell_with(self.machine, self.ago, id)?;
        if self.has_object(at) { Some(at) } else { None }
    }

    /// Returns what a slot of the object at `at` held in the state, or None if the object has no such slot. Fails with NoMemory if
    /// an allocation fails. Reads each record of the steps since once.
    pub fn slot(&self, alloc: Global, at: ObjRef, slot: u64) -> Result<Option<SeenSlot>, Refusal>
        requires { IsSome (object_at self.now.current.regions at) }
        ensures seen { IfOk result (λ seen. seen ≡ seen_slot self.now.current at slot) }
        ensures refused { IfErr result (λ e. e ≡ NoMemory) }
    {
        // Its contract says that the retained states are legal.
        let _place = self.machine.place();
        let pin = past_pin(alloc, self.machine, self.ago)?;
        Ok(slot_of(&pin, self.machine.world(), at, slot))
    }

    // Returns the kind of the object at `at` in the state. Fails with NoMemory.
    pub(crate) fn kind(&self, alloc: Global, at: ObjRef) -> Result<ObjKind, Refusal>
        requires { IsSome (object_at self.now.current.regions at) }
        ensures kind { IfOk result (λ kind.
            IfSome (object_at self.now.current.regions at) (λ o. kind ≡ o.kind)) }
        ensures refused { IfErr result (λ e. e ≡ NoMemory) }
    {
        // Its contract says that the retained states are legal.
        let _place = self.machine.place();
        let shown = past_pin(alloc, self.machine, self.ago)?;
        Ok(kind_of(&shown, self.machine.world(), at))
    }

    // Tells whether a register reached the object with this id in the state `n` steps before this one. Fails with NoMemory.
    pub(crate) fn was_reached(&self, alloc: Global, id: u64, n: u64) -> Result<bool, Refusal>
        requires { n ≤ retained self.now }
        ensures told { IfOk result (λ b. IsTrue b ↔ Reaches (state_ago n self.now) id) }
        ensures refused { IfErr result (λ e. e ≡ NoMemory) }
    {
        // Its contract says that the retained states are legal.
        let _place = self.machine.place();
        let _count = self.machine.retained_count();
        let pin = self.machine.pin_ago(self.ago + n)?;
        let path = shortest_path(alloc, &self.machine.view(&pin), id)?;
        Ok(path.is_some())
    }

    // Returns how many steps before this state the newest state may have been in which a register reached the object with this id,
    // at most `oldest`: a guess, made for the current state alone. Fails with NoMemory.
    pub(crate) fn suspect(&self, alloc: Global, id: u64, oldest: u64) -> Result<u64, Refusal>
        requires { oldest ≤ retained self.now }
        ensures within { IfOk result (λ n. n ≤ oldest) }
        ensures refused { IfErr result (λ e. e ≡ NoMemory) }
    {
        if self.ago > 0 {
            return Ok(0);
        }
        suspect(alloc, self.machine, id, oldest)
    }
}
