//! Those who act on a shared heap.
ghost use Rattle.std.specs.Prelude.{◌≡◌, ◌≢◌, ◌++◌, ◌∷◌, [], true, IfOk, IfErr, OnErr};
ghost use mathlib.Core.List.{IsPrefix};
ghost use Rattle.heap_lock.specs.Action.TheVariants.{Step};
ghost use Rattle.heap_history.specs.declared.entry.Outcome.TheVariants.{Answered, Place};
ghost use Rattle.heap_lock.specs.declared.role.Role.TheVariants.{Marker, Sweeper};
ghost use Rattle.heap_lock.specs.LockStates.{AreMet, IsNoEntry, IsReceived, Stands};
ghost use Rattle.heap_lock.specs.Roles.{may};
ghost use Rattle.heap_work.specs.Rule.{IsMarkWork, IsSweepWork, MarkStops, SweepStops};
ghost use Rattle.heap_lock.specs.Verdict.TheVariants.{Fails};
ghost use Rattle.heap_runtime.specs.Actors.{end_claims, AreEntries, IsAudited, IsClaimed, IsDenied, IsActorIdle, IsToldRefusal};

use crate::copies::step_of;
use heap_class::Refusal;
use heap_lock::{
    Action, Answer, Event, Heap, Outcome, Receipt, Role, Seat, Shared, Verdict, Witness, audit,
};
use heap_work::{Gate, MarkEnd, SweepEnd, mark_worker, sweep_worker};
use std::alloc::{AllocError, Global};
use std::marker::Model;
use std::sync::Wait;

/// An action with the receipt that it was given.
pub type Claim = (Action, Receipt);

/// Why an actor doesn't get what it asks for.
#[derive(Clone, Copy, PartialEq, Eq, Debug)]
pub enum Denial {
    /// The role of its seat doesn't allow it.
    WrongRole,
    /// The heap refuses it.
    Refused(Refusal),
}

impl From<AllocError> for Denial {
    ghost use Rattle.std.specs.Prelude.{◌≡◌};
    ghost use Rattle.heap_class.specs.declared.Refusal.TheVariants.{NoMemory};
    ghost use Rattle.heap_runtime.specs.declared.actor.Denial.TheVariants.{Refused};

    ghost from_gives = { λ _ d. d ≡ Refused NoMemory };

    fn from(_e: AllocError) -> Denial {
        Denial::Refused(Refusal::NoMemory)
    }
}

impl From<Refusal> for Denial {
    ghost use Rattle.std.specs.Prelude.{◌≡◌};
    ghost use Rattle.heap_runtime.specs.declared.actor.Denial.TheVariants.{Refused};

    ghost from_gives = { λ e d. d ≡ Refused e };

    fn from(refusal: Refusal) -> Denial {
        Denial::Refused(refusal)
    }
}

/// One who acts on a shared heap: a seat, and the claims of what it did, each of an entry of the seat's share. Contracts see
/// both.
#[derive(Drop)]
pub struct Actor<'a, L: Heap, R: Wait> {
    rt: &'a R,
    alloc: Global,
    shared: &'a Shared<L>,
    seat: Seat<L>,
    claims: Vec<Claim>,
}

impl<'a, L: Heap, R: Wait> Model for Actor<'a, L, R> {
    ghost use Rattle.heap_runtime.specs.Actors.{ActorState, AreEntries};

    ghost Value = { ActorState };

    ghost view = { λ a. record { seat = a.seat; claims = a.claims.items } };

    ghost invariant = { λ a. AreEntries a.claims.items a.seat.share };
}

// Does an event that the role of the seat allows, and claims it by an action that is the same. If that has no entry, nothing has
// changed.
fn claim<L: Heap, R: Wait>(
    rt: &R,
    shared: &Shared<L>,
    seat: &mut Seat<L>,
    claims: &mut Vec<Claim>,
    action: Action,
    event: Event,
) -> Result<Receipt, Refusal>
    requires role { may seat.old.role event ≡ true }
    requires action { action ≡ Step event }
    requires own { AreEntries claims.old.items seat.old.share }
    ensures own { AreEntries claims.new.items seat.new.share }
    ensures receipt { IfOk result (λ r. IsReceived (Step event) seat.old r seat.new) }
    ensures stands { IfOk result (λ r. Stands L.config seat.new r.turn (Step event) r.answer) }
    ensures claims { IfOk result
        (λ r. claims.new.items ≡ claims.old.items ++ (Step event, r) ∷ []) }
    ensures refused { IfErr result (λ e. IsNoEntry e) }
    ensures unchanged { OnErr result
        ((seat.new ≡ seat.old) × (claims.new.items ≡ claims.old.items)) }
{
    claims.reserve(1)?;
    let receipt = shared.act(rt, seat, event)?;
    claims.push_reserved((action, receipt));
    Ok(receipt)
}

// Returns the outcome of a step as an actor is told it.
fn answer_of(outcome: Outcome) -> Result<Answer, Denial>
    requires { (place : _) → outcome ≢ Place place }
    ensures done { IfOk result (λ a. outcome ≡ Answered a) }
    ensures denied { IfErr result (λ d. IsToldRefusal outcome d) }
{
    match outcome {
        Outcome::Answered(answer) => Ok(answer),
        Outcome::Refused(refusal) => Err(Denial::Refused(refusal)),
        Outcome::Place(_) => unreachable!(),
    }
}

impl<'a, L: Heap, R: Wait> Actor<'a, L, R> {
    /// Returns the actor of a seat, without claims. Takes no memory.
    pub fn new(rt: &'a R, alloc: Global, shared: &'a Shared<L>, seat: Seat<L>) -> Actor<'a, L, R>
        ensures { result ≡ record { seat = seat; claims = [] } }
    {
        Actor {
            rt,
            alloc,
            shared,
            seat,
            claims: Vec::new(alloc),
        }
    }

    /// Returns the role of its seat.
    pub fn role(&self) -> Role
        ensures { result ≡ self.now.seat.role }
    {
        self.seat.role()
    }

    /// Returns the claims of what it did, in order.
    pub fn claims(&self) -> &[Claim]
        ensures { result.now ≡ self.now.claims }
    {
        self.claims.as_slice()
    }

    /// Does an event, keeps the claim of it, and returns the answer. Fails with WrongRole if the role of the seat doesn't allow
    /// the event, and then nothing has changed, as after NoMemory and ChronicleFull. An event that the heap refuses with
    /// anything else has an entry, and its claim is kept. May wait.
    pub fn act(&mut self, event: Event) -> Result<Answer, Denial>
        ensures done { IfOk result
            (λ a. IsClaimed L.config (Step event) self.old (Answered a) self.new) }
        ensures denied { IfErr result (λ d. IsDenied L.config event self.old d self.new) }
    {
        if !self.seat.may(&event) {
            return Err(Denial::WrongRole);
        }
        let action = step_of(self.alloc, &event)?;
        let seat = &mut self.seat;
        let receipt = match claim(self.rt, self.shared, seat, &mut self.claims, action, event) {
            Ok(receipt) => receipt,
            Err(refusal) => return Err(Denial::Refused(refusal)),
        };
        answer_of(receipt.answer)
    }

    /// Marks a cycle as `mark_worker` does, and keeps the claim of its end, if that is reached. Fails with WrongRole unless the
    /// seat is the marker's, and with NoMemory if there is none for the claim; then nothing has changed. May wait.
    pub fn mark_cycle<G: Gate>(&mut self, gate: &mut G, turns: u64) -> Result<MarkEnd, Denial>
        ensures marked { IfOk result
            (λ end. IsMarkWork L.config self.old.seat self.new.seat turns end) }
        ensures stops { IfOk result
            (λ end. MarkStops G.says self.old.seat self.new.seat gate.new end) }
        ensures claims { IfOk result (λ end. self.new.claims ≡ self.old.claims ++ end_claims end) }
        ensures denied { IfErr result (λ d. IsActorIdle Marker self.old d self.new) }
    {
        if self.seat.role() != Role::Marker {
            return Err(Denial::WrongRole);
        }
        self.claims.reserve(1)?;
        let end = mark_worker(self.shared, self.rt, &mut self.seat, gate, turns);
        if let MarkEnd::Finished(receipt) = end {
            self.claims
                .push_reserved((Action::Step(Event::Finish), receipt));
        }
        Ok(end)
    }

    /// Sweeps each region once as `sweep_worker` does, and keeps no claims. Fails with WrongRole unless the seat is the
    /// sweeper's, and then nothing has changed. May wait.
    pub fn sweep_regions<G: Gate>(&mut self, gate: &mut G, turns: u64) -> Result<SweepEnd, Denial>
        ensures swept { IfOk result
            (λ end. IsSweepWork L.config self.old.seat self.new.seat turns end) }
        ensures stops { IfOk result
            (λ end. SweepStops G.says self.old.seat self.new.seat gate.new end) }
        ensures claims { self.new.claims ≡ self.old.claims }
        ensures denied { IfErr result (λ d. IsActorIdle Sweeper self.old d self.new) }
    {
        if self.seat.role() != Role::Sweeper {
            return Err(Denial::WrongRole);
        }
        let end = sweep_worker(self.shared, self.rt, &mut self.seat, gate, turns);
        Ok(end)
    }

    /// Shows a witness all calls so far under the lock, as `Shared::meet` does: those of this actor are among them. Takes no
    /// memory. May wait.
    pub fn meet(&mut self, witness: &mut Witness<L>)
        ensures begins { IsPrefix witness.old witness.new }
        ensures met { AreMet L.config self.old.seat witness.new }
        ensures same { self.new ≡ self.old }
    {
        self.shared.meet(self.rt, &mut self.seat, witness);
    }

    /// Returns whether all claims stand in the history of the heap, under the lock: Holds, or Dropped exactly if the entry of a
    /// claim was dropped or isn't kept whole. The witness has seen all calls then. Takes no memory. May wait.
    pub fn audit(&mut self, witness: &mut Witness<L>) -> Verdict
        ensures audited { IsAudited L.config L.rolls self.old.seat witness.old self.old.claims
            result witness.new }
        ensures stands { result ≢ Fails }
        ensures same { self.new ≡ self.old }
    {
        let mut kept = self.shared.lock(self.rt);
        kept.agree(&mut self.seat);
        kept.show(witness);
        // Its contract says that the chronicle is a legal history.
        let _ = kept.chronicle();
        audit(&*kept, self.claims.as_slice())
    }
}
