//! The dumper's calls: they leave no entry.
ghost use Rattle.std.specs.Prelude.{◌≡◌, ◌≤◌, length, IfOk, IfErr, OnErr};
ghost use Rattle.heap_trail.specs.declared.Action.TheVariants.{OpenPin, NextPiece, ClosePin};
ghost use Rattle.heap_trail.specs.declared.Reply.TheVariants.{Pinned as PinnedReply, Part, Closed, Refused};
ghost use Rattle.heap_trail.specs.Laws.{IsPieceOfLegal};
ghost use Rattle.hprof_text.specs.Laws.{piece_size_limit};
ghost use Rattle.heap_lock.specs.Calls.{IsWitnessed};
ghost use Rattle.heap_lock.specs.LockStates.{IsDumperAct};

use crate::heap::{Heap, Kept, Shared};
use crate::witness::Witness;
use heap_class::Refusal;
use heap_trail::PinAt;
use hprof_text::Piece;
use std::marker::Brand;
use std::sync::Wait;

impl<L: Heap> Kept<L> {
    /// Opens a pin on the retained state at the place `at`, or on the current state. Fails as `Machine::open_pin` does.
    pub(crate) fn open_held(&mut self, at: Option<u64>) -> Result<PinAt, Refusal>
        ensures done { IfOk result
            (λ p. IsDumperAct (OpenPin at) self.old (PinnedReply p.pin p.at) self.new) }
        ensures refused { IfErr result
            (λ e. IsDumperAct (OpenPin at) self.old (Refused e) self.new) }
        ensures unchanged { OnErr result (self.new.machine ≡ self.old.machine) }
    {
        let done = self.machine.open_pin(at);
        self.ledger
            .note::<Brand, Option<u64>, Result<PinAt, Refusal>>(&at, &done);
        done
    }

    /// Gives the next piece of a pin's dump: a piece of the dump of a legal state. Fails as `Machine::piece` does.
    pub(crate) fn piece_held(&mut self, pin: u64, time: u64) -> Result<Piece, Refusal>
        ensures done { IfOk result
            (λ p. IsDumperAct (NextPiece pin time) self.old (Part p) self.new) }
        ensures legal { IfOk result (λ p. IsPieceOfLegal L.config.ids time p) }
        ensures small { IfOk result (λ p. length p.bytes ≤ piece_size_limit) }
        ensures refused { IfErr result
            (λ e. IsDumperAct (NextPiece pin time) self.old (Refused e) self.new) }
        ensures unchanged { OnErr result (self.new.machine ≡ self.old.machine) }
    {
        let done = self.machine.piece(pin, time);
        self.ledger
            .note::<Brand, (u64, u64), Result<Piece, Refusal>>(&(pin, time), &done);
        done
    }

    /// Closes a pin. Fails as `Machine::close_pin` does. Takes no memory.
    pub(crate) fn close_held(&mut self, pin: u64) -> Result<(), Refusal>
        ensures done { IfOk result (λ u. IsDumperAct (ClosePin pin) self.old Closed self.new) }
        ensures refused { IfErr result
            (λ e. IsDumperAct (ClosePin pin) self.old (Refused e) self.new) }
        ensures unchanged { OnErr result (self.new.machine ≡ self.old.machine) }
    {
        let done = self.machine.close_pin(pin);
        self.ledger
            .note::<Brand, u64, Result<(), Refusal>>(&pin, &done);
        done
    }
}

impl<L: Heap> Shared<L> {
    /// Opens a pin as `Kept::open_held` does, under the lock. The witness has seen all calls up to this one, which is the last.
    /// May wait.
    pub fn open_pin<R: Wait>(
        &self,
        rt: &R,
        witness: &mut Witness<L>,
        at: Option<u64>,
    ) -> Result<PinAt, Refusal>
        ensures { IsWitnessed L.config witness.old (OpenPin at) (λ p. PinnedReply p.pin p.at) result
            witness.new }
    {
        let mut kept = self.lock(rt);
        kept.show(witness);
        let done = kept.open_held(at);
        kept.show(witness);
        done
    }

    /// Gives the next piece of a pin as `Kept::piece_held` does, under the lock. The witness has seen all calls up to this one,
    /// which is the last. May wait.
    pub fn next_piece<R: Wait>(
        &self,
        rt: &R,
        witness: &mut Witness<L>,
        pin: u64,
        time: u64,
    ) -> Result<Piece, Refusal>
        ensures witnessed { IsWitnessed L.config witness.old (NextPiece pin time) Part result
            witness.new }
        ensures legal { IfOk result (λ p. IsPieceOfLegal L.config.ids time p) }
        ensures small { IfOk result (λ p. length p.bytes ≤ piece_size_limit) }
    {
        let mut kept = self.lock(rt);
        kept.show(witness);
        let done = kept.piece_held(pin, time);
        kept.show(witness);
        done
    }

    /// Closes a pin as `Kept::close_held` does, under the lock. The witness has seen all calls up to this one, which is the
    /// last. May wait.
    pub fn close_pin<R: Wait>(
        &self,
        rt: &R,
        witness: &mut Witness<L>,
        pin: u64,
    ) -> Result<(), Refusal>
        ensures { IsWitnessed L.config witness.old (ClosePin pin) (λ u. Closed) result witness.new }
    {
        let mut kept = self.lock(rt);
        kept.show(witness);
        let done = kept.close_held(pin);
        kept.show(witness);
        done
    }
}
