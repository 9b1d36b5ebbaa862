//! What a dumper saw of a shared heap's calls.
ghost use Rattle.std.specs.Prelude.{◌≡◌};
ghost use mathlib.Core.List.{IsPrefix};
ghost use Rattle.heap_lock.specs.Calls.{IsHeapLedger, IsLegalLedger};
ghost use Rattle.heap_lock.specs.Ledgers.{calls_in, AreSeenCalls};
ghost use Rattle.heap_lock.specs.LockStates.{AreMet, AreAllCalls};

use crate::heap::{Heap, Kept, Seat, Shared};
use crate::ledger_side::LedgerSide;
use atomic_table::Badge;
use std::marker::{Model, PhantomData};
use std::mem::replace;
use std::sync::Wait;

/// One who saw the first calls on a shared heap, whoever made them. Contracts see these calls, in order, dumps among them; they
/// may be all calls of a heap. It takes no memory.
#[derive(Drop)]
pub struct Witness<L: Heap> {
    seen: Badge<LedgerSide>,
    heap: PhantomData<L>,
}

impl<L: Heap> Model for Witness<L> {
    ghost use Rattle.std.specs.Prelude.{List};
    ghost use Rattle.heap_lock.specs.Calls.{Call, IsLegalLedger};
    ghost use Rattle.heap_lock.specs.Ledgers.{calls_in, AreSeenCalls};

    ghost Value = { List Call };

    ghost view = { λ w. calls_in w.seen.views };

    ghost invariant = { λ w. AreSeenCalls L.ledger (calls_in w.seen.views) w.seen
        × IsLegalLedger L.config (calls_in w.seen.views) };
}

impl<L: Heap> Witness<L> {
    /// Does nothing. Its contract says that what was seen may be all calls of a heap.
    pub fn legal(&self)
        ensures { IsLegalLedger L.config self.now }
    {
        let _ = &self.seen;
    }
}

impl<L: Heap> Kept<L> {
    /// Returns a witness of all calls so far. Takes no memory.
    pub fn witness(&mut self) -> Witness<L>
        ensures witness { result ≡ self.old.ledger }
        ensures legal { IsLegalLedger L.config self.old.ledger }
        ensures same { self.new ≡ self.old }
    {
        Witness {
            seen: self.ledger.seen(),
            heap: PhantomData,
        }
    }

    /// Shows a witness all calls so far, of which it saw a beginning. Takes no memory.
    pub fn show(&mut self, witness: &mut Witness<L>)
        ensures witness { witness.new ≡ self.old.ledger }
        ensures begins { IsPrefix witness.old self.old.ledger }
        ensures legal { IsLegalLedger L.config self.old.ledger }
        ensures heap { IsHeapLedger L.config self.old.machine self.old.chronicle self.old.ledger }
        ensures same { self.new ≡ self.old }
    {
        let seen = replace(&mut witness.seen, Badge::blank());
        witness.seen = self.ledger.show(seen);
    }

    /// Shows a witness all calls so far, and compares them with a seat: the acts among them are a history that has of the seat
    /// just its share. Changes nothing but the witness. Takes no memory.
    pub fn meet(&mut self, seat: &mut Seat<L>, witness: &mut Witness<L>)
        ensures known { AreAllCalls L.config self.old.machine seat.old self.old.ledger }
        ensures witness { witness.new ≡ self.old.ledger }
        ensures begins { IsPrefix witness.old self.old.ledger }
        ensures same { (self.new ≡ self.old) × (seat.new ≡ seat.old) }
    {
        self.agree(seat);
        self.show(witness);
    }
}

impl<L: Heap> Shared<L> {
    /// Returns a witness of all calls so far, under the lock. Takes no memory. May wait.
    pub fn witness<R: Wait>(&self, rt: &R) -> Witness<L>
        ensures { IsLegalLedger L.config result }
    {
        self.lock(rt).witness()
    }

    /// Shows a witness all calls so far as `Kept::meet` does, under the lock. So whatever it sees then has all that the seat
    /// did. Takes no memory. May wait.
    pub fn meet<R: Wait>(&self, rt: &R, seat: &mut Seat<L>, witness: &mut Witness<L>)
        ensures begins { IsPrefix witness.old witness.new }
        ensures met { AreMet L.config seat.old witness.new }
        ensures seat { seat.new ≡ seat.old }
    {
        self.lock(rt).meet(seat, witness);
    }
}
