//! What a worker sees of the collector, without an entry.
ghost use Rattle.std.specs.Prelude.{◌≡◌};
ghost use Rattle.heap_lock.specs.Collector.{SeesState, pending_in};

use crate::heap::{Heap, Kept, Shared};
use crate::witness::Witness;
use heap_mark::{Phase, first_pending};
use std::sync::Wait;

impl<L: Heap> Kept<L> {
    /// Returns the phase of the collector: whether a cycle runs. Takes no memory.
    pub fn phase(&self) -> Phase
        ensures { result ≡ self.now.machine.trail.current.phase }
    {
        self.machine.world().phase()
    }

    /// Returns the lowest region that waits to be swept, or None if none does. Takes no memory.
    pub fn pending(&self) -> Option<u64>
        ensures { result ≡ pending_in self.now.machine.trail.current }
    {
        first_pending(self.machine.world().regions())
    }
}

impl<L: Heap> Shared<L> {
    /// Returns the phase of the collector under the lock, without an entry: that of the state which all calls leave that the
    /// witness has seen then. Takes no memory. May wait.
    pub fn phase<R: Wait>(&self, rt: &R, witness: &mut Witness<L>) -> Phase
        ensures { SeesState L.config witness.old (λ w. result ≡ w.phase) witness.new }
    {
        let mut kept = self.lock(rt);
        kept.show(witness);
        kept.phase()
    }

    /// Returns the lowest region that waits to be swept, or None, under the lock, without an entry: that of the state which all
    /// calls leave that the witness has seen then. Takes no memory. May wait.
    pub fn pending<R: Wait>(&self, rt: &R, witness: &mut Witness<L>) -> Option<u64>
        ensures { SeesState L.config witness.old (λ w. result ≡ pending_in w) witness.new }
    {
        let mut kept = self.lock(rt);
        kept.show(witness);
        kept.pending()
    }
}
