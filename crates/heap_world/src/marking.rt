//! The marker's steps on the heap, and the undoing of each.
ghost use Rattle.std.specs.Prelude.{◌≡◌, ◌+◌, ◌-◌, ◌<◌, ◌≤◌, length, slice_index, None, false, IfOk, OnOk, OnErr};
ghost use Rattle.heap_class.specs.Refusals.{IsAnswered};
ghost use Rattle.heap_mark.specs.MarkSteps.{snap_refusal, unsnapped, mark_refusal, unmarked, drain_refusal, undrained, finish_refusal, unfinished, dead_count};
ghost use Rattle.heap_world.specs.State.{HeapState, marking_of, with_marking};
ghost use Rattle.heap_world.specs.Legal.{IsLegal};
ghost use Rattle.heap_world.specs.Events.{after_snap, after_mark, after_drain, after_finish};

use super::World;
use heap_class::Refusal;
use heap_mark::{CycleLog, Finished, Marked};

impl World {
    /// Begins a cycle: marks and pushes each object that a register names, once, in the order of the registers. Returns the
    /// number of objects. Fails with AlreadyMarking if a cycle runs. Takes no memory.
    pub fn snap(&mut self) -> Result<u64, Refusal>
        ensures answered { IsAnswered (snap_refusal (marking_of self.old)) false result }
        ensures snapped { OnOk result (self.new ≡ after_snap self.old) }
        ensures pushed { IfOk result (λ n. n ≡ length self.new.gray) }
        ensures unchanged { OnErr result (self.new ≡ self.old) }
    {
        self.marker.snap(&mut self.regions, &self.registers)
    }

    /// Undoes `snap`, which must have led to this state. Takes no memory.
    pub fn unsnap(&mut self)
        requires snapped { (before : HeapState) × IsLegal before
            × (snap_refusal (marking_of before) ≡ None) × (self.old ≡ after_snap before) }
        ensures unsnapped { self.new ≡ with_marking (unsnapped (marking_of self.old)) self.old }
        ensures back { (before : HeapState) → IsLegal before
            → snap_refusal (marking_of before) ≡ None → self.old ≡ after_snap before
            → self.new ≡ before }
    {
        self.marker.unsnap(&mut self.regions)
    }

    /// Pops the newest gray object, and marks and pushes its unmarked children in slot order. Returns the object and the number
    /// of children that were pushed. Fails with NotMarking if no cycle runs, or with NothingToMark if nothing is gray. Takes no
    /// memory.
    #[inline(always)]
    pub fn mark(&mut self) -> Result<Marked, Refusal>
        ensures answered { IsAnswered (mark_refusal (marking_of self.old)) false result }
        ensures marked { OnOk result (self.new ≡ after_mark self.old) }
        ensures parent { IfOk result (λ p. p.parent ≡ slice_index self.old.gray 0) }
        ensures pushed { IfOk result
            (λ p. p.pushed ≡ length self.new.gray + 1 - length self.old.gray) }
        ensures unchanged { OnErr result (self.new ≡ self.old) }
    {
        self.marker.mark(&mut self.regions, &self.classes)
    }

    /// Undoes `mark`: unmarks the `pushed` newest gray objects and takes them off the stack, and pushes the parent again. At
    /// least `pushed` objects must be gray. The heap must be legal afterwards. Takes no memory.
    pub fn unmark(&mut self, parent: u64, pushed: u64)
        requires within { pushed ≤ length self.old.gray }
        requires legal { IsLegal
            (with_marking (unmarked parent pushed (marking_of self.old)) self.old) }
        ensures { self.new ≡ with_marking (unmarked parent pushed (marking_of self.old)) self.old }
    {
        self.marker.unmark(&mut self.regions, parent, pushed)
    }

    /// Marks and pushes the object that the next entry of the log names, if it is unmarked. Returns the number of objects
    /// pushed, 0 or 1. Fails with NotMarking if no cycle runs, or with NothingToDrain if no entry is left. Takes no memory.
    pub fn drain(&mut self) -> Result<u64, Refusal>
        ensures answered { IsAnswered (drain_refusal (marking_of self.old)) false result }
        ensures drained { OnOk result (self.new ≡ after_drain self.old) }
        ensures pushed { IfOk result (λ n. n ≡ length self.new.gray - length self.old.gray) }
        ensures unchanged { OnErr result (self.new ≡ self.old) }
    {
        self.marker.drain(&mut self.regions)
    }

    /// Undoes `drain`: unmarks the `pushed` newest gray objects and takes them off the stack, and makes the last drained entry
    /// the next one again. An entry must have been drained, and at least `pushed` objects must be gray. The heap must be legal
    /// afterwards. Takes no memory.
    pub fn undrain(&mut self, pushed: u64)
        requires within { pushed ≤ length self.old.gray }
        requires drained { 0 < self.old.drained }
        requires legal { IsLegal (with_marking (undrained pushed (marking_of self.old)) self.old) }
        ensures { self.new ≡ with_marking (undrained pushed (marking_of self.old)) self.old }
    {
        self.marker.undrain(&mut self.regions, pushed)
    }

    /// Ends the cycle: the marked objects are live, the others aren't, none is marked, and every region in use waits to be
    /// swept. Returns the number of objects that aren't live, and the log. Fails with NotMarking if no cycle runs, with NotDone
    /// if an object is gray or an entry of the log is left, or with SweepPending and the lowest region that waits to be swept,
    /// if one does. Takes no memory.
    pub fn finish(&mut self) -> Result<Finished, Refusal>
        ensures answered { IsAnswered (finish_refusal (marking_of self.old)) false result }
        ensures finished { OnOk result (self.new ≡ after_finish self.old) }
        ensures condemned { IfOk result (λ f. f.condemned ≡ dead_count self.new.regions) }
        ensures log { IfOk result (λ f. f.log ≡ self.old.log) }
        ensures unchanged { OnErr result (self.new ≡ self.old) }
    {
        self.marker.finish(&mut self.regions)
    }

    /// Undoes `finish`, which must have led to this state, given the log that it returned. The heap must be legal afterwards.
    /// Takes no memory.
    pub fn unfinish(&mut self, log: CycleLog)
        requires legal { IsLegal (with_marking (unfinished log (marking_of self.old)) self.old) }
        requires finished { (before : HeapState) × IsLegal before
            × (finish_refusal (marking_of before) ≡ None) × (self.old ≡ after_finish before) }
        ensures { self.new ≡ with_marking (unfinished log (marking_of self.old)) self.old }
    {
        self.marker.unfinish(&mut self.regions, log)
    }
}
