//! The ring of the records of retained steps.
ghost use Rattle.std.specs.Prelude.{◌≡◌, ◌≤◌, [], length, drop, option_copied, slice_get, IfOk};
ghost use Rattle.circular_buffer.specs.Buffer.{buffer};
ghost use Rattle.heap_world.specs.Limits.{keep_limit};
ghost use Rattle.heap_step.specs.declared.Undo.TheVariants.{Put, Store, Reg, New, Mark};
ghost use Rattle.heap_trail.specs.Records.{with_record};

use circular_buffer::HeapCircularBuffer;
use heap_class::ObjRef;
use heap_step::Undo;
use std::alloc::{AllocError, Global};
use std::marker::Model;

// The largest number of records that wait to be dropped together.
const DROPPED_TOGETHER: usize = 64;

// The records of the last `keep` steps, newest first. Behind them stand older ones, which are dropped together once the buffer
// is full. Contracts see the `keep` newest.
#[derive(Drop)]
pub(crate) struct RecordRing {
    records: HeapCircularBuffer<Undo>,
    keep: usize,
}

impl Model for RecordRing {
    ghost use Rattle.std.specs.Prelude.{◌<◌, take};
    ghost use Rattle.circular_buffer.specs.Buffer.{Buffer, buffer};
    ghost use Rattle.heap_step.specs.declared.Undo.{Undo};

    ghost Value = { Buffer Undo };

    ghost view = { λ r. buffer (take r.keep r.records.items) r.keep };

    ghost invariant = { λ r. r.keep < r.records.capacity };
}

impl RecordRing {
    // Creates a ring of no records, which keeps `keep`. Fails if the allocation fails.
    pub(crate) fn with_capacity(alloc: Global, keep: usize) -> Result<RecordRing, AllocError>
        requires { keep ≤ keep_limit }
        ensures { IfOk result (λ r. r ≡ buffer [] keep) }
    {
        let waiting = keep.clamp(1, DROPPED_TOGETHER);
        let records = HeapCircularBuffer::with_capacity(alloc, keep + waiting)?;
        Ok(RecordRing { records, keep })
    }

    // Returns the number of records.
    pub(crate) fn len(&self) -> usize
        ensures len { result ≡ length self.now.items }
    {
        self.records.len().min(self.keep)
    }

    // Returns the record of the step `index` steps before the last one.
    pub(crate) fn nth_front(&self, index: usize) -> Option<&Undo>
        ensures { option_copied result ≡ slice_get self.now.items index }
    {
        if index >= self.keep {
            return None;
        }
        self.records.nth_front(index)
    }

    // Adds a record, by a function for its sort: what it holds is passed in registers. The oldest is dropped at the latest when
    // as many more are added as wait to be dropped together.
    #[inline(always)]
    pub(crate) fn push_front(&mut self, left: Undo)
        ensures { self.new ≡ with_record left self.old }
    {
        match left {
            Undo::Put { at, slot, old } => self.push_put(at, slot, old),
            Undo::Store {
                at,
                slot,
                old,
                logged,
            } => self.push_store(at, slot, old, logged),
            Undo::Reg { m, r, old } => self.push_reg(m, r, old),
            Undo::New {
                at,
                fresh,
                m,
                r,
                old,
            } => self.push_new(at, fresh, m, r, old),
            Undo::Mark { parent, pushed } => self.push_mark(parent, pushed),
            other => self.push_other(other),
        }
    }

    // Adds the record of a `put`.
    #[inline(never)]
    fn push_put(&mut self, at: ObjRef, slot: u32, old: u64)
        ensures { self.new ≡ with_record (Put at slot old) self.old }
    {
        self.push(Undo::Put { at, slot, old });
    }

    // Adds the record of a `store`.
    #[inline(never)]
    fn push_store(&mut self, at: ObjRef, slot: u32, old: u64, logged: bool)
        ensures { self.new ≡ with_record (Store at slot old logged) self.old }
    {
        self.push(Undo::Store {
            at,
            slot,
            old,
            logged,
        });
    }

    // Adds the record of a register's write.
    #[inline(never)]
    fn push_reg(&mut self, m: u8, r: u8, old: u64)
        ensures { self.new ≡ with_record (Reg m r old) self.old }
    {
        self.push(Undo::Reg { m, r, old });
    }

    // Adds the record of a new object.
    #[inline(never)]
    fn push_new(&mut self, at: ObjRef, fresh: bool, m: u8, r: u8, old: u64)
        ensures { self.new ≡ with_record (New at fresh m r old) self.old }
    {
        self.push(Undo::New {
            at,
            fresh,
            m,
            r,
            old,
        });
    }

    // Adds the record of a `mark`.
    #[inline(never)]
    fn push_mark(&mut self, parent: u64, pushed: u64)
        ensures { self.new ≡ with_record (Mark parent pushed) self.old }
    {
        self.push(Undo::Mark { parent, pushed });
    }

    // Adds a record of any sort.
    #[inline(never)]
    fn push_other(&mut self, left: Undo)
        ensures { self.new ≡ with_record left self.old }
    {
        self.push(left);
    }

    // Adds a record, with room for which the oldest are dropped.
    #[inline(always)]
    fn push(&mut self, left: Undo)
        ensures { self.new ≡ with_record left self.old }
    {
        match self.records.try_push_front(left) {
            Ok(()) => {}
            Err(left) => self.push_front_of_fewer(left),
        }
    }

    // Drops the records behind the `keep` newest, and adds a record.
    #[inline(never)]
    fn push_front_of_fewer(&mut self, left: Undo)
        ensures { self.new ≡ with_record left self.old }
    {
        self.records.truncate_back(self.keep);
        self.records.push_front(left);
    }

    // Removes the newest record and returns it.
    pub(crate) fn pop_front(&mut self) -> Option<Undo>
        ensures value { result ≡ slice_get self.old.items 0 }
        ensures items { self.new ≡ buffer (drop 1 self.old.items) self.old.capacity }
    {
        self.records.truncate_back(self.keep);
        self.records.pop_front()
    }
}
