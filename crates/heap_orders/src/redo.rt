//! The steps that rewinds undid, which can be taken again.
ghost use Rattle.std.specs.Prelude.{◌≡◌, ◌<◌, drop, Some, IfErr, IfOk};
ghost use Rattle.heap_class.specs.declared.Refusal.TheVariants.{NoMemory};
ghost use Rattle.heap_orders.specs.Redos.{next_undone, no_redo, noted, retaken, with_step, with_undone};

use circular_buffer::HeapCircularBuffer;
use heap_class::Refusal;
use heap_step::Event;
use heap_trail::{Action, Reply};
use std::alloc::Global;
use std::marker::Model;
use std::mem::size_of;

// A session has room for one for each step that can be taken again.
const _: () = prove!(size_of::<Event>() <= 72);

/// The events of the newest steps, newest first, of which the first `ahead` are undone. Contracts see them, and how many are kept
/// at most.
#[derive(Drop)]
pub struct Redo {
    events: HeapCircularBuffer<Event>,
    ahead: usize,
}

impl Model for Redo {
    ghost use Rattle.std.specs.Prelude.{◌≤◌, length};
    ghost use Rattle.heap_orders.specs.Redos.{Redo};

    ghost Value = { Redo };

    ghost view = { λ r.
        record { events = r.events.items; ahead = r.ahead; limit = r.events.capacity } };

    ghost invariant = { λ r. r.ahead ≤ length r.events.items };
}

impl Redo {
    /// Creates a list of no steps, with room for `limit`. Fails with NoMemory.
    pub fn with_limit(alloc: Global, limit: usize) -> Result<Redo, Refusal>
        ensures none { IfOk result (λ r. r ≡ no_redo limit) }
        ensures refused { IfErr result (λ e. e ≡ NoMemory) }
    {
        let events = HeapCircularBuffer::with_capacity(alloc, limit)?;
        Ok(Redo { events, ahead: 0 })
    }

    /// Returns the number of undone steps.
    pub fn ahead(&self) -> u64
        ensures { result ≡ self.now.ahead }
    {
        self.ahead as u64
    }

    /// Notes an action that had this reply.
    #[inline(always)]
    pub fn note(&mut self, action: Action, reply: &Reply)
        ensures { self.new ≡ noted action reply.now self.old }
    {
        match action {
            Action::Step(event) => {
                if matches!(reply, Reply::Answered(_)) {
                    self.note_step(event);
                }
            }
            Action::Rewind(n) => {
                if matches!(reply, Reply::Place(_)) {
                    self.note_rewind(n);
                }
            }
            _ => {}
        }
    }

    /// Notes a step that was taken: the undone ones are forgotten, and the oldest if as many are kept as there may be.
    #[inline(always)]
    pub fn note_step(&mut self, event: Event)
        ensures { self.new ≡ with_step event self.old }
    {
        if self.ahead > 0 {
            self.forget_undone();
        }
        self.events.push_front(event);
    }

    // Forgets the undone steps.
    #[inline(never)]
    fn forget_undone(&mut self)
        ensures { self.new
            ≡ record self.old { events = drop self.old.ahead self.old.events; ahead = 0 } }
    {
        let made = self.events.len() - self.ahead;
        self.events.truncate_front(made);
        self.ahead = 0;
    }

    // Notes that the last `n` steps were undone. All steps are forgotten if one of these isn't there.
    #[inline(never)]
    pub(crate) fn note_rewind(&mut self, n: u64)
        ensures { self.new ≡ with_undone n self.old }
    {
        let made = self.events.len() - self.ahead;
        if n <= made as u64 {
            self.ahead += n as usize;
        } else {
            self.ahead = 0;
            self.events.clear();
        }
    }

    // Returns the step that was undone last.
    pub(crate) fn next(&self) -> &Event
        requires { 0 < self.now.ahead }
        ensures { next_undone self.now ≡ Some result.now }
    {
        match self.events.nth_front(self.ahead - 1) {
            Some(event) => event,
            None => unreachable!(),
        }
    }

    // Notes that the step that was undone last was taken again.
    pub(crate) fn note_retaken(&mut self)
        requires { 0 < self.old.ahead }
        ensures { self.new ≡ retaken self.old }
    {
        self.ahead -= 1;
    }
}
