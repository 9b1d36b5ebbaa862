//! When the dump of a client has to end.
use crate::guard::DumpGuard;
use crate::watch::PinWatch;
use heap_lock::{Heap, LostCause};
use std::cell::Cell;
use std::io;
use std::sync::Wait;
use std::sync::atomic::{AtomicBool, Ordering};
use std::time::{Clock, Duration, Instant};

// The milliseconds between two looks at the pin.
const LOOK: u64 = 50;

// The milliseconds in which the pieces of a dump that has to end may still go out.
const REST: u64 = 50;

// The seconds without a byte after which a dump has to end.
const PATIENCE: u64 = 10;

/// When the dump of a client has to end: once the stop word is set, its pin is closed or lost, no byte has gone out for ten
/// seconds, or its socket failed. Once it has to end, it has to.
#[derive(Drop)]
pub struct DumpTerm<'a, L: Heap, R: Clock + Wait> {
    rt: &'a R,
    stop: &'a AtomicBool,
    watch: &'a PinWatch<'a, L, R>,
    moved: Cell<Instant>,
    looked: Cell<Instant>,
    loss: Cell<Option<LostCause>>,
    over: Cell<Option<Instant>>,
}

impl<'a, L: Heap, R: Clock + Wait> DumpTerm<'a, L, R> {
    /// Begins the term of a dump with this stop word and this watch. Fails if the system has no clock.
    pub fn new(
        rt: &'a R,
        stop: &'a AtomicBool,
        watch: &'a PinWatch<'a, L, R>,
    ) -> io::Result<DumpTerm<'a, L, R>> {
        let now = Instant::now(rt)?;
        Ok(DumpTerm {
            rt,
            stop,
            watch,
            moved: Cell::new(now),
            looked: Cell::new(now),
            loss: Cell::new(None),
            over: Cell::new(None),
        })
    }

    /// Returns the cause of a loss of the pin that ended the dump.
    pub fn loss(&self) -> Option<LostCause> {
        self.loss.get()
    }

    // Returns the time. Without a clock that is the time of the last look.
    fn now(&self) -> Instant {
        Instant::now(self.rt).unwrap_or(self.looked.get())
    }

    // Notes that a byte went out.
    pub(crate) fn note_byte(&self) {
        self.moved.set(self.now());
    }

    // Ends the dump.
    pub(crate) fn end(&self) {
        if self.over.get().is_none() {
            self.over.set(Some(self.now()));
        }
    }

    // Looks at the pin, unless that was just done. Returns whether it is closed or lost.
    fn is_lost(&self, now: Instant) -> bool {
        if now.duration_since(self.looked.get()) >= Duration::from_millis(LOOK) {
            self.looked.set(now);
            self.loss.set(self.watch.loss());
        }
        self.loss.get().is_some()
    }

    // Tells whether there is a reason to end the dump.
    fn has_reason(&self) -> bool {
        let now = self.now();
        self.stop.load(Ordering::SeqCst)
            || now.duration_since(self.moved.get()) >= Duration::from_secs(PATIENCE)
            || self.is_lost(now)
    }

    // Tells whether the dump has to end.
    pub(crate) fn is_over(&self) -> bool {
        if self.over.get().is_none() && self.has_reason() {
            self.end();
        }
        self.over.get().is_some()
    }

    // Tells whether the dump has to end, and had the time in which its last pieces may go out.
    pub(crate) fn is_cut(&self) -> bool {
        match self.over.get() {
            Some(since) => { self.now().duration_since(since) >= Duration::from_millis(REST) }
            None => false,
        }
    }
}

/// The guard of a client's dump: it says that the dump has to end once its term says so.
#[derive(Drop)]
pub struct TermGuard<'a, L: Heap, R: Clock + Wait> {
    term: &'a DumpTerm<'a, L, R>,
    over: bool,
}

impl<'a, L: Heap, R: Clock + Wait> TermGuard<'a, L, R> {
    /// Creates the guard of a dump with this term.
    pub fn new(term: &'a DumpTerm<'a, L, R>) -> TermGuard<'a, L, R> {
        TermGuard { term, over: false }
    }
}

impl<L: Heap, R: Clock + Wait> DumpGuard for TermGuard<'_, L, R> {
    ghost use Rattle.std.specs.Prelude.{◌≡◌, true};

    ghost says = { λ before over after. (after.over ≡ over)
        × (before.over ≡ true → over ≡ true) };

    fn is_over(&mut self) -> bool {
        if self.term.is_over() {
            self.over = true;
        }
        self.over
    }
}
