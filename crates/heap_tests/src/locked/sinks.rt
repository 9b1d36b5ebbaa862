//! The writer that dumps go to, and what its thread and another tell each other.
use std::io;
use std::io::{ErrorKind, Write};
use std::sync::atomic::{AtomicU64, Ordering};
use std::thread::yield_now;

/// How many turns a test waits for another thread.
pub const TURNS: u64 = 10_000_000;

/// Waits until a word is at least `least`. Returns false if it isn't after `TURNS` turns.
pub fn reaches(word: &AtomicU64, least: u64) -> bool {
    for _ in 0..TURNS {
        if word.load(Ordering::SeqCst) >= least {
            return true;
        }
        yield_now();
    }
    false
}

/// What the thread of a sink and another tell each other. Each word is 1 once it is so, and 0 before.
#[derive(Drop)]
pub struct Flags {
    /// The sink is held.
    pub here: AtomicU64,
    /// The sink may go on.
    pub gate: AtomicU64,
    /// The dump is done.
    pub done: AtomicU64,
}

impl Flags {
    /// Creates flags of which none is set.
    pub fn new() -> Flags {
        Flags {
            here: AtomicU64::new(0),
            gate: AtomicU64::new(0),
            done: AtomicU64::new(0),
        }
    }
}

/// Compares what it takes with a text. It is held before each write, once it took `held`, until its gate is open. It fails once
/// no room is left to it.
#[derive(Clone, Copy)]
pub struct Sink<'a> {
    /// What is left of the text.
    pub rest: &'a [u8],
    /// The number of bytes that it took.
    pub taken: usize,
    /// Whether they are the first of the text.
    pub is_text: bool,
    /// The number of bytes that are left to it.
    pub room: usize,
    /// The number of bytes after which it is held.
    pub held: usize,
    /// What it tells another thread, and is told.
    pub flags: &'a Flags,
}

impl<'a> Sink<'a> {
    /// Creates a sink that took nothing yet, has room for all, and is never held.
    pub fn new(text: &'a [u8], flags: &'a Flags) -> Sink<'a> {
        Sink {
            rest: text,
            taken: 0,
            is_text: true,
            room: usize::MAX,
            held: usize::MAX,
            flags,
        }
    }

    // Waits until the gate is open, if it took enough. Returns false if it never is.
    fn goes_on(&self) -> bool {
        if self.taken < self.held {
            return true;
        }
        self.flags.here.store(1, Ordering::SeqCst);
        reaches(&self.flags.gate, 1)
    }
}

impl Write for Sink<'_> {
    fn write(&mut self, given: &[u8]) -> io::Result<usize> {
        let size = given.len().min(self.room);
        if size == 0 || !self.goes_on() {
            return Err(ErrorKind::BrokenPipe.into());
        }
        match self.rest.strip_prefix(&given[..size]) {
            Some(rest) => self.rest = rest,
            None => self.is_text = false,
        }
        self.room -= size;
        self.taken = self.taken.saturating_add(size);
        Ok(size)
    }

    fn flush(&mut self) -> io::Result<()> {
        Ok(())
    }
}
