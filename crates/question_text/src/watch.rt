//! What a session with questions shows to readers beside it.
use heap_trail::{Machine, Reply};
use session_text::LineAnswer;
use std::sync::atomic::{AtomicBool, AtomicU64, Ordering};

/// The number that stands for `bad command`, beside those of refusals.
pub const BAD_COMMAND: u64 = 1_000;

/// The place of a session's machine, its oldest retained place, the newest line that was refused, and whether lines of the session
/// write files, for readers beside the session such as a prompt.
#[derive(Drop)]
pub struct Watch {
    place: AtomicU64,
    oldest: AtomicU64,
    refusal: AtomicU64,
    has_files: AtomicBool,
}

impl Watch {
    /// Creates a watch at place 0, with no refusal, of a session whose lines write no files.
    pub fn new() -> Watch {
        Watch {
            place: AtomicU64::new(0),
            oldest: AtomicU64::new(0),
            refusal: AtomicU64::new(0),
            has_files: AtomicBool::new(false),
        }
    }

    /// Returns the place of the machine after its last line.
    pub fn place(&self) -> u64 {
        self.place.load(Ordering::SeqCst)
    }

    /// Returns the oldest place that is retained after the machine's last line.
    pub fn oldest(&self) -> u64 {
        self.oldest.load(Ordering::SeqCst)
    }

    /// Returns the number of the newest refusal, BAD_COMMAND if the line was none, or 0 if no line was refused since this was
    /// asked last.
    pub fn take_refusal(&self) -> u64 {
        self.refusal.swap(0, Ordering::SeqCst)
    }

    /// Tells whether lines of the session write files.
    pub fn has_files(&self) -> bool {
        self.has_files.load(Ordering::SeqCst)
    }

    /// Notes that lines of the session write files.
    pub fn note_files(&self) {
        self.has_files.store(true, Ordering::SeqCst);
    }

    // Notes the places of a machine.
    fn note_places(&self, machine: &Machine) {
        let place = machine.place();
        self.place.store(place, Ordering::SeqCst);
        self.oldest.store(
            place.saturating_sub(machine.retained_count()),
            Ordering::SeqCst,
        );
    }

    /// Notes the places of a machine after an action, and its refusal, if there is one.
    pub fn note_reply(&self, machine: &Machine, reply: &Reply) {
        self.note_places(machine);
        if let Reply::Refused(refusal) = reply {
            self.refusal.store(refusal.number(), Ordering::SeqCst);
        }
    }

    /// Notes the places of a machine after a line that the grammar of sessions doesn't know, and its refusal, if there is one.
    pub fn note_answer(&self, machine: &Machine, answer: &LineAnswer) {
        match answer {
            LineAnswer::Known(reply) => self.note_reply(machine, reply),
            LineAnswer::BadCommand => self.refusal.store(BAD_COMMAND, Ordering::SeqCst),
            _ => self.note_places(machine),
        }
    }
}
