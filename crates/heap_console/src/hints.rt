//! What the commands of a session find out for a person beside it.
use crate::id_classes::{IdClasses, classes_asked};
use crate::slot_count::{NamedRegister, register_named, slots_of, slots_of_register};
use heap_class::Refusal;
use heap_trail::{Machine, Reply};
use question_grammar::Bookmarks;
use session_text::LineAnswer;
use std::alloc::Global;
use std::cell::Cell;
use std::marker::Model;

/// What the commands of a session find out about the line that a prompt read last: how many slots there are, if the line was
/// refused because it named another, and the classes of the objects whose ids the answer has.
#[derive(Drop)]
pub struct Hints {
    register: Cell<Option<NamedRegister>>,
    slots: Cell<Option<u64>>,
    wants_classes: Cell<bool>,
    classes: Cell<Option<IdClasses>>,
}

impl Hints {
    /// Creates the hints of a session that has read no line, for which no classes are wanted.
    pub fn new() -> Hints {
        Hints {
            register: Cell::new(None),
            slots: Cell::new(None),
            wants_classes: Cell::new(false),
            classes: Cell::new(None),
        }
    }

    // Notes that the classes of objects are wanted.
    pub(crate) fn want_classes(&self) {
        self.wants_classes.set(true);
    }

    // Notes the line that was read, or several, and forgets what was found about the line before.
    pub(crate) fn note_read(&self, read: &[u8]) {
        self.register.set(register_named(read));
        self.slots.set(None);
        self.classes.set(None);
    }

    // Takes the number of slots of which the newest line named another. Returns None if it isn't known.
    pub(crate) fn take_slots(&self) -> Option<u64> {
        self.slots.replace(None)
    }

    // Takes the classes of the objects that the newest answer names, if they are known.
    pub(crate) fn take_classes(&self) -> Option<IdClasses> {
        self.classes.replace(None)
    }

    // Puts classes back that were taken.
    pub(crate) fn put_classes(&self, classes: Option<IdClasses>) {
        self.classes.set(classes);
    }

    // Notes how many slots the object has that the register of the line names, if it was refused for another.
    fn note_reply(&self, machine: &Machine, reply: &Reply) {
        if is_bad_slot(reply) {
            let register = self.register.get();
            self.slots.set(slots_of_register(machine.world(), register));
        }
    }

    // Notes how many slots there are, if a line was refused that named another, or else the classes of the objects whose ids the
    // answer has.
    fn note_answer(
        &self,
        alloc: Global,
        machine: &Machine,
        bookmarks: &Bookmarks,
        line: &[u8],
        answer: &LineAnswer,
    ) {
        match answer {
            LineAnswer::Known(reply) => {
                if is_bad_slot(reply) {
                    let register = self.register.get();
                    self.slots.set(slots_of(machine, bookmarks, line, register));
                }
            }
            LineAnswer::Text(text) => {
                if self.wants_classes.get() {
                    let rows = text.as_slice();
                    self.classes
                        .set(classes_asked(alloc, machine, bookmarks, line, rows));
                }
            }
            _ => {}
        }
    }
}

// Tells whether a reply is the refusal BadSlot.
fn is_bad_slot(reply: &Reply) -> bool {
    matches!(reply, Reply::Refused(Refusal::BadSlot))
}

/// What commands tell the hints of their session. Contracts see nothing of it.
#[derive(Drop)]
pub struct Hinting<'a> {
    hints: &'a Hints,
}

impl<'a> Model for Hinting<'a> {
    ghost Value = { Unit {0} };

    ghost view = { λ h. tt };
}

impl<'a> Hinting<'a> {
    ghost use Rattle.std.specs.Prelude.{◌≡◌};

    /// Returns what tells these hints.
    pub fn new(hints: &'a Hints) -> Hinting<'a>
        ensures { result ≡ tt }
    {
        Hinting { hints }
    }

    /// Tells of the reply to an action or a step of the line that a prompt read last, which left the machine so.
    pub fn note_reply(&self, machine: &Machine, reply: &Reply) {
        self.hints.note_reply(machine, reply);
    }

    /// Tells of the answer to a line that the grammar of sessions doesn't know, which left the machine and what the session notes
    /// of places so.
    pub fn note_answer(
        &self,
        alloc: Global,
        machine: &Machine,
        bookmarks: &Bookmarks,
        line: &[u8],
        answer: &LineAnswer,
    ) {
        self.hints
            .note_answer(alloc, machine, bookmarks, line, answer);
    }
}
