//! Pins: opened, read piece by piece, and closed.
ghost use Rattle.std.specs.Prelude.{◌≡◌, ◌≤◌, length, IfOk, IfErr, OnErr};
ghost use Rattle.hprof_text.specs.Laws.{piece_size_limit};
ghost use Rattle.heap_trail.specs.declared.Action.TheVariants.{OpenPin, NextPiece, ClosePin};
ghost use Rattle.heap_trail.specs.declared.Reply.TheVariants.{Pinned as PinnedReply, Part, Closed, Refused};
ghost use Rattle.heap_trail.specs.Laws.{IsPieceOfLegal};
ghost use Rattle.heap_trail.specs.Pins.{is_retained};
ghost use Rattle.heap_trail.specs.Machine.{MayFail, acted};

use crate::held::{Held, NumberedPin, slot_of};
use crate::opening::past_pin;
use crate::{Machine, PinAt};
use heap_class::Refusal;
use hprof_text::{Cursor, Piece};

// The largest number of a pin: 2^62.
const LAST_PIN: u64 = 0x4000_0000_0000_0000;

impl Machine {
    /// Tells whether the state at this place is retained. Takes no memory.
    pub fn has_retained(&self, at: u64) -> bool
        ensures { result ≡ is_retained at self.now.trail }
    {
        at <= self.place && self.place - at <= self.retained_count()
    }

    /// Opens a pin on the retained state at the place `at`, or on the current state. Fails with NotRetained if that state
    /// isn't retained, with PinLimit if 4 pins are open (in a wide heap 64) or all numbers are used, or with NoMemory if an
    /// allocation fails. A refused call uses no number.
    pub fn open_pin(&mut self, at: Option<u64>) -> Result<PinAt, Refusal>
        ensures done { IfOk result
            (λ p. acted self.old (OpenPin at) ≡ (self.new, PinnedReply p.pin p.at)) }
        ensures refused { IfErr result (λ e. MayFail self.old (OpenPin at) self.new e) }
        ensures unchanged { OnErr result (self.new ≡ self.old) }
    {
        let at = at.unwrap_or(self.place);
        if !self.has_retained(at) {
            return Err(Refusal::NotRetained);
        }
        if self.pins.len() as u64 >= self.world.limits().pins || self.next > LAST_PIN {
            return Err(Refusal::PinLimit);
        }
        let pin = past_pin(self.alloc, &self.world, &self.records, self.place - at)?;
        let number = self.next;
        self.next += 1;
        self.pins.push_reserved(NumberedPin {
            number,
            held: Held::Kept {
                place: at,
                pin,
                cursor: Cursor::Start,
                given: 0,
            },
        });
        Ok(PinAt { pin: number, at })
    }

    /// Returns the next piece of a pin's dump; past the last it is empty. It is a piece of the dump of a legal state. The
    /// time, in milliseconds, stands in the first piece alone. Fails with NoPin if no such pin is open, with Lost and its
    /// cause if the pin is lost, or with NoMemory if an allocation fails; the same piece is then still the next.
    pub fn piece(&mut self, pin: u64, time: u64) -> Result<Piece, Refusal>
        ensures done { IfOk result (λ p. acted self.old (NextPiece pin time) ≡ (self.new, Part p)) }
        ensures legal { IfOk result (λ p. IsPieceOfLegal self.old.ids time p) }
        ensures refused { IfErr result (λ e. MayFail self.old (NextPiece pin time) self.new e) }
        ensures unchanged { OnErr result (self.new ≡ self.old) }
        ensures small { IfOk result (λ p. length p.bytes ≤ piece_size_limit) }
    {
        match slot_of(&self.pins, pin) {
            Some(slot) => self.pins[slot].next_piece(self.alloc, &self.world, self.ids, time),
            None => Err(Refusal::NoPin),
        }
    }

    /// Closes a pin, lost or not. Fails with NoPin if no such pin is open. Takes no memory.
    pub fn close_pin(&mut self, pin: u64) -> Result<(), Refusal>
        ensures done { IfOk result (λ u. acted self.old (ClosePin pin) ≡ (self.new, Closed)) }
        ensures refused { IfErr result
            (λ e. acted self.old (ClosePin pin) ≡ (self.new, Refused e)) }
        ensures unchanged { OnErr result (self.new ≡ self.old) }
    {
        match slot_of(&self.pins, pin) {
            Some(slot) => {
                self.pins.remove(slot);
                Ok(())
            }
            None => Err(Refusal::NoPin),
        }
    }
}
