//! The watch over the pin of a dump.
ghost use Rattle.std.specs.Prelude.{◌≡◌};
ghost use Rattle.shared_dump.specs.Words.{cause_of_refusal};

use heap_lock::{Heap, LostCause, Refusal, Shared};
use std::cell::Cell;
use std::sync::Wait;

/// The pin of a dump, once it is open, and the heap that has it.
#[derive(Drop)]
pub struct PinWatch<'a, L: Heap, R: Wait> {
    shared: &'a Shared<L>,
    rt: &'a R,
    pin: Cell<Option<u64>>,
}

// Returns the cause of the loss of a pin whose view is refused.
fn cause_of(refusal: Refusal) -> LostCause
    ensures { result ≡ cause_of_refusal refusal }
{
    match refusal {
        Refusal::Lost { cause } => cause,
        _ => LostCause::Closed,
    }
}

impl<'a, L: Heap, R: Wait> PinWatch<'a, L, R> {
    /// Creates a watch over a pin that isn't open yet.
    pub fn new(shared: &'a Shared<L>, rt: &'a R) -> PinWatch<'a, L, R> {
        PinWatch {
            shared,
            rt,
            pin: Cell::new(None),
        }
    }

    /// Takes the number of the pin.
    pub fn note(&self, pin: u64) {
        self.pin.set(Some(pin));
    }

    /// Returns the cause with which the pin is lost, Closed if it isn't open any more. Returns None if it is open and not lost,
    /// or if its number isn't known. Takes the lock, and no memory. May wait.
    pub fn loss(&self) -> Option<LostCause> {
        let pin = self.pin.get()?;
        match self.shared.lock(self.rt).machine().pin_view(pin) {
            Ok(_) => None,
            Err(refusal) => Some(cause_of(refusal)),
        }
    }
}
