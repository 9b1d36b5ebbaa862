//! The open pins, for a list of them.
ghost use Rattle.std.specs.Prelude.{◌≡◌, ◌<◌, IfSome, option_map, slice_get};
ghost use Rattle.heap_world.specs.Limits.{pin_limit};
ghost use Rattle.heap_trail.specs.Listings.{listed_pin, listed_slot};

use crate::Machine;
use crate::held::{Held, NumberedPin};
use heap_class::LostCause;

/// The place of a pin, and whether it is kept.
#[derive(Clone, Copy)]
pub enum PinStatus {
    /// The pin shows the state at `place`, and `given` pieces of its dump were given.
    Kept { place: u64, given: u64 },
    /// The pin on `place` is lost, for this cause.
    Lost { place: u64, cause: LostCause },
}

/// An open pin: its number, its place, and whether it is kept.
#[derive(Clone, Copy)]
pub struct ListedPin {
    pub number: u64,
    pub status: PinStatus,
}

impl NumberedPin {
    // Tells the pin's number, its place, and whether it is kept.
    fn describe(&self) -> ListedPin
        ensures { result ≡ listed_slot self.now }
    {
        let status = match &self.held {
            Held::Kept { place, given, .. } => PinStatus::Kept {
                place: *place,
                given: *given,
            },
            Held::Lost { place, cause } => PinStatus::Lost {
                place: *place,
                cause: *cause,
            },
        };
        ListedPin {
            number: self.number,
            status,
        }
    }
}

impl Machine {
    /// Tells of the open pin at this index, lost ones included. Pins are listed in order of their numbers; past the last,
    /// and from 4 on, in a wide heap from 64 on, there is none. Takes no memory.
    pub fn nth_pin(&self, index: u64) -> Option<ListedPin>
        ensures value { result ≡ option_map listed_pin (slice_get self.now.pins.open_pins index) }
        ensures limit { IfSome result (λ p. index < pin_limit) }
    {
        match self.pins.get(index as usize) {
            Some(pin) => Some(pin.describe()),
            None => None,
        }
    }
}
