//! The numbers of pins.
ghost use Rattle.std.specs.Prelude.{◌≡◌};
ghost use Rattle.heap_trail.specs.Pins.{AreDumpable, AreNumbered, pins_below};

use crate::Machine;

impl Machine {
    /// Returns the number that the next pin gets. Each open pin has a smaller one, and its image is within a dump's limits.
    pub fn next_pin(&self) -> u64
        ensures value { result ≡ self.now.pins.next }
        ensures numbered { AreNumbered self.now.pins }
        ensures dumpable { AreDumpable self.now.pins }
    {
        self.next
    }

    /// Closes each pin with this number or a greater one, lost or not. Takes no memory.
    pub fn close_from(&mut self, number: u64)
        ensures { self.new ≡ record self.old { pins = pins_below number self.old.pins } }
    {
        self.pins.retain(|slot| slot.number < number);
    }
}
