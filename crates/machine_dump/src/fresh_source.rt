//! A source of a machine's pin that may go to another thread.
ghost use Rattle.std.specs.Prelude.{◌≡◌, None, false};
ghost use Rattle.heap_trail.specs.Pins.{pin_at};
ghost use Rattle.machine_dump.specs.HandedPieces.{given_of};
ghost use Rattle.machine_dump.specs.SourceEnds.{is_whole_end};
ghost use Rattle.machine_dump.specs.PinSupplies.{IsCaused};

use crate::pin_source::{hand_out, parts_left};
use dump_pump::{Next, Source, SourceEnd};
use heap_trail::Machine;

/// The pieces of a machine's pin that had given none, in order. It keeps no snapshot of the machine, as `PinSource` does, so
/// that it may go to another thread.
#[derive(Drop)]
pub struct FreshSource<'a> {
    /// The machine that has the pin.
    pub machine: &'a mut Machine,
    /// The number of the pin.
    pub pin: u64,
    /// The time in the header, in milliseconds.
    pub time: u64,
    /// The number of parts handed out, at most `PIECE_LIMIT`.
    pub count: u64,
    /// How the source ended.
    pub ended: Option<SourceEnd>,
    ghost counted: { is_whole_end ended ≡ false
        → given_of (pin_at pin machine.now.pins) ≡ count },
    ghost caused: { IsCaused pin machine.now ended },
}

impl<'a> FreshSource<'a> {
    /// Creates a source of the pieces of a pin that has given none. If no such pin is open, it will be lost. Takes no memory.
    pub fn new(machine: &'a mut Machine, pin: u64, time: u64) -> FreshSource<'a>
        requires { given_of (pin_at pin machine.old.pins) ≡ 0 }
        ensures machine { result.machine.ghost_name ≡ machine.entry.ghost_name }
        ensures now { result.machine.now ≡ machine.old }
        ensures pin { result.pin ≡ pin }
        ensures time { result.time ≡ time }
        ensures count { result.count ≡ 0 }
        ensures ended { result.ended ≡ None }
    {
        FreshSource {
            machine,
            pin,
            time,
            count: 0,
            ended: None,
        }
    }
}

impl<'a> Source for FreshSource<'a> {
    ghost use Rattle.machine_dump.specs.PinSupplies.{PinOrigin};
    ghost use Rattle.machine_dump.specs.FreshSupplies.{fresh_pinned, fresh_supply};

    ghost Kept = { PinOrigin };

    ghost kept = { λ s. fresh_pinned s.machine.ghost_name s.pin s.time s.machine.now };

    ghost seen = { λ s. fresh_supply s.pin s.time s.machine.now s.count s.ended };

    fn next(&mut self) -> Next {
        let (count, ended) = (&mut self.count, &mut self.ended);
        hand_out(&mut *self.machine, self.pin, self.time, count, ended)
    }

    fn parts_left(&self) -> u64 {
        parts_left(&self.ended, self.count)
    }
}
