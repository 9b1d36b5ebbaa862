//! A source of the pieces of a machine's pin.
ghost use Rattle.std.specs.Prelude.{◌≡◌, ◌<◌, ◌≤◌, None};
ghost use Rattle.hprof_text.specs.Laws.{piece_limit};
ghost use Rattle.heap_trail.specs.Pins.{pin_at};
ghost use Rattle.machine_dump.specs.HandedPieces.{given_of};
ghost use Rattle.machine_dump.specs.SourceEnds.{HandsOut, cause_of, pieces_left};
ghost use Rattle.machine_dump.specs.PinSupplies.{IsCounted, IsCaused};

use dump_pump::{Next, Source, SourceEnd};
use heap_class::{LostCause, Refusal};
use heap_trail::Machine;
use hprof_text::PIECE_LIMIT;
use std::snapshot::Snapshot;

/// The pieces of a machine's pin, in order from the first that the pin has not given yet.
#[derive(Drop)]
pub struct PinSource<'a> {
    /// The machine that has the pin.
    pub machine: &'a mut Machine,
    /// The machine when the source was made, for contracts alone.
    pub start: Snapshot<Machine>,
    /// The number of the pin.
    pub pin: u64,
    /// The time in the header, in milliseconds.
    pub time: u64,
    /// The number of parts handed out, at most `PIECE_LIMIT`.
    pub count: u64,
    /// How the source ended.
    pub ended: Option<SourceEnd>,
    ghost counted: { IsCounted pin start.value machine.now count ended },
    ghost caused: { IsCaused pin machine.now ended },
}

impl<'a> PinSource<'a> {
    /// Creates a source of a pin's pieces that has handed out none. If no such pin is open, it will be lost. Takes no memory.
    pub fn new(machine: &'a mut Machine, pin: u64, time: u64) -> PinSource<'a>
        ensures machine { result.machine.ghost_name ≡ machine.entry.ghost_name }
        ensures now { result.machine.now ≡ machine.old }
        ensures start { result.start.value ≡ machine.old }
        ensures pin { result.pin ≡ pin }
        ensures time { result.time ≡ time }
        ensures count { result.count ≡ 0 }
        ensures ended { result.ended ≡ None }
    {
        let start = Snapshot::of(&*machine);
        PinSource {
            start,
            pin,
            time,
            count: 0,
            ended: None,
            machine,
        }
    }
}

/// Returns the cause by which a dump is lost whose piece meets this refusal.
pub fn cause_of(refusal: Refusal) -> LostCause
    ensures { result ≡ cause_of refusal }
{
    match refusal {
        Refusal::NoMemory => LostCause::Memory,
        Refusal::Lost { cause } => cause,
        _ => LostCause::Closed,
    }
}

/// Returns the largest number of parts left to a source that handed out `count` parts and ended in this way, if it has ended.
pub fn parts_left(ended: &Option<SourceEnd>, count: u64) -> u64
    ensures left { result ≡ pieces_left ended.now count }
    ensures most { result ≤ piece_limit }
{
    match ended {
        Some(SourceEnd::Whole) => 0,
        _ => PIECE_LIMIT.saturating_sub(count),
    }
}

/// Takes a pin's next piece, counts it, and notes how the source ended.
pub fn hand_out(
    machine: &mut Machine,
    pin: u64,
    time: u64,
    count: &mut u64,
    ended: &mut Option<SourceEnd>,
) -> Next
    requires few { count.old < piece_limit }
    requires counted { count.old ≤ given_of (pin_at pin machine.old.pins) }
    ensures { HandsOut pin time machine.old machine.new count.old count.new ended.old ended.new
        result }
{
    // Its contract says that the images are within a dump's limits.
    machine.next_pin();
    match machine.piece(pin, time) {
        Ok(piece) => {
            *count += 1;
            if piece.last {
                *ended = Some(SourceEnd::Whole);
            }
            Next::Part(piece)
        }
        Err(refusal) => {
            let cause = cause_of(refusal);
            *ended = Some(SourceEnd::Lost(cause));
            Next::Lost(cause)
        }
    }
}

impl<'a> Source for PinSource<'a> {
    ghost use Rattle.machine_dump.specs.PinSupplies.{PinOrigin, pin_origin, pin_supply};

    ghost Kept = { PinOrigin };

    ghost kept = { λ s. pin_origin s.machine.ghost_name s.pin s.time s.start.value s.machine.now };

    ghost seen = { λ s. pin_supply s.pin s.time s.start.value s.machine.now s.count s.ended };

    fn next(&mut self) -> Next {
        let (count, ended) = (&mut self.count, &mut self.ended);
        hand_out(&mut *self.machine, self.pin, self.time, count, ended)
    }

    fn parts_left(&self) -> u64 {
        parts_left(&self.ended, self.count)
    }
}
