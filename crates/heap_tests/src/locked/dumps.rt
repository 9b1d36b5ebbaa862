//! Dumps of a shared heap's pins, and what is seen of each.
ghost use Rattle.std.specs.Prelude.{◌≡◌};

use super::cancelling::pumped_asking;
use super::ends::piped;
use super::live::{streamed_alone, streamed_beside};
use super::shared::{Stage, closes_pin, has_points, opened_pin, pumped_text};
use crate::scripts::ONE_POINT;
use dump_pipe::{AskSeat, Meter, ReadSeat};
use dump_pump::Pumped;
use heap_lock::{Heap, Seat, Shared};
use shared_dump::StreamSeats;
use std::alloc::Global;
use std::sync::Wait;
use std::thread::Threads;

/// What another thread saw: whether all went there as it must, and two numbers.
pub type Noted = (bool, u64, u64);

/// How a dump went, how many bytes are out, and whether they are the first of its text.
pub type Seen = (Pumped, usize, bool);

/// What another thread does once the outlet of a dump is held, before it lets it go on.
#[derive(Clone, Copy)]
pub enum Act {
    /// Writes to the point by a mutator.
    Writes,
    /// Asks to cancel.
    Asks,
    /// Reads the progress, and goes on until the dump is done. Notes what it read first and last.
    Reads,
}

/// A dump to an outlet that is held once it took `held` bytes, until another thread acted. It is streamed, or else pumped.
#[derive(Clone, Copy)]
pub struct Beside {
    pub streams: bool,
    pub held: usize,
    pub act: Act,
}

/// How a pin is dumped.
#[derive(Clone, Copy)]
pub enum Way {
    /// Pumped, and watched, from a source that is taken to have given `turn` parts: it asks to cancel before the second, if
    /// that is to come.
    Asking { turn: u64 },
    /// Streamed to an outlet of this room, after somebody asked to cancel if they `asked`.
    Alone { asked: bool, room: usize },
    /// Streamed or pumped to an outlet that is held.
    Held(Beside),
    /// Fed to a pipe in one thread, and drained in another once the source was asked `first` times. Notes whether all was fed,
    /// how many parts, and how often the source had been asked when the drain began.
    Piped { first: u64 },
}

/// How a dump is to end. What is out is a beginning of the text.
#[derive(Clone, Copy)]
pub enum Wanted {
    /// All bytes are out, and this is their number.
    Done(u64),
    /// This number of bytes is out, and the outlet failed.
    Failed(u64),
    /// The number of bytes that are out lies between these two or is one of them, and the dump was cancelled.
    Cancelled(u64, u64),
}

/// A dump, what another thread is to note of it, and how it is to end.
#[derive(Clone, Copy)]
pub struct Case {
    pub way: Way,
    pub noted: Noted,
    pub wanted: Wanted,
}

/// A pin of a shared heap that is dumped, and the text of its dump.
#[derive(Drop)]
pub struct PinnedText<'a, L: Heap, R: Wait> {
    pub rt: &'a R,
    pub alloc: Global,
    pub shared: &'a Shared<L>,
    pub pin: u64,
    pub text: &'a [u8],
}

/// The seats of a meter by which a dump is asked to be cancelled, and its progress is read.
#[derive(Drop)]
pub struct MeterWatch<'m> {
    pub meter: &'m Meter,
    pub asker: AskSeat,
    pub reader: ReadSeat,
    ghost asks: { asker.meter ≡ meter.now },
    ghost reads: { reader.meter ≡ meter.now },
}

/// Makes `points` points, each in the first register, and dumps them. Returns whether each dump goes as it must. The text of one
/// point is given by hand, and of more by a pump.
pub fn dumps_go<L: Heap + Send + Sync, R: Threads + Wait + Sync>(
    stage: &Stage<'_, L, R>,
    user: &mut Seat<L>,
    mutator: &mut Seat<L>,
    points: u64,
    cases: &[Case],
) -> bool {
    if !has_points(stage, user, points) {
        return false;
    }
    if points == 1 {
        return all_go(stage, mutator, ONE_POINT, cases);
    }
    all_go_as_pumped(stage, mutator, cases)
}

// Returns whether each of these dumps goes as it must, one after the other.
fn all_go<L: Heap + Send + Sync, R: Threads + Wait + Sync>(
    stage: &Stage<'_, L, R>,
    mutator: &mut Seat<L>,
    text: &[u8],
    cases: &[Case],
) -> bool {
    for case in cases {
        if !goes(stage, mutator, text, case) {
            return false;
        }
    }
    true
}

// Opens a pin, dumps it and closes it. Returns whether the dump goes as it must.
fn goes<L: Heap + Send + Sync, R: Threads + Wait + Sync>(
    stage: &Stage<'_, L, R>,
    mutator: &mut Seat<L>,
    text: &[u8],
    case: &Case,
) -> bool {
    let (rt, alloc, shared) = (stage.rt, stage.alloc, stage.shared);
    let Some(pin) = opened_pin(rt, shared) else {
        return false;
    };
    let at = PinnedText {
        rt,
        alloc,
        shared,
        pin,
        text,
    };
    let went = dumped(&at, mutator, case.way);
    closes_pin(rt, shared, pin);
    match went {
        Some((noted, seen)) => noted == case.noted && is_wanted(case.wanted, seen),
        None => false,
    }
}

// Dumps a pin, with a new meter. None if there is no meter or no pipe.
fn dumped<L: Heap + Send + Sync, R: Threads + Wait + Sync>(
    at: &PinnedText<'_, L, R>,
    mutator: &mut Seat<L>,
    way: Way,
) -> Option<(Noted, Seen)> {
    let Ok(mut made) = Meter::new(at.alloc, 1) else {
        return None;
    };
    let Some(reader) = made.readers.pop() else {
        unreachable!();
    };
    let (asker, out, feed) = (made.asker, made.out, made.feed);
    let meter = &made.meter;
    let seats = StreamSeats { meter, out, feed };
    let watch = MeterWatch {
        meter,
        asker,
        reader,
    };
    dumped_by(at, mutator, seats, watch, way)
}

// Dumps a pin by the seats of a meter. None if there is no pipe.
fn dumped_by<L: Heap + Send + Sync, R: Threads + Wait + Sync>(
    at: &PinnedText<'_, L, R>,
    mutator: &mut Seat<L>,
    seats: StreamSeats<'_>,
    watch: MeterWatch<'_>,
    way: Way,
) -> Option<(Noted, Seen)>
    requires { seats.out.known ≡ 0 }
{
    match way {
        Way::Asking { turn } => Some(pumped_asking(at, seats, watch, turn)),
        Way::Alone { asked, room } => Some(streamed_alone(at, seats, watch, asked, room)),
        Way::Held(beside) => Some(streamed_beside(at, mutator, seats, watch, beside)),
        Way::Piped { first } => piped(at, seats, first),
    }
}

// Returns whether a dump ended as it was to.
fn is_wanted(wanted: Wanted, (pumped, taken, is_text): Seen) -> bool {
    let bytes = taken as u64;
    is_text
        && match wanted {
            Wanted::Done(all) => bytes == all && pumped == Pumped::Done { bytes },
            Wanted::Failed(all) => bytes == all && pumped == Pumped::OutletFailed { bytes },
            Wanted::Cancelled(least, most) => {
                least <= bytes && bytes <= most && pumped == Pumped::Cancelled { bytes }
            }
        }
}

// Returns whether each of these dumps goes as it must, where the text is what a pump puts out.
fn all_go_as_pumped<L: Heap + Send + Sync, R: Threads + Wait + Sync>(
    stage: &Stage<'_, L, R>,
    mutator: &mut Seat<L>,
    cases: &[Case],
) -> bool {
    match pumped_text(stage) {
        Some(text) => all_go(stage, mutator, text.as_slice(), cases),
        None => false,
    }
}
