//! Pumps that are cancelled between two parts.
use super::dumps::{Case, MeterWatch, Noted, PinnedText, Seen, Wanted, Way};
use super::scenes::{Scene, play_scene};
use super::shared::pump_into;
use super::sinks::{Flags, Sink};
use super::sources::AskingSource;
use dump_pipe::Cancellable;
use heap_lock::{Dumper, Heap, LockedSource};
use shared_dump::StreamSeats;
use std::sync::Wait;
use std::test::*;

/// Pumps a pin from a source that can be cancelled and is taken to have given `turn` parts: it asks to cancel before the second,
/// if that is to come.
pub fn pumped_asking<L: Heap, R: Wait>(
    at: &PinnedText<'_, L, R>,
    seats: StreamSeats<'_>,
    watch: MeterWatch<'_>,
    turn: u64,
) -> (Noted, Seen) {
    let (rt, shared) = (at.rt, at.shared);
    let StreamSeats {
        meter,
        out: _,
        feed,
    } = seats;
    let MeterWatch {
        meter: asked,
        mut asker,
        reader: _,
    } = watch;
    let mut source = Cancellable {
        source: AskingSource {
            source: LockedSource::new(Dumper::new(shared, rt, shared.witness(rt)), at.pin, 0),
            cancel: asked.cancel(),
            seat: &mut asker,
            turn,
        },
        cancel: meter.cancel(),
        seat: feed,
    };
    let flags = Flags::new();
    let seen = pump_into(&mut source, Sink::new(at.text, &flags));
    ((true, 0, 0), seen)
}

// One that is cancelled after two parts, and one that never is.
const TWO: &[Case] = &[
    Case {
        way: Way::Asking { turn: 0 },
        noted: (true, 0, 0),
        wanted: Wanted::Cancelled(292, 292),
    },
    Case {
        way: Way::Asking { turn: 2 },
        noted: (true, 0, 0),
        wanted: Wanted::Done(301),
    },
];

#[test]
fn pump_cancelled(rt: HostRuntime) -> Result<(), Fail> {
    assert!(rt; play_scene(&rt, rt.alloc(), Scene::Dumps(1, TWO)));
    Ok(())
}
