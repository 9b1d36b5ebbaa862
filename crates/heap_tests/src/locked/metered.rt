//! Dumps of a shared heap's pin that count their bytes by a meter: read, failing, and cancelled before they begin.
use super::dumps::{Act, Beside, Case, Wanted, Way};
use super::scenes::{Scene, play_scene};
use std::test::*;

// Streams of thirty points, whose dump has 1,258 bytes. A reader sees the 143 bytes of the opening while the stream is held after
// them, and all once it is done; the next is cancelled before it begins, and the third goes into a sink that fails. A pump after
// them is whole.
const METERED: &[Case] = &[
    Case {
        way: Way::Held(Beside {
            streams: true,
            held: 1,
            act: Act::Reads,
        }),
        noted: (true, 143, 1258),
        wanted: Wanted::Done(1258),
    },
    Case {
        way: Way::Alone {
            asked: true,
            room: usize::MAX,
        },
        noted: (true, 0, 0),
        wanted: Wanted::Cancelled(0, 0),
    },
    Case {
        way: Way::Alone {
            asked: false,
            room: 100,
        },
        noted: (true, 0, 0),
        wanted: Wanted::Failed(100),
    },
    Case {
        way: Way::Asking { turn: 2 },
        noted: (true, 0, 0),
        wanted: Wanted::Done(1258),
    },
];

#[test]
fn stream_with_progress_and_cancel(rt: HostRuntime) -> Result<(), Fail> {
    assert!(rt; play_scene(&rt, rt.alloc(), Scene::Dumps(30, METERED)));
    Ok(())
}
