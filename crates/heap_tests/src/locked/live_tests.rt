//! Dumps of a shared heap's pin while another thread acts, by `pump` and by `stream`.
use super::dumps::{Act, Beside, Case, Wanted, Way};
use super::scenes::{Scene, play_scene};
use std::test::*;

// A dump of one point, pumped while a mutator writes to it. It is that of its pin.
const PUMPED: &[Case] = &[Case {
    way: Way::Held(Beside {
        streams: false,
        held: 0,
        act: Act::Writes,
    }),
    noted: (true, 0, 0),
    wanted: Wanted::Done(301),
}];

// The same, streamed.
const STREAMED: &[Case] = &[Case {
    way: Way::Held(Beside {
        streams: true,
        held: 0,
        act: Act::Writes,
    }),
    noted: (true, 0, 0),
    wanted: Wanted::Done(301),
}];

// A stream of 2,000 points, whose dump has 66,412 bytes, and one that is cancelled in the middle.
const CUT: &[Case] = &[
    Case {
        way: Way::Alone {
            asked: false,
            room: usize::MAX,
        },
        noted: (true, 0, 0),
        wanted: Wanted::Done(66412),
    },
    Case {
        way: Way::Held(Beside {
            streams: true,
            held: 8000,
            act: Act::Asks,
        }),
        noted: (true, 0, 0),
        wanted: Wanted::Cancelled(8000, 66411),
    },
];

#[test]
fn gate_outlet_first_put(rt: HostRuntime) -> Result<(), Fail> {
    assert!(rt; play_scene(&rt, rt.alloc(), Scene::Dumps(1, PUMPED)));
    Ok(())
}

#[test]
fn gate_outlet_first_put_of_a_stream(rt: HostRuntime) -> Result<(), Fail> {
    assert!(rt; play_scene(&rt, rt.alloc(), Scene::Dumps(1, STREAMED)));
    Ok(())
}

#[test]
fn stream_cancelled_by_a_third_thread(rt: HostRuntime) -> Result<(), Fail> {
    assert!(rt; play_scene(&rt, rt.alloc(), Scene::Dumps(2000, CUT)));
    Ok(())
}
