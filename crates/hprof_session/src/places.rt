//! Where the objects of a dump are kept while their heap is made.
ghost use Rattle.std.specs.Prelude.{◌≡◌, ◌++◌, [], OnOk, OnErr};
ghost use Rattle.session_lines.specs.EventLines.{line_of};
ghost use Rattle.hprof_session.specs.Places.{ArePlaces, array_events, fetch_events, keep_event, lines_of, place_events, top_events};

use heap_class::ClassNo;
use heap_step::Event;
use session_lines::Lines;
use std::alloc::AllocError;

// The number of slots of an array that keeps objects, and of one that keeps such arrays.
const WIDTH: u64 = 1024;

// The register of the array that keeps the object that is made.
const ARRAY: u64 = 4;

/// The register of the object that is made.
pub const MADE: u64 = 5;

/// The most objects that have a place.
pub const PLACES: u64 = 4_194_304;

/// States that each object below PLACES has a place of its own.
pub fn are_places()
    ensures { ArePlaces }
{}

/// Appends the lines that make the arrays for object n, of this class, if they aren't there. Fails if an allocation fails; then
/// all lines are dropped.
pub fn push_place(lines: &mut Lines, class: ClassNo, n: u64) -> Result<(), AllocError>
    ensures done { OnOk result (lines.new ≡ lines.old ++ lines_of (place_events class n)) }
    ensures failed { OnErr result (lines.new ≡ []) }
{
    push_top(lines, class, n)?;
    push_array(lines, class, n)
}

// Appends the line that makes the array of arrays for object n, if this is the first object that it is for.
fn push_top(lines: &mut Lines, class: ClassNo, n: u64) -> Result<(), AllocError>
    ensures done { OnOk result (lines.new ≡ lines.old ++ lines_of (top_events class n)) }
    ensures failed { OnErr result (lines.new ≡ []) }
{
    if n % (WIDTH * WIDTH) != 0 {
        return Ok(());
    }
    lines.push(&Event::NewArray {
        m: 0,
        r: n / (WIDTH * WIDTH),
        class,
        len: WIDTH,
    })
}

// Appends the lines that make the array for object n, if this is the first object that it is for.
fn push_array(lines: &mut Lines, class: ClassNo, n: u64) -> Result<(), AllocError>
    ensures done { OnOk result (lines.new ≡ lines.old ++ lines_of (array_events class n)) }
    ensures failed { OnErr result (lines.new ≡ []) }
{
    if n % WIDTH != 0 {
        return Ok(());
    }
    lines.push(&Event::NewArray {
        m: 0,
        r: ARRAY,
        class,
        len: WIDTH,
    })?;
    lines.push(&Event::Store {
        m: 0,
        target: n / (WIDTH * WIDTH),
        slot: n / WIDTH % WIDTH,
        source: ARRAY,
    })
}

/// Appends the line that keeps object n, which is the newest. Fails if an allocation fails; then all lines are dropped.
pub fn push_keep(lines: &mut Lines, n: u64) -> Result<(), AllocError>
    ensures done { OnOk result (lines.new ≡ lines.old ++ line_of (keep_event n)) }
    ensures failed { OnErr result (lines.new ≡ []) }
{
    lines.push(&Event::Store {
        m: 0,
        target: ARRAY,
        slot: n % WIDTH,
        source: MADE,
    })
}

/// Appends the lines that make a register name object n. Fails if an allocation fails; then all lines are dropped.
pub fn push_fetch(lines: &mut Lines, n: u64, register: u64) -> Result<(), AllocError>
    ensures done { OnOk result (lines.new ≡ lines.old ++ lines_of (fetch_events n register)) }
    ensures failed { OnErr result (lines.new ≡ []) }
{
    lines.push(&Event::Load {
        m: 0,
        to: ARRAY,
        from: n / (WIDTH * WIDTH),
        slot: n / WIDTH % WIDTH,
    })?;
    lines.push(&Event::Load {
        m: 0,
        to: register,
        from: ARRAY,
        slot: n % WIDTH,
    })
}
