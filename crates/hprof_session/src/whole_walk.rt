//! A walk over the whole of a dump.
ghost use Rattle.std.specs.Prelude.{◌≡◌, ◌+◌, ◌<◌, ◌^◌, None};
ghost use Rattle.hprof_session.specs.Surveys.{IsSurvey, bytes_left};
ghost use Rattle.hprof_session.specs.Walks.{left};

use crate::walk::{Walk, item_at};
use hprof_reader::Fault;

/// What a walk over the whole of a dump came to.
#[derive(Clone, Copy, PartialEq, Eq, Debug)]
pub struct Survey {
    /// The number of records and sub-records before the end or the first fault.
    pub items: u64,
    /// The place of the end or of the first fault.
    pub place: u64,
    /// Why no whole record or sub-record is there, or None at the end of the dump.
    pub fault: Option<Fault>,
}

/// Walks over all that is left of a dump, whose first byte that is left has this place. Takes time for each record and
/// sub-record, and for each constant and static field of a class.
pub fn walk_over(walk: Walk<'_>, place: u64) -> Survey
    requires { place + bytes_left (left walk) < 2 ^ 64 }
    ensures { IsSurvey (left walk.entry) place result }
{
    let size = bytes_left(walk);
    let mut at = walk;
    let mut items = 0;
    for _ in 0..size {
        match item_at(at) {
            Ok(Some(next)) => {
                at = next.1;
                items += 1;
            }
            Ok(None) => return at_end(items, place + size),
            Err(fault) => {
                let place = place + (size - bytes_left(at));
                let fault = Some(fault);
                return Survey {
                    items,
                    place,
                    fault,
                };
            }
        }
    }
    at_end(items, place + size)
}

// Returns how many bytes are left.
fn bytes_left(walk: Walk<'_>) -> u64
    ensures { result ≡ bytes_left (left walk.entry) }
{
    walk.segment.len() as u64 + walk.rest.len() as u64
}

// Returns a survey that came to the end.
fn at_end(items: u64, place: u64) -> Survey
    ensures { result ≡ record { items = items; place = place; fault = None } }
{
    let fault = None;
    Survey {
        items,
        place,
        fault,
    }
}
