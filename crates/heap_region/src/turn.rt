//! Quarter turns: how the two bits that are kept of each object of a region are read.
ghost use Rattle.std.specs.Prelude.{◌≡◌, if◌then◌else◌};
ghost use Rattle.heap_region.specs.Layout.{with_bit};
ghost use Rattle.heap_region.specs.TurnedHeaders.{flipped, shown_header, turned_header, turned_back_header};
ghost use Rattle.heap_region.specs.declared.cell.Header.{Header};

use crate::cell::{Bit, Header};

// How the two bits that are kept of each object are read as `live` and `mark`: each where it is kept or where the other is, and
// as it is kept or as its opposite. So all objects of a region are changed at once.
#[derive(Clone, Copy)]
pub(crate) struct Turn {
    // Whether each bit is read where the other is kept.
    swapped: bool,
    // Whether `live` is the opposite of the bit that is read.
    live_flipped: bool,
    // Whether `mark` is the opposite of the bit that is read.
    mark_flipped: bool,
}

// Returns the bit, or its opposite.
#[inline(always)]
fn flipped(is_flipped: bool, bit: bool) -> bool
    ensures { result ≡ flipped is_flipped bit }
{
    if is_flipped { !bit } else { bit }
}

impl Turn {
    // Returns the turn at which each bit is read as it is kept.
    pub(crate) fn start() -> Turn
        ensures { (h : Header) → shown_header result h ≡ h }
    {
        Turn {
            swapped: false,
            live_flipped: false,
            mark_flipped: false,
        }
    }

    // Returns the next turn: at it an object is live if it is marked at this one, and marked if it isn't live at this one.
    pub(crate) fn next(self) -> Turn
        ensures { (h : Header) → shown_header result h ≡ turned_header (shown_header self h) }
    {
        Turn {
            swapped: !self.swapped,
            live_flipped: self.mark_flipped,
            mark_flipped: !self.live_flipped,
        }
    }

    // Returns the turn before: at it an object is live if it isn't marked at this one, and marked if it is live at this one.
    pub(crate) fn prior(self) -> Turn
        ensures { (h : Header) → shown_header result h ≡ turned_back_header (shown_header self h) }
    {
        Turn {
            swapped: !self.swapped,
            live_flipped: !self.mark_flipped,
            mark_flipped: self.live_flipped,
        }
    }

    // Returns the header that a kept one shows.
    #[inline(always)]
    pub(crate) fn shown(self, kept: Header) -> Header
        ensures { result ≡ shown_header self kept }
    {
        let (live, mark) = if self.swapped {
            (kept.mark, kept.live)
        } else {
            (kept.live, kept.mark)
        };
        Header {
            kind: kept.kind,
            len: kept.len,
            live: flipped(self.live_flipped, live),
            mark: flipped(self.mark_flipped, mark),
        }
    }

    // Returns the header to keep, so that this one is shown.
    #[inline(always)]
    pub(crate) fn kept(self, shown: Header) -> Header
        ensures value { shown_header self result ≡ shown }
        ensures len { result.len ≡ shown.len }
    {
        let live = flipped(self.live_flipped, shown.live);
        let mark = flipped(self.mark_flipped, shown.mark);
        let (live, mark) = if self.swapped {
            (mark, live)
        } else {
            (live, mark)
        };
        Header {
            kind: shown.kind,
            len: shown.len,
            live,
            mark,
        }
    }

    // Returns the bit to keep, and its value, so that this one is shown.
    #[inline(always)]
    pub(crate) fn kept_bit(self, bit: Bit, on: bool) -> (Bit, bool)
        ensures { (h : Header) → shown_header self (with_bit result.0 result.1 h)
            ≡ with_bit bit on (shown_header self h) }
    {
        match bit {
            Bit::Live => {
                let place = if self.swapped { Bit::Mark } else { Bit::Live };
                (place, flipped(self.live_flipped, on))
            }
            Bit::Mark => {
                let place = if self.swapped { Bit::Live } else { Bit::Mark };
                (place, flipped(self.mark_flipped, on))
            }
        }
    }
}
