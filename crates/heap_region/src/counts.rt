//! How many objects a region or a heap has, and of how many a bit isn't set.
ghost use Rattle.std.specs.Prelude.{◌≡◌, ◌+◌, ◌≤◌, Some, is_some};
ghost use Rattle.heap_region.specs.Limits.{object_limit};
ghost use Rattle.heap_region.specs.TurnedHeaders.{header_dead, header_unmarked, live_counted, mark_counted, one_if};

use crate::cell::{Bit, Header};

// The numbers of the objects of a region or of a heap, of those that aren't marked, and of those that aren't live.
#[derive(Clone, Copy)]
pub(crate) struct Counts {
    pub(crate) objects: u32,
    pub(crate) unmarked: u32,
    pub(crate) dead: u32,
}

// Returns 1 or 0.
#[inline(always)]
fn one_if(is_so: bool) -> u32
    ensures value { result ≡ one_if is_so }
    ensures limit { result ≤ 1 }
{
    if is_so { 1 } else { 0 }
}

impl Counts {
    // Returns the counts of no objects.
    pub(crate) fn none() -> Counts
        ensures objects { result.objects ≡ 0 }
        ensures unmarked { result.unmarked ≡ 0 }
        ensures dead { result.dead ≡ 0 }
    {
        Counts {
            objects: 0,
            unmarked: 0,
            dead: 0,
        }
    }

    // Returns the counts with one more object.
    #[inline(always)]
    pub(crate) fn with(self, header: Header) -> Counts
        requires objects { self.objects ≤ object_limit }
        requires unmarked { self.unmarked ≤ object_limit }
        requires dead { self.dead ≤ object_limit }
        ensures objects { result.objects ≡ self.objects + 1 }
        ensures unmarked { result.unmarked
            ≡ self.unmarked + one_if (header_unmarked (Some header)) }
        ensures dead { result.dead ≡ self.dead + one_if (header_dead (Some header)) }
    {
        Counts {
            objects: self.objects + 1,
            unmarked: self.unmarked + one_if(!header.mark),
            dead: self.dead + one_if(!header.live),
        }
    }

    // Returns the counts without an object, if there is one in its cell.
    #[inline(always)]
    pub(crate) fn without(self, header: Option<Header>) -> Counts
        requires objects { one_if (is_some header) ≤ self.objects }
        requires unmarked { one_if (header_unmarked header) ≤ self.unmarked }
        requires dead { one_if (header_dead header) ≤ self.dead }
        ensures objects { result.objects + one_if (is_some header) ≡ self.objects }
        ensures unmarked { result.unmarked + one_if (header_unmarked header) ≡ self.unmarked }
        ensures dead { result.dead + one_if (header_dead header) ≡ self.dead }
    {
        match header {
            Some(header) => Counts {
                objects: self.objects - 1,
                unmarked: self.unmarked - one_if(!header.mark),
                dead: self.dead - one_if(!header.live),
            },
            None => self,
        }
    }

    // Returns the counts after a bit of an object was written, which was `was`.
    #[inline(always)]
    pub(crate) fn with_bit(self, bit: Bit, was: bool, on: bool) -> Counts
        requires unmarked { self.unmarked ≤ object_limit }
        requires dead { self.dead ≤ object_limit }
        requires marks { mark_counted bit was ≤ self.unmarked }
        requires lives { live_counted bit was ≤ self.dead }
        ensures objects { result.objects ≡ self.objects }
        ensures unmarked { result.unmarked + mark_counted bit was
            ≡ self.unmarked + mark_counted bit on }
        ensures dead { result.dead + live_counted bit was ≡ self.dead + live_counted bit on }
    {
        match bit {
            Bit::Live => Counts {
                dead: self.dead + one_if(!on) - one_if(!was),
                ..self
            },
            Bit::Mark => Counts {
                unmarked: self.unmarked + one_if(!on) - one_if(!was),
                ..self
            },
        }
    }

    // Returns these counts and others.
    pub(crate) fn plus(self, other: Counts) -> Counts
        requires objects { self.objects + other.objects ≤ object_limit }
        requires unmarked { self.unmarked + other.unmarked ≤ object_limit }
        requires dead { self.dead + other.dead ≤ object_limit }
        ensures objects { result.objects ≡ self.objects + other.objects }
        ensures unmarked { result.unmarked ≡ self.unmarked + other.unmarked }
        ensures dead { result.dead ≡ self.dead + other.dead }
    {
        Counts {
            objects: self.objects + other.objects,
            unmarked: self.unmarked + other.unmarked,
            dead: self.dead + other.dead,
        }
    }

    // Returns these counts less others.
    pub(crate) fn less(self, other: Counts) -> Counts
        requires objects { other.objects ≤ self.objects }
        requires unmarked { other.unmarked ≤ self.unmarked }
        requires dead { other.dead ≤ self.dead }
        ensures objects { result.objects + other.objects ≡ self.objects }
        ensures unmarked { result.unmarked + other.unmarked ≡ self.unmarked }
        ensures dead { result.dead + other.dead ≡ self.dead }
    {
        Counts {
            objects: self.objects - other.objects,
            unmarked: self.unmarked - other.unmarked,
            dead: self.dead - other.dead,
        }
    }

    // Returns the counts after a turn.
    pub(crate) fn next(self) -> Counts
        requires { self.dead ≤ self.objects }
        ensures objects { result.objects ≡ self.objects }
        ensures unmarked { result.unmarked + self.dead ≡ self.objects }
        ensures dead { result.dead ≡ self.unmarked }
    {
        Counts {
            objects: self.objects,
            unmarked: self.objects - self.dead,
            dead: self.unmarked,
        }
    }

    // Returns the counts before a turn.
    pub(crate) fn prior(self) -> Counts
        requires { self.unmarked ≤ self.objects }
        ensures objects { result.objects ≡ self.objects }
        ensures unmarked { result.unmarked ≡ self.dead }
        ensures dead { result.dead + self.unmarked ≡ self.objects }
    {
        Counts {
            objects: self.objects,
            unmarked: self.dead,
            dead: self.objects - self.unmarked,
        }
    }
}
