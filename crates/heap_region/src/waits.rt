//! Which regions wait to be swept, and the lowest of them.
ghost use Rattle.std.specs.Prelude.{◌≡◌, ◌<◌, ◌≤◌, length, map, replicate, slice_set, true, IfOk};
ghost use Rattle.memchr.specs.Find.{IsFirstByte, is_byte};
ghost use Rattle.heap_region.specs.Limits.{region_limit};
ghost use Rattle.heap_region.specs.Waits.{wait_turned};

use crate::region_classes::RegionClasses;
use std::alloc::{AllocError, Global};
use std::marker::Model;

// The class of a region that waits to be swept.
pub(crate) const WAITING: u8 = 1;

// The class of a region in use that doesn't wait to be swept. An empty region has class 0.
pub(crate) const SETTLED: u8 = 2;

// For each region its class by whether it waits to be swept. Contracts see the classes.
#[derive(Drop)]
pub(crate) struct Waits {
    classes: RegionClasses,
    // Whether the classes of regions in use are read as the other.
    odd: bool,
}

impl Model for Waits {
    ghost use Rattle.std.specs.Prelude.{ℕ, List, map};
    ghost use Rattle.heap_region.specs.Waits.{wait_turned};

    ghost Value = { List ℕ };

    ghost view = { λ w. map (wait_turned w.odd) w.classes };
}

// Returns the class that is kept or read, if the other is read or kept.
#[inline(always)]
fn class_read(odd: bool, class: u8) -> u8
    ensures value { result ≡ wait_turned odd class }
    ensures limit { 1 ≤ class → 1 ≤ result }
{
    if odd {
        if class == WAITING {
            SETTLED
        } else if class == SETTLED {
            WAITING
        } else {
            class
        }
    } else {
        class
    }
}

impl Waits {
    // Creates a table of regions of class 0. Fails if the allocation fails.
    pub(crate) fn new(alloc: Global, count: usize) -> Result<Waits, AllocError>
        requires { count ≤ region_limit }
        ensures { IfOk result (λ w. w ≡ replicate count 0) }
    {
        Ok(Waits {
            classes: RegionClasses::new(alloc, count)?,
            odd: false,
        })
    }

    // Returns the lowest region that waits to be swept.
    pub(crate) fn first(&self) -> Option<usize>
        ensures { IsFirstByte (is_byte 1) self.now result }
    {
        self.classes.find(class_read(self.odd, WAITING))
    }

    // Sets the class of a region.
    #[inline(always)]
    pub(crate) fn set(&mut self, region: usize, class: u8)
        requires { region < length self.old }
        ensures { self.new ≡ slice_set self.old region class }
    {
        self.classes.set(region, class_read(self.odd, class));
    }

    // Has each region in use wait if it didn't, and not wait if it did.
    pub(crate) fn turn(&mut self)
        ensures { self.new ≡ map (wait_turned true) self.old }
    {
        self.odd = !self.odd;
    }
}
