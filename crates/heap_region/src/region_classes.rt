//! A class for each region, and the lowest region of each class.
ghost use Rattle.std.specs.Prelude.{◌≡◌, ◌<◌, ◌≤◌, length, replicate, slice_index, slice_set, IfOk};
ghost use Rattle.memchr.specs.Find.{IsFirstByte, is_byte};
ghost use Rattle.heap_region.specs.Limits.{region_limit};
ghost use Rattle.heap_region.specs.Table.{IsLowest};

use memchr::memchr;
use std::alloc::{AllocError, Global};
use std::marker::Model;

// The number of classes that a byte can be. At most 6 of them are used.
const CLASSES: usize = 256;

// For each region its class, and for each class but 0 the lowest region that has it, or the number of regions. Nobody asks for
// the lowest region of class 0. Contracts see the classes.
#[derive(Drop)]
pub(crate) struct RegionClasses {
    classes: Vec<u8>,
    lowest: [u32; CLASSES],
}

impl Model for RegionClasses {
    ghost use Rattle.std.specs.Prelude.{◌≤◌, ℕ, List, length};
    ghost use Rattle.heap_region.specs.Limits.{region_limit};
    ghost use Rattle.heap_region.specs.Table.{AreLowest};

    ghost Value = { List ℕ };

    ghost view = { λ f. f.classes.items };

    ghost invariant = { λ f. (length f.classes.items ≤ region_limit)
        × AreLowest f.classes.items f.lowest };
}

// Returns the lowest region from this one on that has a class, or the number of regions. Class 0 isn't searched for.
fn lowest_from(classes: &[u8], from: usize, class: u8) -> usize
    requires { from ≤ length classes.now }
    ensures value { 1 ≤ class → IsLowest classes.now class from result }
    ensures limit { result ≤ length classes.now }
{
    if class == 0 {
        return from;
    }
    match memchr(class, &classes[from..]) {
        Some(behind) => from + behind,
        None => classes.len(),
    }
}

impl RegionClasses {
    // Creates a table of regions of class 0. Fails if the allocation fails.
    pub(crate) fn new(alloc: Global, count: usize) -> Result<RegionClasses, AllocError>
        requires { count ≤ region_limit }
        ensures { IfOk result (λ f. f ≡ replicate count 0) }
    {
        Ok(RegionClasses {
            classes: vec![in alloc; 0; count]?,
            lowest: [count as u32; CLASSES],
        })
    }

    // Returns the lowest region of this class.
    #[inline(always)]
    pub(crate) fn find(&self, class: u8) -> Option<usize>
        requires { 1 ≤ class }
        ensures { IsFirstByte (is_byte class) self.now result }
    {
        let lowest = self.lowest[class as usize] as usize;
        if lowest < self.classes.len() {
            Some(lowest)
        } else {
            None
        }
    }

    // Sets the class of a region.
    #[inline(always)]
    pub(crate) fn set(&mut self, region: usize, class: u8)
        requires { region < length self.old }
        ensures { self.new ≡ slice_set self.old region class }
    {
        let was = self.classes[region];
        if was != class {
            self.change(region, was, class);
        }
    }

    // Sets the class of a region, which had another.
    #[inline(never)]
    fn change(&mut self, region: usize, was: u8, class: u8)
        requires there { region < length self.old }
        requires was { slice_index self.old region ≡ was }
        ensures { self.new ≡ slice_set self.old region class }
    {
        self.classes[region] = class;
        let place = region as u32;
        if self.lowest[was as usize] == place {
            self.lowest[was as usize] = lowest_from(&self.classes, region, was) as u32;
        }
        if self.lowest[class as usize] > place {
            self.lowest[class as usize] = place;
        }
    }
}
