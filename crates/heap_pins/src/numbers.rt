//! A number for each region, of which only what was written takes memory.
ghost use Rattle.std.specs.Prelude.{◌≡◌, ◌+◌, ◌*◌, ◌<◌, ◌≤◌, ◌++◌, ℕ, length, IfOk, replicate, slice_index_or, slice_set};
ghost use Rattle.std.specs.Vec.{vec_capacity};
ghost use Rattle.heap_region.specs.Limits.{region_limit};
ghost use Rattle.heap_pins.specs.Numbers.{ArePages, region_number};

use std::alloc::{AllocError, Global};
use std::marker::Model;

// How many regions a group has.
const PAGE: usize = 256;

// A number for each region, 0 at first. The numbers stand in groups of 256 regions, of which each is made once one of its
// numbers is written. So opening a table of all regions writes only one number a group.
#[derive(Drop)]
pub(crate) struct RegionNumbers {
    // How many regions there are.
    count: u64,
    // For each group one more than its index among the groups made, or 0 if it isn't made.
    pages: Vec<u32>,
    // The numbers of the groups made, one group after another.
    numbers: Vec<u32>,
}

impl Model for RegionNumbers {
    ghost use Rattle.std.specs.Prelude.{◌*◌, ◌≤◌, ℕ, List, length};
    ghost use Rattle.std.specs.Vec.{vec_capacity};
    ghost use Rattle.heap_region.specs.Limits.{region_limit};
    ghost use Rattle.heap_pins.specs.Numbers.{ArePages, region_numbers};

    ghost Value = { List ℕ };

    ghost view = { λ t. region_numbers t.pages.items t.numbers.items t.count };

    ghost invariant = { λ t. (t.count ≤ 256 * length t.pages.items)
        × ArePages t.pages.items t.numbers.items (vec_capacity t.numbers) };
}

impl RegionNumbers {
    // Creates a table of this many regions, each with 0. Fails if an allocation fails.
    pub(crate) fn new(alloc: Global, count: u64) -> Result<RegionNumbers, AllocError>
        requires { count ≤ region_limit }
        ensures { IfOk result (λ n. n ≡ replicate count 0) }
    {
        let page_count = count as usize / PAGE + 1;
        let pages = vec![in alloc; 0; page_count]?;
        let numbers = Vec::with_capacity(alloc, page_count * PAGE)?;
        Ok(RegionNumbers {
            count,
            pages,
            numbers,
        })
    }

    // Returns the number of a region.
    #[inline(always)]
    pub(crate) fn get(&self, region: u64) -> u32
        requires { region < length self.now }
        ensures { result ≡ slice_index_or self.now region 0 }
    {
        let region = region as usize;
        match self.pages[region / PAGE] {
            0 => 0,
            page => self.numbers[(page as usize - 1) * PAGE + region % PAGE],
        }
    }

    // Writes the number of a region. Takes no memory.
    pub(crate) fn set(&mut self, region: u64, number: u32)
        requires { region < length self.old }
        ensures { self.new ≡ slice_set self.old region number }
    {
        let region = region as usize;
        let start = page_start(&mut self.pages, &mut self.numbers, region / PAGE);
        self.numbers[start + region % PAGE] = number;
    }
}

// Returns where the numbers of a group begin, once it is made. Takes no memory.
#[inline(always)]
fn page_start(pages: &mut Vec<u32>, numbers: &mut Vec<u32>, page: usize) -> usize
    requires table { ArePages pages.old.items numbers.old.items (vec_capacity numbers.old) }
    requires page { page < length pages.old.items }
    ensures table { ArePages pages.new.items numbers.new.items (vec_capacity numbers.new) }
    ensures count { length pages.new.items ≡ length pages.old.items }
    ensures start { 256 * slice_index_or pages.new.items page 0 ≡ result + 256 }
    ensures same { (r : ℕ) → region_number pages.new.items numbers.new.items r
        ≡ region_number pages.old.items numbers.old.items r }
{
    match pages[page] {
        0 => add_page(pages, numbers, page),
        made => (made as usize - 1) * PAGE,
    }
}

// Makes a group, of which all numbers are 0, and returns where they begin. Takes no memory.
#[inline(never)]
fn add_page(pages: &mut Vec<u32>, numbers: &mut Vec<u32>, page: usize) -> usize
    requires table { ArePages pages.old.items numbers.old.items (vec_capacity numbers.old) }
    requires page { page < length pages.old.items }
    requires none { slice_index_or pages.old.items page 0 ≡ 0 }
    ensures table { ArePages pages.new.items numbers.new.items (vec_capacity numbers.new) }
    ensures count { length pages.new.items ≡ length pages.old.items }
    ensures start { 256 * slice_index_or pages.new.items page 0 ≡ result + 256 }
    ensures same { (r : ℕ) → region_number pages.new.items numbers.new.items r
        ≡ region_number pages.old.items numbers.old.items r }
{
    let start = numbers.len();
    push_page(numbers);
    pages[page] = (start / PAGE) as u32 + 1;
    start
}

// Appends the numbers of a group, which are all 0. Takes no memory.
fn push_page(numbers: &mut Vec<u32>)
    requires { length numbers.old.items + 256 ≤ vec_capacity numbers.old }
    ensures items { numbers.new.items ≡ numbers.old.items ++ replicate 256 0 }
    ensures capacity { vec_capacity numbers.new ≡ vec_capacity numbers.old }
{
    for i in 0..PAGE {
        numbers.push_reserved(0);
    }
}
