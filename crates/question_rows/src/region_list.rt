//! The answer of `regions`.
ghost use Rattle.std.specs.Prelude.{◌≡◌, ◌+◌, ◌≤◌, flat_map, length, IfOk, List};
ghost use Rattle.heap_region.specs.Limits.{cell_limit};
ghost use Rattle.heap_world.specs.Regions.{Region};
ghost use Rattle.heap_trail.specs.Trail.{retained, state_ago};
ghost use Rattle.heap_questions.specs.Cells.{used_regions};
ghost use Rattle.heap_questions.specs.RegionSummaries.{HaveFew, summaries};
ghost use Rattle.question_words.specs.Appends.{Appends, ReturnsText};
ghost use Rattle.question_words.specs.Moments.{told_text};
ghost use Rattle.question_rows.specs.RegionLists.{IsRegionsText, and_objects, region_row, regions_text, summary_text, waits_words};

use heap_class::Refusal;
use heap_questions::{RegionCounts, RegionSummary, region_summaries};
use heap_trail::Machine;
use question_words::{At, Unanswered, ago_at, push_count, push_number, push_row, push_words};
use std::alloc::{AllocError, Global};

/// Returns the answer of `regions` about a retained state; a pin stands for its place. Fails with NotRetained if the state isn't
/// retained, with NoPin if no such pin is open, with Lost and its cause if the pin is lost, and with NoMemory if an allocation
/// fails. Looks at each cell of the current state once, and reads each record since the state that it is about once.
pub fn regions_answer(alloc: Global, machine: &Machine, at: At) -> Result<Vec<u8>, Unanswered>
    ensures { IsRegionsText at machine.now (told_text result) }
{
    let ago = ago_at(machine, at)?;
    Ok(regions_text(alloc, machine, ago)?)
}

// Returns the lines of the regions in use in the state of `ago` steps ago, and their number. Fails with NoMemory.
fn regions_text(alloc: Global, machine: &Machine, ago: u64) -> Result<Vec<u8>, Refusal>
    requires { ago ≤ retained machine.now.trail }
    ensures { ReturnsText
        (λ text. text ≡ regions_text (state_ago ago machine.now.trail).regions) result }
{
    let all = region_summaries(alloc, machine, ago)?;
    let mut text = Vec::new(alloc);
    let count = push_regions(&mut text, all.as_slice())?;
    push_count(&mut text, count)?;
    Ok(text)
}

// Appends the lines of the regions in use, and returns their number. Fails if an allocation fails.
fn push_regions(text: &mut Vec<u8>, all: &[Option<RegionSummary>]) -> Result<u64, AllocError>
    requires { HaveFew all.now }
    ensures appended { (regions : List Region) → all.now ≡ summaries regions
        → Appends (flat_map (region_row regions) (used_regions regions))
        text.old.items text.new.items result }
    ensures count { (regions : List Region) → all.now ≡ summaries regions
        → IfOk result (λ n. n ≡ length (used_regions regions)) }
{
    let mut count = 0;
    for region in 0..all.len() {
        if let Some(summary) = all[region] {
            push_region(text, region as u64, summary)?;
            count += 1;
        }
    }
    Ok(count)
}

// Appends the line of a region in use. Fails if an allocation fails.
#[tactic(auto, unfolding(crate::specs::RegionLists::summary_text))]
fn push_region(text: &mut Vec<u8>, region: u64, summary: RegionSummary) -> Result<(), AllocError>
    requires { summary.counts.live + summary.counts.dead ≤ cell_limit }
    ensures { Appends (summary_text region summary) text.old.items text.new.items result }
{
    push_row(text, region)?;
    push_number(text, summary.cell_size)?;
    push_objects(text, summary.counts)?;
    push_waits(text, summary.waits)
}

// Appends how many objects there are, how many of them are live, and how many aren't. Fails if an allocation fails.
fn push_objects(text: &mut Vec<u8>, counts: RegionCounts) -> Result<(), AllocError>
    requires { counts.live + counts.dead ≤ cell_limit }
    ensures { Appends (and_objects counts) text.old.items text.new.items result }
{
    push_number(text, counts.live + counts.dead)?;
    push_number(text, counts.live)?;
    push_number(text, counts.dead)
}

// Appends whether a region waits to be swept, and the end of its line. Fails if an allocation fails.
fn push_waits(text: &mut Vec<u8>, waits: bool) -> Result<(), AllocError>
    ensures { Appends (waits_words waits) text.old.items text.new.items result }
{
    if waits {
        push_words(text, b" waits\n")
    } else {
        push_words(text, b" -\n")
    }
}
