//! The answer of `status`.
ghost use Rattle.std.specs.Prelude.{◌≡◌, ◌+◌, ◌-◌, ◌++◌, codes, flat_map, length};
ghost use Rattle.heap_mark.specs.MarkSteps.{pending_regions};
ghost use Rattle.session_text.specs.Replies.{and_number};
ghost use Rattle.question_words.specs.Appends.{Appends, ReturnsText};
ghost use Rattle.question_words.specs.Moments.{told_text};
ghost use Rattle.question_words.specs.Rows.{count_text};
ghost use Rattle.question_rows.specs.Statuses.{IsStatusText, chronicle_facts, collector_facts, fact_text, phase_word, status_text, trail_facts};

use heap_class::Refusal;
use heap_mark::Phase;
use heap_trail::Machine;
use heap_world::World;
use question_words::{Unanswered, push_count, push_number, push_words};
use std::alloc::{AllocError, Global};

/// Returns the answer of `status`. Fails with NoMemory if an allocation fails. Looks at each region once.
pub fn status_answer(
    alloc: Global,
    machine: &Machine,
    acts: Option<u64>,
) -> Result<Vec<u8>, Unanswered>
    ensures { IsStatusText machine.now acts (told_text result) }
{
    Ok(status_text(alloc, machine, acts)?)
}

// Returns the lines of the facts about a machine, which may have a chronicle of this length. Fails with NoMemory.
fn status_text(alloc: Global, machine: &Machine, acts: Option<u64>) -> Result<Vec<u8>, Refusal>
    ensures { ReturnsText (λ text. text ≡ status_text machine.now acts) result }
{
    let mut text = Vec::new(alloc);
    push_trail(&mut text, machine)?;
    push_collector(&mut text, machine.world())?;
    push_acts(&mut text, acts)?;
    Ok(text)
}

// Appends the rows of the place and of the number of the retained steps. Fails if an allocation fails.
fn push_trail(text: &mut Vec<u8>, machine: &Machine) -> Result<(), AllocError>
    ensures { Appends (flat_map fact_text (trail_facts machine.now.trail))
        text.old.items text.new.items result }
{
    push_fact(text, b"place", machine.place())?;
    push_fact(text, b"retained", machine.retained_count())
}

// Appends the row of a number with this name. Fails if an allocation fails.
fn push_fact(text: &mut Vec<u8>, name: &[u8], n: u64) -> Result<(), AllocError>
    ensures { Appends (fact_text (name.now ++ and_number n)) text.old.items text.new.items result }
{
    push_words(text, b"row ")?;
    push_words(text, name)?;
    push_number(text, n)?;
    push_words(text, b"\n")
}

// Appends the rows of the collector. Fails if an allocation fails.
fn push_collector(text: &mut Vec<u8>, world: &World) -> Result<(), AllocError>
    ensures { Appends (flat_map fact_text (collector_facts world.now))
        text.old.items text.new.items result }
{
    push_phase(text, world.phase())?;
    push_fact(text, b"gray", gray_count(world))?;
    push_fact(text, b"undrained", undrained_count(world))?;
    push_fact(text, b"unswept", unswept_count(world))?;
    push_fact(text, b"regions", world.regions().count())
}

// Appends the row of a phase. Fails if an allocation fails.
fn push_phase(text: &mut Vec<u8>, phase: Phase) -> Result<(), AllocError>
    ensures { Appends (fact_text (codes "phase " ++ phase_word phase))
        text.old.items text.new.items result }
{
    match phase {
        Phase::Idle => push_words(text, b"row phase idle\n"),
        Phase::Marking => push_words(text, b"row phase marking\n"),
    }
}

// Returns how many objects are gray.
fn gray_count(world: &World) -> u64
    ensures { result ≡ length world.now.gray }
{
    world.gray().len() as u64
}

// Returns how many entries of the log aren't drained.
fn undrained_count(world: &World) -> u64
    ensures { result ≡ length world.now.log - world.now.drained }
{
    world.log().len() as u64 - world.drain_count()
}

// Returns how many regions wait to be swept.
fn unswept_count(world: &World) -> u64
    ensures { result ≡ length (pending_regions world.now.regions) }
{
    let regions = world.regions();
    let mut count = 0;
    for region in 0..regions.count() {
        if regions.pending(region).unwrap_or(false) {
            count += 1;
        }
    }
    count
}

// Appends the row of a chronicle's length, if there is one, and the last line. Fails if an allocation fails.
fn push_acts(text: &mut Vec<u8>, acts: Option<u64>) -> Result<(), AllocError>
    ensures { Appends (flat_map fact_text (chronicle_facts acts)
        ++ count_text (7 + length (chronicle_facts acts)))
        text.old.items text.new.items result }
{
    match acts {
        Some(count) => {
            push_fact(text, b"acts", count)?;
            push_count(text, 8)
        }
        None => push_count(text, 7),
    }
}
