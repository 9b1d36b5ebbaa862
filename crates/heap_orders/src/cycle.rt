//! The steps of `collect`, and its answer.
ghost use Rattle.std.specs.Prelude.{◌≡◌, Bool, false, Some, [], IfErr, IfOk, OnErr};
ghost use Rattle.heap_mark.specs.MarkSteps.{pending_regions};
ghost use Rattle.session_text.specs.Replies.{line_answer_text};
ghost use Rattle.question_words.specs.Appends.{ReturnsText};
ghost use Rattle.heap_orders.specs.Collections.{AreSwept, AreTaken, IsCycleAnswer, IsSwept, LeadOn, MarksLead, MayStop, MovesOn, RunsCycle, StopsAt, collected_text, condemned_of, ends_cycle, next_mark, swept_of, waiting_region};

use crate::steps::Steps;
use heap_class::Refusal;
use heap_mark::first_pending;
use heap_step::{Answer, Event};
use heap_trail::Reply;
use heap_world::World;
use question_words::{push_number, push_words};
use session_text::LineAnswer;
use std::alloc::Global;

/// What a cycle did. Contracts see the record itself.
#[derive(Clone, Copy)]
pub struct CycleCounts {
    /// The number of objects that it condemned.
    pub condemned: u64,
    /// The number of objects that the sweeps before and after it removed.
    pub swept: u64,
}

/// Runs a whole cycle, or finishes the one that runs, with sweeps before and after it. Takes no step that the heap's state doesn't
/// allow. The steps up to one that is refused stand, and its refusal is the error.
pub fn run_cycle<S: Steps>(steps: &mut S, by: &mut S::By) -> Result<CycleCounts, Refusal>
    requires { S.may by.old }
    ensures still { S.may by.new }
    ensures runs { AreTaken (S.since steps.old by.old)
        (λ taken. RunsCycle S.denies (S.seen steps.old) taken result (S.seen steps.new))
        (S.since steps.new by.new) }
{
    let before = sweep_all(steps, by)?;
    let condemned = mark_cycle(steps, by)?;
    let after = sweep_all(steps, by)?;
    Ok(CycleCounts {
        condemned,
        swept: before + after,
    })
}

// Sweeps each region that waits, by rising number, and returns the number of objects that this removed.
fn sweep_all<S: Steps>(steps: &mut S, by: &mut S::By) -> Result<u64, Refusal>
    requires { S.may by.old }
    ensures still { S.may by.new }
    ensures swept { IfOk result (λ n. AreTaken (S.since steps.old by.old)
        (λ taken. AreSwept (S.seen steps.old) taken n (S.seen steps.new))
        (S.since steps.new by.new)) }
    ensures refused { IfErr result (λ e. AreTaken (S.since steps.old by.old)
        (λ taken. (b : Bool) → StopsAt S.denies b (S.seen steps.old) taken e (S.seen steps.new))
        (S.since steps.new by.new)) }
{
    // Its contract says that the heap is legal.
    steps.machine().world();
    let mut swept = 0;
    while let Some(region) = waiting_region(steps) {
        let removed = sweep_region(steps, by, region)?;
        swept += removed;
    }
    Ok(swept)
}

// Returns the lowest region that waits to be swept.
fn waiting_region<S: Steps>(steps: &S) -> Option<u64>
    ensures { result ≡ waiting_region (S.seen steps.now).trail.current }
{
    first_pending(steps.machine().world().regions())
}

// Sweeps the lowest region that waits, and returns the number of objects that this removed.
fn sweep_region<S: Steps>(steps: &mut S, by: &mut S::By, region: u64) -> Result<u64, Refusal>
    requires may { S.may by.old }
    requires waiting { waiting_region (S.seen steps.old).trail.current ≡ Some region }
    ensures still { S.may by.new }
    ensures swept { IfOk result (λ n. AreTaken (S.since steps.old by.old)
        (λ taken. IsSwept (S.seen steps.old) taken n (S.seen steps.new))
        (S.since steps.new by.new)) }
    ensures refused { IfErr result (λ e. (b : Bool) → MayStop S.denies b (S.seen steps.old) e) }
    ensures unchanged { OnErr result ((S.seen steps.new ≡ S.seen steps.old)
        × LeadOn (S.since steps.old by.old) [] (S.since steps.new by.new)) }
{
    // Its contract says that the heap is legal.
    steps.machine().world();
    let answer = steps.take(by, Event::Sweep { region })?;
    Ok(swept_of(answer))
}

// Returns the number of objects that an answer says were removed.
fn swept_of(answer: Answer) -> u64
    ensures { result ≡ swept_of answer }
{
    match answer {
        Answer::Swept { dead, .. } => dead,
        _ => 0,
    }
}

// Begins a cycle, unless one runs, and marks and drains until nothing is left, and finishes it. Returns the number of condemned
// objects.
fn mark_cycle<S: Steps>(steps: &mut S, by: &mut S::By) -> Result<u64, Refusal>
    requires may { S.may by.old }
    requires swept { pending_regions (S.seen steps.old).trail.current.regions ≡ [] }
    ensures still { S.may by.new }
    ensures marked { IfOk result (λ n. AreTaken (S.since steps.old by.old)
        (λ taken. MarksLead (S.seen steps.old) taken n (S.seen steps.new))
        (S.since steps.new by.new)) }
    ensures refused { IfErr result (λ e. AreTaken (S.since steps.old by.old)
        (λ taken. StopsAt S.denies false (S.seen steps.old) taken e (S.seen steps.new))
        (S.since steps.new by.new)) }
{
    loop {
        let condemned = take_mark(steps, by)?;
        match condemned {
            Some(count) => return Ok(count),
            None => {}
        }
    }
}

// Takes the marker's next step. Returns the number of condemned objects if that is the finish.
fn take_mark<S: Steps>(steps: &mut S, by: &mut S::By) -> Result<Option<u64>, Refusal>
    requires may { S.may by.old }
    requires swept { pending_regions (S.seen steps.old).trail.current.regions ≡ [] }
    ensures still { S.may by.new }
    ensures taken { IfOk result (λ end. AreTaken (S.since steps.old by.old)
        (λ taken. MovesOn (S.seen steps.old) taken end (S.seen steps.new))
        (S.since steps.new by.new)) }
    ensures refused { IfErr result (MayStop S.denies false (S.seen steps.old)) }
    ensures unchanged { OnErr result ((S.seen steps.new ≡ S.seen steps.old)
        × LeadOn (S.since steps.old by.old) [] (S.since steps.new by.new)) }
{
    let event = next_mark_on(steps);
    let is_last = ends_cycle(&event);
    let answer = steps.take(by, event)?;
    if !is_last {
        return Ok(None);
    }
    Ok(Some(condemned_of(answer)))
}

// Returns the marker's next step on a heap.
fn next_mark_on<S: Steps>(steps: &S) -> Event
    ensures { result ≡ next_mark (S.seen steps.now).trail.current }
{
    next_mark(steps.machine().world())
}

// Returns the marker's next step.
#[tactic(auto, unfolding(crate::specs::Collections::next_mark))]
fn next_mark(world: &World) -> Event
    ensures { result ≡ next_mark world.now }
{
    if !world.phase().is_marking() {
        return Event::Snap;
    }
    if !world.gray().is_empty() {
        return Event::Mark;
    }
    if world.drain_count() < world.log().len() as u64 {
        return Event::Drain;
    }
    Event::Finish
}

// Tells whether an event ends a cycle.
fn ends_cycle(event: &Event) -> bool
    ensures { result ≡ ends_cycle event.now }
{
    matches!(event, Event::Finish)
}

// Returns the number of objects that an answer says were condemned.
fn condemned_of(answer: Answer) -> u64
    ensures { result ≡ condemned_of answer }
{
    match answer {
        Answer::Condemned(count) => count,
        _ => 0,
    }
}

/// Returns the answer of `collect` about a cycle that ended so.
pub fn collect_answer(alloc: Global, cycle: Result<CycleCounts, Refusal>) -> LineAnswer
    ensures { IsCycleAnswer cycle (line_answer_text result) }
{
    match cycle {
        Ok(counts) => match cycle_line(alloc, counts) {
            Ok(text) => LineAnswer::Text(text),
            Err(refusal) => LineAnswer::Known(Reply::Refused(refusal)),
        },
        Err(refusal) => LineAnswer::Known(Reply::Refused(refusal)),
    }
}

// Returns the line of a whole cycle. Fails with NoMemory.
fn cycle_line(alloc: Global, counts: CycleCounts) -> Result<Vec<u8>, Refusal>
    ensures { ReturnsText (λ text. text ≡ collected_text counts.condemned counts.swept) result }
{
    let mut text = Vec::new(alloc);
    push_words(&mut text, b"ok condemned")?;
    push_number(&mut text, counts.condemned)?;
    push_words(&mut text, b" swept")?;
    push_number(&mut text, counts.swept)?;
    push_words(&mut text, b"\n")?;
    Ok(text)
}
