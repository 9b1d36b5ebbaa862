//! Workers in one thread: a whole cycle, and gates that let no act begin.

use super::scenes::{Scene, play_scene};
use super::shared::acts;
use crate::scripts::{new, point};
use heap_class::Refusal;
use heap_lock::{
    Action, Answer, Event, Heap, Outcome, Receipt, Role, Seat, Shared, Verdict, audit,
};
use heap_work::{Gate, MarkEnd, Open, SweepEnd, mark_worker, sweep_worker};
use std::alloc::Global;
use std::sync::Wait;
use std::test::*;

/// How a worker ended.
#[derive(Clone, Copy)]
pub enum WorkEnd {
    /// The end of the marker's work.
    Marked(MarkEnd),
    /// The end of the sweeper's work.
    Swept(SweepEnd),
}

/// Runs the worker of a seat. Returns how it ended and the number of entries then, or None if the seat is neither the marker's nor
/// the sweeper's.
pub fn run_worker<L: Heap, R: Wait, G: Gate>(
    rt: &R,
    shared: &Shared<L>,
    seat: &mut Seat<L>,
    gate: &mut G,
    turns: u64,
) -> Option<(WorkEnd, usize)> {
    let end = match seat.role() {
        Role::Marker => WorkEnd::Marked(mark_worker(shared, rt, seat, gate, turns)),
        Role::Sweeper => WorkEnd::Swept(sweep_worker(shared, rt, seat, gate, turns)),
        _ => return None,
    };
    Some((end, shared.lock(rt).chronicle().len()))
}

/// Defines the class of points and creates two, in the first two registers. Returns whether all was answered.
pub fn began<L: Heap, R: Wait>(
    rt: &R,
    alloc: Global,
    shared: &Shared<L>,
    user: &mut Seat<L>,
) -> bool {
    let Ok(class) = point(alloc) else {
        return false;
    };
    acts(rt, shared, user, class)
        && acts(rt, shared, user, new(0))
        && acts(rt, shared, user, new(1))
}

/// Runs the workers through a cycle over two objects, and to gates that close in the next. Returns whether all goes as it must.
pub fn cycles<L: Heap, R: Wait>(
    rt: &R,
    alloc: Global,
    shared: &Shared<L>,
    user: &mut Seat<L>,
    marker: &mut Seat<L>,
    sweeper: &mut Seat<L>,
) -> bool {
    began(rt, alloc, shared, user)
        && cycle_goes(rt, shared, marker, sweeper)
        && stop_at_gates(rt, shared, marker, sweeper)
}

// Returns whether six marks finish a cycle, after three entries, fifteen sweeps don't finish the heap, and sixteen do.
fn cycle_goes<L: Heap, R: Wait>(
    rt: &R,
    shared: &Shared<L>,
    marker: &mut Seat<L>,
    sweeper: &mut Seat<L>,
) -> bool {
    is_finished(run_worker(rt, shared, marker, &mut Open, 6))
        && matches!(
            run_worker(rt, shared, sweeper, &mut Open, 15),
            Some((WorkEnd::Swept(SweepEnd::TurnsOver), 24))
        )
        && matches!(
            run_worker(rt, shared, sweeper, &mut Open, 16),
            Some((WorkEnd::Swept(SweepEnd::Swept), 40))
        )
        && all_are_swept(rt, shared)
}

// Returns whether the marker finished a cycle by the ninth entry, and condemned nothing.
fn is_finished(end: Option<(WorkEnd, usize)>) -> bool {
    match end {
        Some((WorkEnd::Marked(MarkEnd::Finished(receipt)), 9)) => {
            receipt.turn == 9 && receipt.answer == Outcome::Answered(Answer::Condemned(0))
        }
        _ => false,
    }
}

// Returns whether the entries after the ninth are the first sweeps of regions 0 to 14, and those after them the second ones of
// these and the first of region 15.
fn all_are_swept<L: Heap, R: Wait>(rt: &R, shared: &Shared<L>) -> bool {
    for region in 0..15u64 {
        if !is_swept(rt, shared, region + 10, region, first_answer(region))
            || !is_swept(rt, shared, region + 25, region, next_answer(region))
        {
            return false;
        }
    }
    is_swept(rt, shared, 40, 15, first_answer(15))
}

// Returns whether there is an entry of the third seat with this turn, that swept a region and had this answer.
fn is_swept<L: Heap, R: Wait>(
    rt: &R,
    shared: &Shared<L>,
    turn: u64,
    region: u64,
    answer: Outcome,
) -> bool {
    let receipt = Receipt {
        seat: 2,
        turn,
        answer,
    };
    let claims = [(Action::Step(Event::Sweep { region }), receipt)];
    audit(&*shared.lock(rt), claims.as_slice()) == Verdict::Holds
}

// Returns the answer of the first sweep of a region: the two objects are in region 0 and stay there, and all others are empty.
fn first_answer(region: u64) -> Outcome {
    if region == 0 {
        return Outcome::Answered(Answer::Swept {
            dead: 0,
            emptied: false,
        });
    }
    next_answer(region)
}

// A gate that lets no act begin from this turn on.
#[derive(Clone, Copy)]
struct Closing {
    turn: u64,
}

impl Gate for Closing {
    fn pass(&mut self, turn: u64) -> bool {
        turn < self.turn
    }
}

// Returns the answer of the second sweep of a region.
fn next_answer(region: u64) -> Outcome {
    Outcome::Refused(Refusal::NothingToSweep { region })
}

// Returns whether, after forty entries, a marker ends at a gate that closes before its third act, and a sweeper at one that
// closes before its second.
fn stop_at_gates<L: Heap, R: Wait>(
    rt: &R,
    shared: &Shared<L>,
    marker: &mut Seat<L>,
    sweeper: &mut Seat<L>,
) -> bool {
    let mut third = Closing { turn: 3 };
    let mut second = Closing { turn: 2 };
    matches!(
        run_worker(rt, shared, marker, &mut third, 6),
        Some((WorkEnd::Marked(MarkEnd::Stopped), 42))
    ) && matches!(
        run_worker(rt, shared, sweeper, &mut second, 16),
        Some((WorkEnd::Swept(SweepEnd::Stopped), 43))
    )
}

#[test]
fn workers_finish_a_cycle_and_stop_at_gates(rt: HostRuntime) -> Result<(), Fail> {
    assert!(rt; play_scene(&rt, rt.alloc(), Scene::Cycles));
    Ok(())
}
