//! The marker's and the sweeper's workers.
#![tactic(auto)]

mod pending_sweeps;

ghost use Rattle.std.specs.Prelude.{◌≡◌};
ghost use Rattle.heap_lock.specs.declared.role.Role.TheVariants.{Marker, Sweeper};
ghost use Rattle.heap_work.specs.declared.Stage.TheVariants.{Mark, Snap};
ghost use Rattle.heap_work.specs.Rule.{mark_end_of, event_of, stage_after, BeginsNoCycle, IsMarkWorkFrom, IsSweepWork, MarkStops, SweepStops};
ghost use Rattle.heap_work.specs.Gates.{IsMarkRun, MarkAsks, SweepAsks};

use heap_lock::{Answer, Event, Heap, Outcome, Receipt, Refusal, Seat, Shared};
pub use pending_sweeps::pending_worker;
use std::sync::Wait;

/// What a worker passes before each act, without the lock. Contracts see what it may say.
pub trait Gate {
    ghost use Rattle.std.specs.Prelude.{ℕ, Bool};

    // The gate before a pass, the number of the act, what it says then, and the gate after. A gate may say anything if it states
    // nothing else.
    ghost says: { Self → ℕ → Bool → Self → Type 0 } = { λ before turn word after. Unit {0} };

    /// Returns once the act of this number, counted from 1, may begin, or the worker is to end. Tells whether the act may begin.
    fn pass(&mut self, turn: u64) -> bool
        ensures { Self.says self.old turn result self.new };
}

/// A gate that is always open.
#[derive(Clone, Copy)]
pub struct Open;

impl Gate for Open {
    ghost use Rattle.std.specs.Prelude.{◌≡◌, true};

    ghost says = { λ before turn word after. word ≡ true };

    fn pass(&mut self, turn: u64) -> bool {
        let _ = turn;
        true
    }
}

/// How a mark worker ended, with its last receipt if that tells.
#[derive(Clone, Copy, PartialEq, Eq, Debug)]
pub enum MarkEnd {
    /// The cycle is finished.
    Finished(Receipt),
    /// No cycle ran.
    NotMarking(Receipt),
    /// A region has to be swept first.
    Pending(Receipt),
    /// An act was refused, NoMemory or ChronicleFull.
    Refused(Refusal),
    /// The gate let no act more begin.
    Stopped,
    /// It has done as many acts as it may.
    TurnsOver,
}

/// How a sweep worker ended.
#[derive(Clone, Copy, PartialEq, Eq, Debug)]
pub enum SweepEnd {
    /// It has asked for each region, or none waits any more.
    Swept,
    /// An act was refused, NoMemory or ChronicleFull.
    Refused(Refusal),
    /// The gate let no act more begin.
    Stopped,
    /// It has done as many acts as it may.
    TurnsOver,
}

/// What a mark worker does next.
#[derive(Clone, Copy, PartialEq, Eq, Debug)]
pub enum Stage {
    /// Begins a cycle.
    Snap,
    /// Looks into the object on top of the gray stack.
    Mark,
    /// Looks at the next entry of the log.
    Drain,
    /// Ends the cycle.
    Finish,
}

/// Begins a cycle, and marks until it is finished, in at most `turns` acts: Snap, then Mark; Drain if nothing is left to mark,
/// Finish if nothing is left to drain, and Mark again after any other answer. Passes the gate before each act, without the lock,
/// and ends if it lets none begin. May wait.
pub fn mark_worker<L: Heap, R: Wait, G: Gate>(
    shared: &Shared<L>,
    rt: &R,
    seat: &mut Seat<L>,
    gate: &mut G,
    turns: u64,
) -> MarkEnd
    requires { seat.old.role ≡ Marker }
    ensures { IsMarkRun Snap L.config G.says gate.old gate.new seat.old seat.new turns result }
{
    mark_from(shared, rt, seat, gate, turns, Stage::Snap)
}

// Does acts from this stage on until the cycle is finished, as `mark_worker` says.
fn mark_from<L: Heap, R: Wait, G: Gate>(
    shared: &Shared<L>,
    rt: &R,
    seat: &mut Seat<L>,
    gate: &mut G,
    turns: u64,
    first: Stage,
) -> MarkEnd
    requires { seat.old.role ≡ Marker }
    ensures work { IsMarkWorkFrom first L.config seat.old seat.new turns result }
    ensures stops { MarkStops G.says seat.old seat.new gate.new result }
    ensures asks { MarkAsks G.says gate.old seat.old seat.new gate.new result }
{
    let mut stage = first;
    for turn in 0..turns {
        if !gate.pass(turn + 1) {
            return MarkEnd::Stopped;
        }
        match shared.act(rt, seat, event_of_stage(stage)) {
            Ok(receipt) => {
                if let Some(end) = end_of_receipt(receipt) {
                    return end;
                }
                stage = next(receipt.answer);
            }
            Err(refusal) => return MarkEnd::Refused(refusal),
        }
    }
    MarkEnd::TurnsOver
}

// Returns the event of a stage.
fn event_of_stage(stage: Stage) -> Event
    ensures { result ≡ event_of stage }
{
    match stage {
        Stage::Snap => Event::Snap,
        Stage::Mark => Event::Mark,
        Stage::Drain => Event::Drain,
        Stage::Finish => Event::Finish,
    }
}

// Returns how the worker ends after this receipt, or None if it goes on.
fn end_of_receipt(receipt: Receipt) -> Option<MarkEnd>
    ensures { result ≡ mark_end_of receipt }
{
    match receipt.answer {
        Outcome::Answered(Answer::Condemned(_)) => Some(MarkEnd::Finished(receipt)),
        Outcome::Refused(Refusal::NotMarking) => Some(MarkEnd::NotMarking(receipt)),
        Outcome::Refused(Refusal::SweepPending { .. }) => Some(MarkEnd::Pending(receipt)),
        _ => None,
    }
}

// Returns the stage that follows an answer.
fn next(answer: Outcome) -> Stage
    ensures { result ≡ stage_after answer }
{
    match answer {
        Outcome::Refused(Refusal::NothingToMark) => Stage::Drain,
        Outcome::Refused(Refusal::NothingToDrain) => Stage::Finish,
        _ => Stage::Mark,
    }
}

/// Goes on with the cycle that runs until it is finished, as `mark_worker` does from its Mark on, and begins none: if no cycle
/// runs, its first act is refused NotMarking, and it ends. May wait.
pub fn resume_worker<L: Heap, R: Wait, G: Gate>(
    shared: &Shared<L>,
    rt: &R,
    seat: &mut Seat<L>,
    gate: &mut G,
    turns: u64,
) -> MarkEnd
    requires { seat.old.role ≡ Marker }
    ensures run { IsMarkRun Mark L.config G.says gate.old gate.new seat.old seat.new turns result }
    ensures begins { BeginsNoCycle seat.old seat.new }
{
    mark_from(shared, rt, seat, gate, turns, Stage::Mark)
}

/// Asks for a sweep of each region once, from 0 on, in at most `turns` acts. Passes the gate before each act, without the
/// lock, and ends if it lets none begin. May wait.
pub fn sweep_worker<L: Heap, R: Wait, G: Gate>(
    shared: &Shared<L>,
    rt: &R,
    seat: &mut Seat<L>,
    gate: &mut G,
    turns: u64,
) -> SweepEnd
    requires { seat.old.role ≡ Sweeper }
    ensures work { IsSweepWork L.config seat.old seat.new turns result }
    ensures stops { SweepStops G.says seat.old seat.new gate.new result }
    ensures asks { SweepAsks G.says gate.old seat.old seat.new gate.new result }
{
    let regions = shared.config().regions();
    for region in 0..regions {
        if region >= turns {
            return SweepEnd::TurnsOver;
        }
        if !gate.pass(region + 1) {
            return SweepEnd::Stopped;
        }
        if let Err(refusal) = shared.act(rt, seat, Event::Sweep { region }) {
            return SweepEnd::Refused(refusal);
        }
    }
    SweepEnd::Swept
}
