//! A shared heap as its holder has it, about which questions are answered, and on which other lines act.
ghost use Rattle.std.specs.Prelude.{◌≡◌, MatchResult, None, Some};
ghost use Rattle.question_grammar.specs.Orders.{MayTakeMemory};
ghost use Rattle.session_text.specs.Replies.{line_answer_text};
ghost use Rattle.heap_lock.specs.declared.role.Role.TheVariants.{User};
ghost use Rattle.heap_lock.specs.Action.TheVariants.{Step};
ghost use mathlib.Core.List.{IsPrefix};
ghost use Rattle.question_words.specs.Moments.{steps_ago};
ghost use Rattle.seat_session.specs.JoinedAnswers.{ActsHeld, AnswersForSeat, AnswersHeld, CollectsHeld, DoesHeld, IsHeapOfSeat, IsRefusedHeld, LacksUndone, LeavesSeen, RewindsHeld, RunsCycleHeld, order_obeyed};

use crate::joined::reply_to_act;
use heap_lock::{Answer, Event, Heap, Kept, Machine, Outcome, Refusal, Reply, Seat, Witness};
use heap_orders::{CycleCounts, Steps, collect_answer, nothing_to_redo, run_cycle};
use question_grammar::{Bookmarks, Order, order_in};
use question_text::note_line;
use question_words::steps_ago;
use session_text::LineAnswer;
use std::alloc::{AllocError, Global};

// The heap under its lock.
#[derive(Drop)]
struct HeldHeap<'a, L: Heap> {
    kept: &'a mut Kept<L>,
}

impl<'a, L: Heap> Steps for HeldHeap<'a, L> {
    ghost use Rattle.std.specs.Prelude.{◌≡◌};
    ghost use Rattle.heap_lock.specs.declared.role.Role.TheVariants.{User};
    ghost use Rattle.heap_lock.specs.LockStates.{IsNoEntry};
    ghost use Rattle.seat_session.specs.JoinedAnswers.{Gains, entries_of_steps};

    type By = Seat<L>;

    ghost seen = { λ h. h.kept.now.machine };

    ghost may = { λ seat. seat.role ≡ User };

    ghost since = { λ h seat first first_seat steps. Gains first.kept.now first_seat
        (entries_of_steps first_seat.number steps) h.kept.now seat };

    ghost denies = { IsNoEntry };

    fn machine(&self) -> &Machine {
        self.kept.machine()
    }

    fn take(&mut self, by: &mut Seat<L>, event: Event) -> Result<Answer, Refusal> {
        match self.kept.act_held(by, event) {
            Ok(receipt) => match receipt.answer {
                Outcome::Answered(answer) => Ok(answer),
                Outcome::Refused(_) => unreachable!(),
                Outcome::Place(_) => unreachable!(),
            },
            Err(refusal) => Err(refusal),
        }
    }
}

// Answers a line that the grammar of sessions doesn't know for one who holds the lock, and does what it asks to be done, if `obeys`
// says so, as acts of the seat. The witness sees the calls before it, and then those of its acts. If the line asks for nothing to
// be done, the bookmarks note what it sets.
pub(crate) fn answer_held<L: Heap>(
    alloc: Global,
    kept: &mut Kept<L>,
    seat: &mut Seat<L>,
    witness: &mut Witness<L>,
    bookmarks: &mut Bookmarks,
    obeys: bool,
    line: &[u8],
) -> LineAnswer
    requires { seat.old.role ≡ User }
    ensures answers { AnswersForSeat L.config obeys line.now seat.old witness.old bookmarks.old
        (line_answer_text result) seat.new witness.new bookmarks.new }
    ensures role { seat.new.role ≡ User }
{
    see_all(kept, seat, witness);
    match order_obeyed(alloc, kept, bookmarks, obeys, line) {
        Ok(order) => answer_order(alloc, kept, seat, witness, bookmarks, order, line),
        Err(_) => refuse_held(kept, seat, witness, Refusal::NoMemory),
    }
}

// Compares the chronicle with the seat, and has the witness see all calls.
fn see_all<L: Heap>(kept: &mut Kept<L>, seat: &mut Seat<L>, witness: &mut Witness<L>)
    ensures heap { IsHeapOfSeat L.config kept.old.machine kept.old.chronicle kept.old.ledger
        seat.old }
    ensures begins { IsPrefix witness.old kept.old.ledger }
    ensures sees { witness.new ≡ kept.old.ledger }
    ensures same { kept.new ≡ kept.old }
    ensures seat { seat.new ≡ seat.old }
{
    kept.agree(seat);
    kept.show(witness);
}

// Returns what a line asks to be done, if `obeys` says that it may ask that. Fails if an allocation for a class fails.
fn order_obeyed<L: Heap>(
    alloc: Global,
    kept: &Kept<L>,
    bookmarks: &Bookmarks,
    obeys: bool,
    line: &[u8],
) -> Result<Option<Order>, AllocError>
    ensures { MatchResult result
        (λ order. order ≡ order_obeyed obeys bookmarks.now kept.now.machine.trail.current line.now)
        (λ _. MayTakeMemory
        (order_obeyed obeys bookmarks.now kept.now.machine.trail.current line.now)) }
{
    if obeys {
        order_in(alloc, bookmarks, kept.machine().world(), line)
    } else {
        Ok(None)
    }
}

// Answers a line for one who holds the lock, and does what it asks to be done, or notes what it sets.
fn answer_order<L: Heap>(
    alloc: Global,
    kept: &mut Kept<L>,
    seat: &mut Seat<L>,
    witness: &mut Witness<L>,
    bookmarks: &mut Bookmarks,
    order: Option<Order>,
    line: &[u8],
) -> LineAnswer
    requires { seat.old.role ≡ User }
    ensures answers { LeavesSeen L.config (λ last. AnswersHeld L.config order line.now kept.old
        seat.old bookmarks.old (line_answer_text result) last seat.new bookmarks.new) seat.new
        witness.new }
    ensures role { seat.new.role ≡ User }
{
    match order {
        Some(order) => do_held(alloc, kept, seat, witness, order),
        None => note_held(alloc, kept, seat, witness, bookmarks, line),
    }
}

// Does what a line asks to be done for one who holds the lock, and answers it.
#[tactic(auto, using(crate::proofs::HeldSteps::taken_under_lock))]
fn do_held<L: Heap>(
    alloc: Global,
    kept: &mut Kept<L>,
    seat: &mut Seat<L>,
    witness: &mut Witness<L>,
    order: Order,
) -> LineAnswer
    requires { seat.old.role ≡ User }
    ensures answers { LeavesSeen L.config (λ last. DoesHeld L.config order kept.old seat.old
        (line_answer_text result) last seat.new) seat.new witness.new }
    ensures role { seat.new.role ≡ User }
{
    match order {
        Order::Collect => collect_held(alloc, kept, seat, witness),
        Order::RewindTo(place) => rewind_held_to(kept, seat, witness, place),
        Order::Forward(count) => lack_undone(alloc, kept, seat, witness, count),
        Order::ForwardTo(_) => refuse_held(kept, seat, witness, Refusal::NotRetained),
        Order::Act(event) => take_held(kept, seat, witness, event),
    }
}

// Takes the steps of `collect` for one who holds the lock, each an act of the seat, and returns its answer.
fn collect_held<L: Heap>(
    alloc: Global,
    kept: &mut Kept<L>,
    seat: &mut Seat<L>,
    witness: &mut Witness<L>,
) -> LineAnswer
    requires { seat.old.role ≡ User }
    ensures collects { LeavesSeen L.config (λ last. CollectsHeld kept.old seat.old
        (line_answer_text result) last seat.new) seat.new witness.new }
    ensures role { seat.new.role ≡ User }
{
    let cycle = run_cycle_held(kept, seat, witness);
    collect_answer(alloc, cycle)
}

// Runs a cycle for one who holds the lock.
fn run_cycle_held<L: Heap>(
    kept: &mut Kept<L>,
    seat: &mut Seat<L>,
    witness: &mut Witness<L>,
) -> Result<CycleCounts, Refusal>
    requires { seat.old.role ≡ User }
    ensures runs { LeavesSeen L.config (λ last. RunsCycleHeld kept.old seat.old result last
        seat.new) seat.new witness.new }
    ensures role { seat.new.role ≡ User }
{
    let mut held: HeldHeap<'_, L> = HeldHeap { kept };
    let cycle = run_cycle(&mut held, seat);
    see_all(&mut *held.kept, seat, witness);
    cycle
}

// Rewinds the heap to the state at a place for one who holds the lock, as an act of the seat.
fn rewind_held_to<L: Heap>(
    kept: &mut Kept<L>,
    seat: &mut Seat<L>,
    witness: &mut Witness<L>,
    place: u64,
) -> LineAnswer
    requires { seat.old.role ≡ User }
    ensures rewinds { LeavesSeen L.config (λ last. RewindsHeld L.config
        (steps_ago (Some place) kept.old.machine.trail) kept.old seat.old
        (line_answer_text result) last seat.new) seat.new witness.new }
    ensures role { seat.new.role ≡ User }
{
    let answer = answer_to_rewind(kept, seat, place);
    see_all(kept, seat, witness);
    answer
}

// Rewinds the heap to the state at a place for one who holds the lock, as an act of the seat that the witness doesn't see.
fn answer_to_rewind<L: Heap>(kept: &mut Kept<L>, seat: &mut Seat<L>, place: u64) -> LineAnswer
    requires { seat.old.role ≡ User }
    ensures rewinds { RewindsHeld L.config (steps_ago (Some place) kept.old.machine.trail) kept.old
        seat.old (line_answer_text result) kept.new seat.new }
    ensures role { seat.new.role ≡ User }
{
    match steps_ago(kept.machine(), Some(place)) {
        Ok(count) => LineAnswer::Known(reply_to_act(kept.rewind_held(seat, count))),
        Err(refusal) => LineAnswer::Known(Reply::Refused(refusal)),
    }
}

// Answers `forward` of this many steps: no steps that were undone are kept.
fn lack_undone<L: Heap>(
    alloc: Global,
    kept: &mut Kept<L>,
    seat: &mut Seat<L>,
    witness: &mut Witness<L>,
    count: u64,
) -> LineAnswer
    ensures lacks { LeavesSeen L.config (λ last. LacksUndone count kept.old seat.old
        (line_answer_text result) last seat.new) seat.new witness.new }
    ensures seat { seat.new ≡ seat.old }
{
    see_all(kept, seat, witness);
    nothing_to_redo(alloc, count, 0)
}

// Refuses a line for this reason.
fn refuse_held<L: Heap>(
    kept: &mut Kept<L>,
    seat: &mut Seat<L>,
    witness: &mut Witness<L>,
    refusal: Refusal,
) -> LineAnswer
    ensures refused { LeavesSeen L.config (λ last. IsRefusedHeld refusal kept.old seat.old
        (line_answer_text result) last seat.new) seat.new witness.new }
    ensures seat { seat.new ≡ seat.old }
{
    see_all(kept, seat, witness);
    LineAnswer::Known(Reply::Refused(refusal))
}

// Takes a step for one who holds the lock, as an act of the seat.
fn take_held<L: Heap>(
    kept: &mut Kept<L>,
    seat: &mut Seat<L>,
    witness: &mut Witness<L>,
    event: Event,
) -> LineAnswer
    requires { seat.old.role ≡ User }
    ensures acts { LeavesSeen L.config (λ last. ActsHeld L.config (Step event) kept.old seat.old
        (line_answer_text result) last seat.new) seat.new witness.new }
    ensures role { seat.new.role ≡ User }
{
    let reply = reply_to_act(kept.act_held(seat, event));
    see_all(kept, seat, witness);
    LineAnswer::Known(reply)
}

// Answers a line that asks for nothing to be done, such as a question about the heap, and notes what it sets.
fn note_held<L: Heap>(
    alloc: Global,
    kept: &mut Kept<L>,
    seat: &mut Seat<L>,
    witness: &mut Witness<L>,
    bookmarks: &mut Bookmarks,
    line: &[u8],
) -> LineAnswer
    ensures answers { LeavesSeen L.config (λ last. AnswersHeld L.config None line.now kept.old
        seat.old bookmarks.old (line_answer_text result) last seat.new bookmarks.new) seat.new
        witness.new }
    ensures seat { seat.new ≡ seat.old }
{
    see_all(kept, seat, witness);
    let acts = kept.chronicle().len() as u64;
    note_line(alloc, kept.machine(), Some(acts), bookmarks, line)
}
