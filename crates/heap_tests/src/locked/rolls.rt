//! A chronicle that drops its oldest entries, and audits of receipts whose entries it dropped.
use super::scenes::{Scene, play_scene};
use super::shared::did;
use heap_lock::{
    Action, Answer, Event, Heap, Kept, Outcome, Receipt, Seat, Shared, Verdict, audit,
};
use std::sync::Wait;
use std::test::*;

/// Acts 1,000,000 times, once more, 499,999 times and once more. Returns whether the chronicle drops its oldest entries when it
/// must, and audits say so.
pub fn rolling<L: Heap, R: Wait>(rt: &R, shared: &Shared<L>, seat: &mut Seat<L>) -> bool {
    clear_often(rt, shared, seat, 1_000_000) == (1_000_000, 1_000_000, 0)
        && is_whole(&*shared.lock(rt))
        && clear_often(rt, shared, seat, 1) == (1_000_001, 1_000_001, 500_000)
        && is_rolled(&*shared.lock(rt))
        && clear_often(rt, shared, seat, 499_999) == (1_500_000, 1_500_000, 500_000)
        && clear_often(rt, shared, seat, 1) == (1_500_001, 1_500_001, 1_000_000)
}

// Does `count` acts of one kind. Returns the turn of the last one that was done, how many entries the chronicle then has, and how
// many of them it dropped.
fn clear_often<L: Heap, R: Wait>(
    rt: &R,
    shared: &Shared<L>,
    seat: &mut Seat<L>,
    count: u64,
) -> (u64, usize, usize) {
    let mut done = 0;
    for _ in 0..count {
        if let Some(receipt) = did(rt, shared, seat, Event::Clear { m: 0, r: 0 }) {
            done = receipt.turn;
        }
    }
    let kept = shared.lock(rt);
    let chronicle = kept.chronicle();
    (done, chronicle.len(), chronicle.dropped_count())
}

// Tells whether audits of the first and the last of 1,000,000 entries, which are all kept, say what they should.
fn is_whole<L: Heap>(kept: &Kept<L>) -> bool {
    says(kept, 1, KEPT) && says(kept, 1_000_000, KEPT)
}

// What audits say of an entry that is kept, of one that was dropped, and of none: first of a claim of it, and then of the same
// one with another answer or of another action.
const KEPT: (Verdict, Verdict) = (Verdict::Holds, Verdict::Fails);

const GONE: (Verdict, Verdict) = (Verdict::Dropped, Verdict::Dropped);

const MISSING: (Verdict, Verdict) = (Verdict::Fails, Verdict::Fails);

// Tells whether audits say this of a turn.
fn says<L: Heap>(kept: &Kept<L>, turn: u64, (first, then): (Verdict, Verdict)) -> bool {
    let done = Outcome::Answered(Answer::Done);
    verdict_of_one(kept, 0, turn, done) == first
        && verdict_of_one(kept, 0, turn, Outcome::Place(0)) == then
        && verdict_of_one(kept, 1, turn, done) == then
}

// Returns what an audit says of a claim.
fn verdict_of_one<L: Heap>(kept: &Kept<L>, r: u64, turn: u64, answer: Outcome) -> Verdict {
    audit(kept, &[claim(r, turn, answer)])
}

// Returns the claim that an act which clears a register had this turn and this answer.
fn claim(r: u64, turn: u64, answer: Outcome) -> (Action, Receipt) {
    let receipt = Receipt {
        seat: 0,
        turn,
        answer,
    };
    (Action::Step(Event::Clear { m: 0, r }), receipt)
}

// Tells whether audits over the same chronicle say what they should.
fn is_rolled<L: Heap>(kept: &Kept<L>) -> bool {
    says(kept, 1, GONE)
        && says(kept, 500_000, GONE)
        && says(kept, 500_001, KEPT)
        && says(kept, 1_000_001, KEPT)
        && says(kept, 0, MISSING)
        && says(kept, 1_000_002, MISSING)
        && are_audited(kept)
}

// Tells whether audits of two claims, over a chronicle of 1,000,001 entries, which dropped the first 500,000, say what they should.
fn are_audited<L: Heap>(kept: &Kept<L>) -> bool {
    verdict_of_two(kept, 500_001, 1_000_001) == Verdict::Holds
        && verdict_of_two(kept, 500_000, 500_001) == Verdict::Dropped
        && verdict_of_two(kept, 500_001, 500_001) == Verdict::Fails
        && verdict_of_two(kept, 2, 1) == Verdict::Fails
        && verdict_of_two(kept, 1, 1_000_002) == Verdict::Fails
}

// Returns what an audit says of two claims.
fn verdict_of_two<L: Heap>(kept: &Kept<L>, first: u64, second: u64) -> Verdict {
    let done = Outcome::Answered(Answer::Done);
    audit(kept, &[claim(0, first, done), claim(0, second, done)])
}

#[test]
fn chronicle_drops_its_oldest(rt: HostRuntime) -> Result<(), Fail> {
    assert!(rt; play_scene(&rt, rt.alloc(), Scene::Rolling));
    Ok(())
}
