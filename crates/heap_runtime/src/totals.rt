//! What several actors did, by their claims.
ghost use Rattle.std.specs.Prelude.{◌≡◌, count_by, IfOk, IfErr};
ghost use Rattle.heap_lock.specs.Verdict.TheVariants.{Dropped};
ghost use Rattle.heap_runtime.specs.Actors.{AllHold, AuditStops};
ghost use Rattle.heap_runtime.specs.Totals.{IsTotal, is_finishing, is_making};

use crate::actor::{Actor, Claim};
use heap_lock::{Action, Event, Heap, Outcome, Verdict, Witness};
use std::sync::Wait;

/// What several actors did, by their claims. A number that doesn't fit is `usize::MAX`.
#[derive(Clone, Copy, PartialEq, Eq, Debug)]
pub struct Totals {
    /// The number of claims.
    pub claims: usize,
    /// The number of objects made.
    pub made: usize,
    /// The number of cycles finished.
    pub finished: usize,
}

/// Returns what the actors did, by their claims. Takes no memory.
pub fn total_all<L: Heap, R: Wait>(actors: &[Actor<'_, L, R>]) -> Totals
    ensures { IsTotal actors.now result }
{
    let mut claims = 0usize;
    let mut made = 0usize;
    let mut finished = 0usize;
    for actor in actors {
        let own = actor.claims();
        claims = claims.saturating_add(own.len());
        made = made.saturating_add(count_made(own));
        finished = finished.saturating_add(count_finished(own));
    }
    Totals {
        claims,
        made,
        finished,
    }
}

// Returns the number of objects that were made.
fn count_made(claims: &[Claim]) -> usize
    ensures { result ≡ count_by is_making claims.now }
{
    claims.iter().filter(|claim| is_made(claim)).count()
}

// Returns whether a claim is that of an object that was made.
#[tactic(auto, unfolding(crate::specs::Totals::is_making))]
fn is_made(claim: &Claim) -> bool
    ensures { result ≡ is_making claim.now }
{
    let (action, receipt) = claim;
    let is_new = matches!(
        action,
        Action::Step(Event::New { .. } | Event::NewArray { .. } | Event::NewPrim { .. })
    );
    is_new && matches!(receipt.answer, Outcome::Answered(_))
}

// Returns the number of cycles that were finished.
fn count_finished(claims: &[Claim]) -> usize
    ensures { result ≡ count_by is_finishing claims.now }
{
    claims.iter().filter(|claim| is_finished(claim)).count()
}

// Returns whether a claim is that of a cycle that was finished.
#[tactic(auto, unfolding(crate::specs::Totals::is_finishing))]
fn is_finished(claim: &Claim) -> bool
    ensures { result ≡ is_finishing claim.now }
{
    let (action, receipt) = claim;
    matches!(action, Action::Step(Event::Finish)) && matches!(receipt.answer, Outcome::Answered(_))
}

/// Returns what the actors did, by their claims, if the claims of each stand in the history of the heap, one actor audited after
/// another as `Actor::audit` does. Fails with Dropped at the first actor whose claims name an entry that was dropped or isn't kept
/// whole. The witness has seen all calls up to the last audit. Takes no memory. May wait.
pub fn audit_all<L: Heap, R: Wait>(
    actors: &mut [Actor<'_, L, R>],
    witness: &mut Witness<L>,
) -> Result<Totals, Verdict>
    ensures totals { IfOk result (IsTotal actors.old) }
    ensures hold { IfOk result
        (λ _. AllHold L.config L.rolls witness.old actors.old witness.new) }
    ensures refused { IfErr result (λ v. (v ≡ Dropped)
        × AuditStops L.config L.rolls witness.old actors.old v witness.new) }
    ensures same { actors.new ≡ actors.old }
{
    for i in 0..actors.len() {
        let verdict = actors[i].audit(witness);
        if verdict != Verdict::Holds {
            return Err(verdict);
        }
    }
    Ok(total_all(actors))
}
