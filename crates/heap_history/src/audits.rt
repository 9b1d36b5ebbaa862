//! Receipts against the chronicle.
ghost use Rattle.std.specs.Prelude.{◌↔◌, ◌<◌, length, IfNone, IfSome, IsTrue};
ghost use Rattle.heap_history.specs.Audits.{AllAreKept, AuditsKept, IsKnownTurn, IsVerdict, NamesEntry};
ghost use Rattle.heap_history.specs.Chronicles.{dropped_of};

use crate::chronicle::Chronicle;
use crate::receipt::Receipt;
use heap_trail::Action;

/// What an audit says of receipts.
#[derive(Clone, Copy, PartialEq, Eq, Debug)]
pub enum Verdict {
    /// The turns rise, and each receipt names an entry that is kept.
    Holds,
    /// The turns don't rise, or a receipt names no entry, or another one.
    Fails,
    /// The turns rise, the receipts whose entries are kept name these, and the entries of others were dropped or aren't kept
    /// whole.
    Dropped,
}

// Returns whether the turns rise along the list and each receipt whose entry is kept names it, with the action beside it.
fn all_agree(chronicle: &Chronicle, claims: &[(Action, Receipt)]) -> bool
    ensures { IsTrue result ↔
        AuditsKept (dropped_of chronicle.now.rolls (length chronicle.now.entries))
        chronicle.now.entries 0 claims.now }
{
    let mut last = 0;
    for claim in claims {
        if claim.1.turn <= last || !agrees(chronicle, &claim.0, &claim.1) {
            return false;
        }
        last = claim.1.turn;
    }
    true
}

// Returns whether the receipt names an entry with this action, or its entry was dropped or isn't kept.
fn agrees(chronicle: &Chronicle, action: &Action, receipt: &Receipt) -> bool
    requires { 0 < receipt.now.turn }
    ensures { IsTrue result ↔
        (IsKnownTurn (dropped_of chronicle.now.rolls (length chronicle.now.entries))
        chronicle.now.entries receipt.now.turn
        → NamesEntry chronicle.now.entries action.now receipt.now) }
{
    names_entry(chronicle, action, receipt).unwrap_or(true)
}

// Returns whether the receipt names an entry with this action, or None if its entry was dropped or isn't kept.
fn names_entry(chronicle: &Chronicle, action: &Action, receipt: &Receipt) -> Option<bool>
    requires { 0 < receipt.now.turn }
    ensures kept { IfSome result
        (λ b. IsKnownTurn (dropped_of chronicle.now.rolls (length chronicle.now.entries))
        chronicle.now.entries receipt.now.turn
        × (IsTrue b ↔ NamesEntry chronicle.now.entries action.now receipt.now)) }
    ensures unkept { IfNone result
        (IsKnownTurn (dropped_of chronicle.now.rolls (length chronicle.now.entries))
        chronicle.now.entries receipt.now.turn → ⊥) }
{
    let at = receipt.turn as usize - 1;
    chronicle.is_done(at, receipt.seat, action, receipt.answer)
}

// Returns whether no receipt is that of an entry that was dropped or isn't kept.
fn are_kept(chronicle: &Chronicle, claims: &[(Action, Receipt)]) -> bool
    ensures { IsTrue result ↔
        AllAreKept (dropped_of chronicle.now.rolls (length chronicle.now.entries))
        chronicle.now.entries claims.now }
{
    for claim in claims {
        if !chronicle.is_known((claim.1.turn as usize).saturating_sub(1)) {
            return false;
        }
    }
    true
}

impl Chronicle {
    /// Returns whether the turns rise along the list and each names an entry with the seat and the answer of its receipt and
    /// the action beside it; of a receipt whose entry was dropped or isn't kept whole nothing can be said. Takes no memory.
    #[tactic(auto, using(crate::proofs::AuditLaws::kept_claims_are_audited))]
    pub fn audit(&self, claims: &[(Action, Receipt)]) -> Verdict
        ensures { IsVerdict (dropped_of self.now.rolls (length self.now.entries)) self.now.entries
            claims.now result }
    {
        if !all_agree(self, claims) {
            return Verdict::Fails;
        }
        if are_kept(self, claims) {
            Verdict::Holds
        } else {
            Verdict::Dropped
        }
    }
}
