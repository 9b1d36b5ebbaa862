//! Receipts against the chronicle of a heap.
ghost use Rattle.std.specs.Prelude.{length};
ghost use Rattle.heap_history.specs.Audits.{IsVerdict};
ghost use Rattle.heap_history.specs.Chronicles.{dropped_of};

use crate::heap::{Heap, Kept};
use heap_history::{Receipt, Verdict};
use heap_trail::Action;

/// Returns whether the turns rise along the list and each names an entry with the seat and the answer of its receipt and
/// the action beside it; of a receipt whose entry was dropped or isn't kept whole nothing can be said. Takes no memory.
pub fn audit<L: Heap>(kept: &Kept<L>, claims: &[(Action, Receipt)]) -> Verdict
    ensures { IsVerdict (dropped_of kept.now.rolls (length kept.now.chronicle)) kept.now.chronicle
        claims.now result }
{
    kept.chronicle().audit(claims)
}
