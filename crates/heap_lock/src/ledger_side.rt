//! What the sides of a ledger's table know.
use crate::home_table::Side;
use heap_trail::{Action, Reply};
use std::collections::LinkedList;

/// The lists of calls that the sides of a ledger have. No value of this type is made.
pub enum LedgerSide {
    /// All calls.
    Full(LinkedList<(Action, Reply)>),
    /// The first calls, which a witness saw.
    Seen(LinkedList<(Action, Reply)>),
    /// All calls and the first ones, while they are compared.
    Both(LinkedList<(Action, Reply)>, LinkedList<(Action, Reply)>),
    /// No calls.
    NoCalls,
}

// One side has all calls, and each other one a beginning of them.
impl Side for LedgerSide {
    ghost use Rattle.std.specs.Prelude.{[]};
    ghost use Rattle.heap_lock.specs.declared.ledger_side.LedgerSide.TheVariants.{NoCalls, Full};
    ghost use Rattle.heap_lock.specs.LedgerSides.{IsOneLedger, both_sides, full_of, seen_of};

    ghost holds = { IsOneLedger };

    ghost first = { Full [] };

    ghost left = { full_of };

    ghost right = { seen_of };

    ghost both = { both_sides };

    ghost spent = { NoCalls };
}
