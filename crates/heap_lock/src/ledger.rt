//! The list of all calls with their replies, which no code stores, and its beginnings, which go with those who saw them.
ghost use Rattle.std.specs.Prelude.{◌∷◌, ◌++◌, []};
ghost use mathlib.Core.List.{IsPrefix};
ghost use Rattle.heap_lock.specs.HomeTables.{table_of};
ghost use Rattle.heap_lock.specs.Ledgers.{calls_in, all_in, HasCalls, AreSeenCalls, CallsAs};

use crate::home_table::{AddsEntry, HomeTable, SideRule};
use crate::ledger_side::LedgerSide;
use atomic_table::{Badge, Play};
use std::marker::Brand;

/// The call that a step adds.
pub trait Called {
    ghost use Rattle.heap_lock.specs.Calls.{Call};

    ghost call: { Call };
}

impl Called for Brand {
    ghost use Rattle.heap_lock.specs.Calls.{no_call};

    ghost call = { no_call };
}

// The step that adds a call.
impl<E: Called> Play<(), LedgerSide> for AddsEntry<E> {
    ghost use Rattle.heap_lock.specs.LedgerSides.{Added};

    ghost then = { λ step m found n. Added E.call m n };
}

/// The step that tells that what was seen is a beginning of all calls.
pub struct Compares;

impl Play<(), LedgerSide> for Compares {
    ghost use Rattle.heap_lock.specs.LedgerSides.{Compared};

    ghost then = { λ step m found n. Compared m n };
}

/// The table of a ledger, with its own side, which has all calls. A new one has none.
pub type Ledger = HomeTable<LedgerSide>;

impl HomeTable<LedgerSide> {
    /// Adds a call with its reply: the one that `E` names, of what is asked and told. Takes no memory.
    pub fn note<E: Called, S, T>(&mut self, asked: &S, told: &T)
        requires { HasCalls (table_of self.old) (all_in self.old) self.old }
        ensures { CallsAs self.old self.new (all_in self.old ++ E.call ∷ []) }
    {
        // Only the contract uses these two.
        let _ = asked;
        let _ = told;
        let HomeTable { table, own } = self;
        table.shared.load::<AddsEntry<E>>(own, 0);
    }

    /// Splits off a side that has seen all calls so far.
    pub fn seen(&mut self) -> Badge<LedgerSide>
        requires { HasCalls (table_of self.old) (all_in self.old) self.old }
        ensures ledger { CallsAs self.old self.new (all_in self.old) }
        ensures side { AreSeenCalls (table_of self.old) (all_in self.old) result }
    {
        let HomeTable { table, own } = self;
        table
            .shared
            .split_seat::<SideRule<LedgerSide>>(own)
            .into_badge()
    }

    /// Takes in a side that has seen the first calls, and gives one that has seen all calls so far. Takes no memory.
    pub fn show(&mut self, side: Badge<LedgerSide>) -> Badge<LedgerSide>
        requires ledger { HasCalls (table_of self.old) (all_in self.old) self.old }
        requires side { AreSeenCalls (table_of self.old) (calls_in side.views) side }
        ensures ledger { CallsAs self.old self.new (all_in self.old) }
        ensures side { AreSeenCalls (table_of self.old) (all_in self.old) result }
        ensures begins { IsPrefix (calls_in side.views) (all_in self.old) }
    {
        let HomeTable { table, own } = self;
        table
            .shared
            .join_seat::<SideRule<LedgerSide>>(own, side.into_seat());
        table.shared.load::<Compares>(own, 0);
        table
            .shared
            .split_seat::<SideRule<LedgerSide>>(own)
            .into_badge()
    }
}
