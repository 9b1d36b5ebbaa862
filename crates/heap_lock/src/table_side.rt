//! The copies of a seat's entries that the sides of its table have.
use crate::home_table::Side;
use heap_history::Entry;
use std::collections::LinkedList;

/// The lists that the sides of a table have. No value of this type is made.
pub enum TableSide {
    /// Both copies.
    Whole(LinkedList<(u64, Entry)>, LinkedList<(u64, Entry)>),
    /// The copy under the lock.
    UnderLock(LinkedList<(u64, Entry)>),
    /// The share.
    WithSeat(LinkedList<(u64, Entry)>),
    /// No copy.
    Spent,
}

// Spent sides excepted, there is one side with both copies, or one with each, and the copies are equal.
impl Side for TableSide {
    ghost use Rattle.std.specs.Prelude.{[]};
    ghost use Rattle.heap_lock.specs.declared.table_side.TableSide.TheVariants.{Spent, Whole};
    ghost use Rattle.heap_lock.specs.SeatEntries.{AreSeatEntries, lock_side, seat_side, whole_of};

    ghost holds = { AreSeatEntries };

    ghost first = { Whole [] [] };

    ghost left = { lock_side };

    ghost right = { seat_side };

    ghost both = { whole_of };

    ghost spent = { Spent };
}
