//! The entries of a seat, in two equal copies: one stays under the lock, and the other, the share, goes with the seat.
ghost use Rattle.std.specs.Prelude.{◌≡◌, []};
ghost use Rattle.heap_lock.specs.SeatEntries.{entries_of, entries_in};
ghost use Rattle.heap_lock.specs.HomeTables.{table_of};
ghost use Rattle.heap_lock.specs.SeatTables.{IsUnsplit, HasCopy, CopiesAs, IsShare, entries_with};

use crate::home_table::{AddsEntry, HomeTable, SideRule};
use crate::table_side::TableSide;
use atomic_table::{Badge, Play};
use heap_history::Entry;
use std::marker::Brand;
use std::snapshot::Snapshot;

/// The entry that a step adds.
pub trait NotedEntry {
    ghost use Rattle.std.specs.Prelude.{ℕ};
    ghost use Rattle.heap_history.specs.declared.entry.Entry.{Entry};

    ghost noted: { ℕ × Entry };
}

impl NotedEntry for Brand {
    ghost use Rattle.heap_lock.specs.SeatEntries.{no_entry};

    ghost noted = { no_entry };
}

// The step that adds an entry to both lists, which were equal.
impl<E: NotedEntry> Play<(), TableSide> for AddsEntry<E> {
    ghost use Rattle.heap_lock.specs.SeatEntries.{Noted};

    ghost then = { λ step m found n. Noted E.noted m n };
}

/// The step that tells that both lists are equal.
pub struct Agrees;

impl Play<(), TableSide> for Agrees {
    ghost use Rattle.heap_lock.specs.SeatEntries.{Agreed};

    ghost then = { λ step m found n. Agreed m n };
}

/// The table of a seat, with the copy under the lock. A new one is that of a seat that has done nothing.
pub type SeatTable = HomeTable<TableSide>;

impl HomeTable<TableSide> {
    /// Splits the share off, both empty.
    pub fn open(&mut self) -> Badge<TableSide>
        requires { IsUnsplit self.old }
        ensures seat_table { CopiesAs self.old self.new [] }
        ensures share { IsShare (table_of self.old) [] result }
    {
        let HomeTable { table, own } = self;
        table
            .shared
            .split_seat::<SideRule<TableSide>>(own)
            .into_badge()
    }

    // Joins both copies, adds the entry to each, and splits them again.
    fn note<E: NotedEntry>(
        &mut self,
        share: Badge<TableSide>,
        turn: u64,
        entry: &Snapshot<Entry>,
    ) -> Badge<TableSide>
        requires noted { E.noted ≡ (turn, entry.now.value) }
        requires seat_table { HasCopy self.old }
        requires share { IsShare (table_of self.old) (entries_in share.views) share }
        ensures seat_table { CopiesAs self.old self.new (entries_with self.old E.noted) }
        ensures share { IsShare share.table_id (entries_with self.old E.noted) result }
        ensures same { entries_in share.views ≡ entries_of self.old.own.me.0 }
    {
        // Only the contract uses these two.
        let _ = turn;
        let _ = entry;
        let HomeTable { table, own } = self;
        table
            .shared
            .join_seat::<SideRule<TableSide>>(own, share.into_seat());
        table.shared.load::<AddsEntry<E>>(own, 0);
        table
            .shared
            .split_seat::<SideRule<TableSide>>(own)
            .into_badge()
    }

    /// Adds the entry of this turn to both copies, which are equal. Takes no memory.
    pub(crate) fn add_entry(
        &mut self,
        share: Badge<TableSide>,
        turn: u64,
        entry: &Snapshot<Entry>,
    ) -> Badge<TableSide>
        requires seat_table { HasCopy self.old }
        requires share { IsShare (table_of self.old) (entries_in share.views) share }
        ensures seat_table { CopiesAs self.old self.new
            (entries_with self.old (turn, entry.now.value)) }
        ensures share { IsShare share.table_id (entries_with self.old (turn, entry.now.value))
            result }
        ensures same { entries_in share.views ≡ entries_of self.old.own.me.0 }
    {
        self.note::<Brand>(share, turn, entry)
    }

    /// Compares both copies, which are equal. Takes no memory.
    pub fn agree(&mut self, share: Badge<TableSide>) -> Badge<TableSide>
        requires seat_table { HasCopy self.old }
        requires share { IsShare (table_of self.old) (entries_in share.views) share }
        ensures seat_table { CopiesAs self.old self.new (entries_of self.old.own.me.0) }
        ensures share { IsShare share.table_id (entries_of self.old.own.me.0) result }
        ensures same { entries_in share.views ≡ entries_of self.old.own.me.0 }
    {
        let HomeTable { table, own } = self;
        table
            .shared
            .join_seat::<SideRule<TableSide>>(own, share.into_seat());
        table.shared.load::<Agrees>(own, 0);
        table
            .shared
            .split_seat::<SideRule<TableSide>>(own)
            .into_badge()
    }
}
