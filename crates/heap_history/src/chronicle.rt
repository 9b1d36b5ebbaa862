//! What was done, in order.
ghost use Rattle.std.specs.Prelude.{◌≡◌, ◌↔◌, ◌<◌, ◌≤◌, ◌++◌, ◌∷◌, Bool, false, List, [], length, slice_get, Some, IfNone, IfSome, IsTrue, MatchBool, OnOk};
ghost use Rattle.heap_trail.specs.Limits.{last_place};
ghost use Rattle.heap_history.specs.declared.entry.Entry.{Entry};
ghost use Rattle.heap_history.specs.Chronicles.{HaveWay, IsChronicle, dropped_of, room_of};
ghost use Rattle.heap_history.specs.History.{entry};
ghost use Rattle.heap_history.specs.Kept.{is_known_at};
ghost use Rattle.heap_history.specs.Limits.{block_limit, entry_limit};

use crate::block::EntryBlock;
use crate::entry::{Entry, Outcome};
use heap_trail::Action;
use http_server::Log;
use std::alloc::{AllocError, Global};
use std::marker::Model;
use std::mem::swap;

// Entries of a chronicle that are kept at most.
const CHRONICLE_LIMIT: usize = 1_000_000;

// Entries that are dropped together.
const BLOCK_LIMIT: usize = 500_000;

// Entries of a chronicle that drops old ones at most: 2^62.
const LAST_ENTRY: usize = 0x4000_0000_0000_0000;

/// What was done, in order, an entry for each act. Once 1,000,000 entries are kept it takes no more, or, if it rolls, the next
/// one has it drop the oldest 500,000. Contracts see all entries, dropped ones included, whether it rolls, and how many entries
/// more it has room for. An entry takes 48 bytes, and 176 more if it defines a class with at most 8 fields and at most 96 letters
/// in its name and theirs. A longer definition isn't kept whole: it is counted, and an audit can't tell it from another entry.
#[derive(Drop)]
pub struct Chronicle {
    older: EntryBlock,
    // The entries after those of `older`.
    newer: EntryBlock,
    // The number of the entries before those of `older`.
    dropped: usize,
    rolls: bool,
    // All entries, for contracts alone.
    noted: Log<Entry, ()>,
}

impl Model for Chronicle {
    ghost use Rattle.heap_history.specs.Chronicles.{ChronicleState, IsChronicle, entries_of, room_of};

    ghost Value = { ChronicleState };

    ghost view = { λ c.
        record {
          entries = entries_of c.noted.items;
          rolls = c.rolls;
          room = room_of c.older c.newer;
        } };

    ghost invariant = { λ c. IsChronicle c.older.entries c.newer.entries c.dropped c.rolls
        (entries_of c.noted.items) };
}

// Makes way for one more entry in the newer of two blocks, before which `dropped` entries were dropped. Returns how many are
// dropped then.
#[inline(always)]
fn make_way(older: &mut EntryBlock, newer: &mut EntryBlock, dropped: usize) -> usize
    requires dropped { dropped ≤ last_place }
    requires older { length older.old.entries ≤ block_limit }
    ensures kept { (rolls : Bool) (es : List Entry)
        → IsChronicle older.old.entries newer.old.entries dropped rolls es
        → length es < entry_limit rolls → HaveWay older.new newer.new result rolls es }
    ensures room { room_of older.old newer.old ≤ newer.new.room }
{
    if newer.len() == BLOCK_LIMIT {
        dropped + roll(older, newer)
    } else {
        dropped
    }
}

// Drops the entries of the older block, which is the newer one then. Returns how many they were.
#[inline(never)]
fn roll(older: &mut EntryBlock, newer: &mut EntryBlock) -> usize
    ensures older { older.new.entries ≡ newer.old.entries }
    ensures newer { newer.new.entries ≡ [] }
    ensures room { older.old.room ≤ newer.new.room }
    ensures dropped { result ≡ length older.old.entries }
{
    let dropped = older.len();
    older.clear();
    swap(older, newer);
    dropped
}

impl Chronicle {
    /// Creates a chronicle without entries, which drops old ones or refuses new ones. Takes no memory.
    #[tactic(auto, unfolding(crate::specs::Chronicles::entries_of, crate::specs::Kept::kept_entries))]
    pub fn new(alloc: Global, rolls: bool) -> Chronicle
        ensures entries { result.entries ≡ [] }
        ensures rolls { result.rolls ≡ rolls }
    {
        Chronicle {
            older: EntryBlock::new(alloc),
            newer: EntryBlock::new(alloc),
            dropped: 0,
            rolls,
            noted: Log::new(),
        }
    }

    /// Returns how many entries there are, dropped ones included.
    pub fn len(&self) -> usize
        ensures { result ≡ length self.now.entries }
    {
        self.dropped + self.older.len() + self.newer.len()
    }

    /// Returns how many of the first entries were dropped.
    pub fn dropped_count(&self) -> usize
        ensures { result ≡ dropped_of self.now.rolls (length self.now.entries) }
    {
        self.dropped
    }

    /// Tells whether it takes no more entries: if there are 1,000,000, or 2^62 if it rolls.
    #[inline(always)]
    pub fn is_full(&self) -> bool
        ensures { MatchBool result (entry_limit self.now.rolls ≤ length self.now.entries)
            (length self.now.entries < entry_limit self.now.rolls) }
    {
        let most = if self.rolls {
            LAST_ENTRY
        } else {
            CHRONICLE_LIMIT
        };
        self.len() >= most
    }

    /// Makes room for one more entry. Fails with AllocError if an allocation fails; the entries stay in either case.
    pub fn reserve(&mut self) -> Result<(), AllocError>
        ensures entries { self.new ≡ record self.old { room = self.new.room } }
        ensures room { OnOk result (0 < self.new.room) }
    {
        if self.newer.len() == BLOCK_LIMIT {
            self.older.reserve()
        } else {
            self.newer.reserve()
        }
    }

    /// Appends an entry, for which there has to be room. Drops the oldest 500,000 entries if 1,000,000 are kept. Takes no
    /// memory.
    #[inline(always)]
    pub fn push(&mut self, entry: Entry)
        requires room { 0 < self.old.room }
        requires more { length self.old.entries < entry_limit self.old.rolls }
        ensures entries { self.new.entries ≡ self.old.entries ++ entry ∷ [] }
        ensures rolls { self.new.rolls ≡ self.old.rolls }
    {
        self.dropped = make_way(&mut self.older, &mut self.newer, self.dropped);
        self.noted = self.noted.and(&entry, &());
        self.newer.push(entry);
    }

    /// Returns whether the entry at an index wasn't dropped and is kept whole. Returns true if there is none at the index.
    pub fn is_known(&self, at: usize) -> bool
        ensures { result ≡ is_known_at (dropped_of self.now.rolls (length self.now.entries))
            self.now.entries at }
    {
        if at < self.dropped {
            return false;
        }
        let kept = at - self.dropped;
        let older = self.older.len();
        if kept < older {
            self.older.is_known(kept)
        } else {
            self.newer.is_known(kept - older)
        }
    }

    /// Returns whether the entry at an index is that of the seat, the action and the answer, or None if the entry at the index
    /// was dropped or isn't kept whole. Returns false if there is none at the index. Takes no memory.
    pub fn is_done(&self, at: usize, seat: u64, action: &Action, answer: Outcome) -> Option<bool>
        ensures kept { IfSome result
            (λ b. IsTrue (is_known_at (dropped_of self.now.rolls (length self.now.entries))
            self.now.entries at)
            × (IsTrue b ↔
            (slice_get self.now.entries at ≡ Some (entry seat action.now answer)))) }
        ensures unkept { IfNone result
            (is_known_at (dropped_of self.now.rolls (length self.now.entries))
            self.now.entries at ≡ false) }
    {
        if at < self.dropped {
            return None;
        }
        let kept = at - self.dropped;
        let older = self.older.len();
        if kept < older {
            self.older.is_done(kept, seat, action, answer)
        } else {
            self.newer.is_done(kept - older, seat, action, answer)
        }
    }
}
