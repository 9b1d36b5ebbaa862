//! Blocks of entries.
ghost use Rattle.std.specs.Prelude.{◌≡◌, ◌≢◌, ◌↔◌, ◌<◌, ◌≤◌, ◌++◌, ◌∷◌, [], true, false, length, slice_get, Some, None, IfNone, IfSome, IsTrue, MatchBool, OnOk};
ghost use Rattle.heap_history.specs.declared.pack.Form.TheVariants.{Nothing};
ghost use Rattle.heap_history.specs.Blocks.{HasPlace};
ghost use Rattle.heap_history.specs.History.{entry};
ghost use Rattle.heap_history.specs.Kept.{kept_of};
ghost use Rattle.heap_history.specs.Packs.{entry_by, entry_in, TellsEntry, long_entry};

use crate::entry::{Entry, Outcome};
use crate::long::{is_long_pack_of, long_of};
use crate::pack::{Deed, Form, LongPack, Pack, Told};
use crate::packing::{fourth_beside, pack_of};
use crate::same::{is_same_action, is_same_answer};
use crate::unpacking::{action_in, outcome_in};
use heap_class::Kind;
use heap_trail::Action;
use std::alloc::{AllocError, Global};
use std::marker::Model;

// Entries in order. Contracts see what is kept of each, and how many more it has room for. An entry takes 48 bytes, and 176 more
// if it has a long pack.
#[derive(Drop)]
pub(crate) struct EntryBlock {
    packs: Vec<Pack>,
    longs: Vec<LongPack>,
}

impl Model for EntryBlock {
    ghost use Rattle.std.specs.Prelude.{length};
    ghost use Rattle.heap_history.specs.Blocks.{BlockState, AllPlaced, entries_in, room_in};

    ghost Value = { BlockState };

    ghost view = { λ b.
        record {
          entries = entries_in b.longs.items b.packs.items;
          room = room_in b.longs b.packs;
        } };

    ghost invariant = { λ b. AllPlaced (length b.longs.items) b.packs.items };
}

// Returns a pack of this form that has a place.
fn pack_at(form: Form, place: u64) -> Pack
    ensures { (result.form ≡ form) × (result.first ≡ place) }
{
    Pack {
        first: place,
        second: 0,
        third: 0,
        fourth: 0,
        told_first: 0,
        seat: 0,
        form,
        deed: Deed::Snap,
        kind: Kind::Object,
        told: Told::Done,
        reason: 0,
    }
}

// Returns whether the pack tells the entry of the seat, the action and the answer, or None if it tells none.
fn tells(
    longs: &[LongPack],
    pack: &Pack,
    seat: u64,
    action: &Action,
    answer: Outcome,
) -> Option<bool>
    requires { HasPlace (length longs.now) pack.now }
    ensures kept { IfSome result
        (λ b. (entry_in longs.now pack.now ≢ None)
        × (IsTrue b ↔ (entry_in longs.now pack.now ≡ Some (entry seat action.now answer)))) }
    ensures unkept { IfNone result (entry_in longs.now pack.now ≡ None) }
{
    match pack.form {
        Form::Numbers => Some(is_of(&unpack(pack), seat, action, answer)),
        Form::Long => {
            let long = &longs[pack.first as usize];
            Some(is_long_pack_of(long, seat, action, answer))
        }
        Form::Nothing => None,
    }
}

// Returns whether this is the entry of the seat, the action and the answer.
fn is_of(at: &Entry, seat: u64, action: &Action, answer: Outcome) -> bool
    ensures { IsTrue result ↔ (at.now ≡ entry seat action.now answer) }
{
    at.seat == seat && is_same_action(&at.action, action) && is_same_answer(at.answer, answer)
}

// Returns the entry that a pack tells by its numbers.
#[tactic(auto, unfolding(crate::specs::Packs::entry_by))]
fn unpack(pack: &Pack) -> Entry
    ensures { result ≡ entry_by pack.now }
{
    Entry {
        seat: pack.seat as u64,
        action: action_in(
            pack.deed,
            pack.kind,
            pack.first,
            pack.second,
            pack.third,
            fourth_beside(pack.told, pack.fourth),
        ),
        answer: outcome_in(pack.told, pack.reason, pack.told_first, pack.fourth),
    }
}

// Returns whether the pack tells an entry.
fn tells_some(pack: &Pack) -> bool
    ensures { MatchBool result (pack.now.form ≢ Nothing) (pack.now.form ≡ Nothing) }
{
    !matches!(pack.form, Form::Nothing)
}

impl EntryBlock {
    // Creates a block without entries. Takes no memory.
    #[tactic(auto, unfolding(crate::specs::Blocks::entries_in))]
    pub(crate) fn new(alloc: Global) -> EntryBlock
        ensures { result.entries ≡ [] }
    {
        EntryBlock {
            packs: Vec::new(alloc),
            longs: Vec::new(alloc),
        }
    }

    // Returns how many entries there are.
    #[tactic(auto, unfolding(crate::specs::Blocks::entries_in))]
    pub(crate) fn len(&self) -> usize
        ensures { result ≡ length self.now.entries }
    {
        self.packs.len()
    }

    // Makes room for one more entry. Fails with AllocError if an allocation fails; the entries stay in either case.
    pub(crate) fn reserve(&mut self) -> Result<(), AllocError>
        ensures entries { self.new.entries ≡ self.old.entries }
        ensures room { OnOk result (0 < self.new.room) }
    {
        self.packs.reserve(1)?;
        self.longs.reserve(1)
    }

    // Removes all entries, and keeps the room.
    #[tactic(auto, unfolding(crate::specs::Blocks::entries_in))]
    pub(crate) fn clear(&mut self)
        ensures entries { self.new.entries ≡ [] }
        ensures room { self.old.room ≤ self.new.room }
    {
        self.packs.clear();
        self.longs.clear();
    }

    // Appends a pack, which tells this entry by its numbers.
    #[inline(always)]
    fn push_pack(&mut self, pack: Pack, entry: &Entry)
        requires room { 0 < self.old.room }
        requires tells { TellsEntry pack entry.now }
        ensures { self.new.entries ≡ self.old.entries ++ kept_of entry.now ∷ [] }
    {
        // Only the contract uses it.
        let _ = entry;
        self.packs.push_reserved(pack);
    }

    // Appends a long pack, and a pack with its place.
    fn push_long(&mut self, long: LongPack)
        requires { 0 < self.old.room }
        ensures { self.new.entries ≡ self.old.entries ++ Some (long_entry long) ∷ [] }
    {
        let place = self.longs.len() as u64;
        self.packs.push_reserved(pack_at(Form::Long, place));
        self.longs.push_reserved(long);
    }

    // Appends a pack that tells nothing.
    fn push_nothing(&mut self)
        requires { 0 < self.old.room }
        ensures { self.new.entries ≡ self.old.entries ++ None ∷ [] }
    {
        self.packs.push_reserved(pack_at(Form::Nothing, 0));
    }

    // Appends what is kept of an entry that has no room in a pack. It is never inlined, so that other acts don't pay for it.
    #[cold]
    #[inline(never)]
    fn push_rare(&mut self, entry: &Entry)
        requires { 0 < self.old.room }
        ensures { self.new.entries ≡ self.old.entries ++ kept_of entry.now ∷ [] }
    {
        match long_of(entry) {
            Some(long) => self.push_long(long),
            None => self.push_nothing(),
        }
    }

    // Appends what is kept of an entry, for which there has to be room. Takes no memory.
    #[inline(always)]
    pub(crate) fn push(&mut self, entry: Entry)
        requires { 0 < self.old.room }
        ensures { self.new.entries ≡ self.old.entries ++ kept_of entry ∷ [] }
    {
        match pack_of(&entry) {
            Some(pack) => self.push_pack(pack, &entry),
            None => self.push_rare(&entry),
        }
    }

    // Returns whether the entry at an index is kept. Returns true if there is none at the index.
    pub(crate) fn is_known(&self, at: usize) -> bool
        ensures { MatchBool result (slice_get self.now.entries at ≢ Some None)
            (slice_get self.now.entries at ≡ Some None) }
    {
        if at >= self.packs.len() {
            return true;
        }
        tells_some(&self.packs[at])
    }

    // Returns whether the entry at an index is that of the seat, the action and the answer, or None if it isn't kept. Returns
    // false if there is none at the index. Takes no memory.
    pub(crate) fn is_done(
        &self,
        at: usize,
        seat: u64,
        action: &Action,
        answer: Outcome,
    ) -> Option<bool>
        ensures kept { IfSome result
            (λ b. (slice_get self.now.entries at ≢ Some None)
            × (IsTrue b ↔
            (slice_get self.now.entries at ≡ Some (Some (entry seat action.now answer))))) }
        ensures unkept { IfNone result (slice_get self.now.entries at ≡ Some None) }
    {
        if at >= self.packs.len() {
            return Some(false);
        }
        let pack = &self.packs[at];
        tells(self.longs.as_slice(), pack, seat, action, answer)
    }
}
