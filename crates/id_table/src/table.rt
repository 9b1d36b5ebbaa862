//! The table.
ghost use Rattle.std.specs.Prelude.{◌≡◌, ◌==◌, ◌<◌, ◌^◌, ◌++◌, ◌∷◌, [], nat_eq, not, length, position, true, false, if◌then◌else◌, IfOk, IfSome, OnOk, OnErr};
ghost use Rattle.std.specs.List.{list_any};
ghost use Rattle.std.specs.Option.{option_map_or};

use crate::probing::{Sought, add, probe, slots_of};
use std::alloc::{AllocError, Global};
use std::marker::Model;

// The fewest slots of a table that has identifiers.
const LEAST: usize = 16;

/// Identifiers in the order in which they came, each once. Contracts see their list. Takes 8 bytes for each, and 4 for each slot.
#[derive(Drop)]
pub struct IdTable {
    ids: Vec<u64>,
    slots: Vec<u32>,
}

impl Model for IdTable {
    ghost use Rattle.id_table.specs.Tables.{Ids, IsIdTable};

    ghost Value = { Ids };

    ghost view = { λ t. record { keys = t.ids.items } };

    ghost invariant = { λ t. IsIdTable t.slots.items t.ids.items };
}

impl IdTable {
    /// Creates a table without identifiers. Takes no memory.
    pub fn new(alloc: Global) -> IdTable
        ensures { result.keys ≡ [] }
    {
        IdTable {
            ids: Vec::new(alloc),
            slots: Vec::new(alloc),
        }
    }

    /// Returns the number of identifiers.
    pub fn len(&self) -> usize
        ensures len { result ≡ length self.now.keys }
        ensures small { result < 2 ^ 32 }
    {
        self.ids.len()
    }

    /// Returns the place of an identifier among all, or None if it isn't there.
    pub fn index_of(&self, id: u64) -> Option<usize>
        ensures place { result ≡ position (nat_eq id) self.now.keys }
        ensures within { IfSome result (λ i. i < length self.now.keys) }
    {
        match probe(&self.slots, &self.ids, id) {
            Sought::Found(i) => Some(i),
            Sought::Empty(_) => None,
            Sought::Full => None,
        }
    }

    /// Tells whether an identifier is there.
    pub fn contains(&self, id: u64) -> bool
        ensures { result ≡ list_any (nat_eq id) self.now.keys }
    {
        self.index_of(id).is_some()
    }

    /// Tells whether this is the place of an identifier. Looks at one identifier only.
    pub fn is_at(&self, i: usize, id: u64) -> bool
        ensures value { result
            ≡ option_map_or (λ k. k == i) (position (nat_eq id) self.now.keys) false }
        ensures within { result ≡ true → i < length self.now.keys }
    {
        i < self.ids.len() && self.ids[i] == id
    }

    /// Puts an identifier behind the others, unless it is there. Tells whether it is new. Fails if an allocation fails, and may
    /// fail if there are more than 2^30 others.
    pub fn insert(&mut self, id: u64) -> Result<bool, AllocError>
        ensures keys { OnOk result (self.new.keys
            ≡ (if list_any (nat_eq id) self.old.keys then self.old.keys
            else self.old.keys ++ id ∷ [])) }
        ensures added { IfOk result (λ b. b ≡ not (list_any (nat_eq id) self.old.keys)) }
        ensures unchanged { OnErr result (self.new.keys ≡ self.old.keys) }
    {
        let count = self.ids.len();
        let size = self.slots.len();
        if size / 4 * 3 <= count {
            self.set_size(size.saturating_mul(2).max(LEAST))?;
        }
        add(&mut self.ids, &mut self.slots, id)
    }

    /// Gives back the memory of slots beyond five for four identifiers. Fails if an allocation fails, and changes nothing then.
    pub fn fit(&mut self) -> Result<(), AllocError>
        ensures { self.new ≡ self.old }
    {
        let count = self.ids.len();
        self.set_size(count + count / 4 + 1)
    }

    // Makes this many slots instead of those that there are.
    fn set_size(&mut self, size: usize) -> Result<(), AllocError>
        ensures { self.new ≡ self.old }
    {
        let alloc = *self.ids.allocator();
        self.slots = slots_of(alloc, &self.ids, size)?;
        Ok(())
    }
}
