//! Slots that are looked at one after another.
ghost use Rattle.std.specs.Prelude.{◌≡◌, ◌+◌, ◌<◌, ◌^◌, ◌++◌, ◌∷◌, [], nat_eq, not, length, position, Some, None, false, if◌then◌else◌, IfOk, IfSome, OnOk, OnErr};
ghost use Rattle.std.specs.List.{list_any};
ghost use Rattle.id_table.specs.Tables.{AreNumbersPlaced, IsFree, IsProbed, IsIdTable, home};

use std::alloc::{AllocError, Global};

// A number by which those that follow one another in equal steps are spread.
const SPREAD: u64 = 0x9e37_79b9_7f4a_7c15;

// The most slots, and the most identifiers.
const MOST: usize = 0xffff_ffff;

/// What is found in the slots.
#[derive(Clone, Copy)]
pub(crate) enum Sought {
    /// The place of an identifier.
    Found(usize),
    /// The slot that an identifier may take, which isn't there.
    Empty(usize),
    /// An identifier isn't there, and no slot is empty.
    Full,
}

/// Looks for an identifier.
pub(crate) fn probe(slots: &[u32], ids: &[u64], id: u64) -> Sought
    requires { IsIdTable slots.now ids.now }
    ensures { IsProbed slots.now ids.now id result }
{
    let size = slots.len();
    if size == 0 {
        return Sought::Full;
    }
    let mut slot = home(id, size);
    for _d in 0..size {
        let number = slots[slot] as usize;
        if number == 0 {
            return Sought::Empty(slot);
        }
        if ids[number - 1] == id {
            return Sought::Found(number - 1);
        }
        slot = after(size, slot);
    }
    Sought::Full
}

// Returns the first slot of an identifier.
fn home(id: u64, size: usize) -> usize
    requires some { 0 < size }
    requires few { size < 2 ^ 32 }
    ensures value { result ≡ home size id }
    ensures within { result < size }
{
    let spread = id.wrapping_mul(SPREAD) >> 32;
    (spread * size as u64 >> 32) as usize
}

// Returns the slot after a slot.
fn after(size: usize, at: usize) -> usize
    requires { at < size }
    ensures { result ≡ (if nat_eq (at + 1) size then 0 else at + 1) }
{
    if at + 1 == size { 0 } else { at + 1 }
}

/// Puts an identifier behind the others, unless it is there. Tells whether it is new. Fails if an allocation fails, or if no slot
/// is empty or there are too many others.
pub(crate) fn add(ids: &mut Vec<u64>, slots: &mut [u32], id: u64) -> Result<bool, AllocError>
    requires { IsIdTable slots.old ids.old.items }
    ensures table { IsIdTable slots.new ids.new.items }
    ensures keys { OnOk result (ids.new.items
        ≡ (if list_any (nat_eq id) ids.old.items then ids.old.items
        else ids.old.items ++ id ∷ [])) }
    ensures added { IfOk result (λ b. b ≡ not (list_any (nat_eq id) ids.old.items)) }
    ensures unchanged { OnErr result (ids.new.items ≡ ids.old.items) }
{
    match probe(slots, ids, id) {
        Sought::Found(_) => Ok(false),
        Sought::Empty(at) => {
            put(ids, slots, id, at)?;
            Ok(true)
        }
        Sought::Full => Err(AllocError),
    }
}

// Puts an identifier that isn't there behind the others, and its number in an empty slot.
fn put(ids: &mut Vec<u64>, slots: &mut [u32], id: u64, at: usize) -> Result<(), AllocError>
    requires table { IsIdTable slots.old ids.old.items }
    requires absent { position (nat_eq id) ids.old.items ≡ None }
    requires free { IsFree slots.old id at }
    ensures table { IsIdTable slots.new ids.new.items }
    ensures keys { OnOk result (ids.new.items ≡ ids.old.items ++ id ∷ []) }
    ensures unchanged { OnErr result (ids.new.items ≡ ids.old.items) }
{
    let count = ids.len();
    if count >= MOST {
        return Err(AllocError);
    }
    ids.push(id)?;
    slots[at] = (count + 1) as u32;
    Ok(())
}

/// Makes this many slots, for all identifiers. Fails if an allocation fails, or if they are too few or too many.
pub(crate) fn slots_of(alloc: Global, ids: &[u64], size: usize) -> Result<Vec<u32>, AllocError>
    requires { length ids.now < 2 ^ 32 }
    ensures placed { IfOk result (λ s. AreNumbersPlaced s.items ids.now (length ids.now)) }
    ensures size { IfOk result (λ s. length s.items < 2 ^ 32) }
{
    if size > MOST {
        return Err(AllocError);
    }
    let mut slots = Vec::new(alloc);
    slots.resize(size, 0)?;
    for i in 0..ids.len() {
        match empty_slot(&slots, ids[i]) {
            Some(at) => slots[at] = (i + 1) as u32,
            None => return Err(AllocError),
        }
    }
    Ok(slots)
}

// Returns the first empty slot that an identifier may take.
fn empty_slot(slots: &[u32], id: u64) -> Option<usize>
    requires { length slots.now < 2 ^ 32 }
    ensures { IfSome result (λ at. IsFree slots.now id at) }
{
    let size = slots.len();
    if size == 0 {
        return None;
    }
    let mut slot = home(id, size);
    for _d in 0..size {
        if slots[slot] == 0 {
            return Some(slot);
        }
        slot = after(size, slot);
    }
    None
}
