//! The values of slots, in the bytes of objects.
ghost use Rattle.std.specs.Prelude.{◌≡◌, ◌≤◌, ◌+◌, ◌++◌, nat_lt, IfOk, OnOk, drop, take};
ghost use Rattle.heap_class.specs.Kinds.{width_of};
ghost use Rattle.hprof_lines.specs.Values.{after_fields, elements_from, fields_from, number_in, statics_from, value_if};

use heap_class::{IdSize, Kind};
use hprof_reader::StaticField;
use std::alloc::AllocError;

/// A value of a slot of an object.
#[derive(Clone, Copy, PartialEq, Eq, Debug)]
pub struct SlotValue {
    /// The number of the slot.
    pub slot: u64,
    /// The kind of the slot.
    pub kind: Kind,
    /// The value, or the id of the object that is named.
    pub value: u64,
}

/// Adds the values of an array's first `count` elements. Fails if an allocation fails.
pub(crate) fn add_elements(
    slots: &mut Vec<SlotValue>,
    ids: IdSize,
    kind: Kind,
    count: u64,
    bytes: &[u8],
) -> Result<(), AllocError>
    ensures { OnOk result (slots.new.items
        ≡ slots.old.items ++ elements_from ids kind count 0 bytes.now) }
{
    let mut rest = bytes;
    for slot in 0..count {
        let (value, after) = number_at(ids, kind, rest);
        slots.push(SlotValue { slot, kind, value })?;
        rest = after;
    }
    Ok(())
}

// Reads the number that a value of this kind is, at the front of bytes, as far as they go. Returns it with the bytes after it.
fn number_at(ids: IdSize, kind: Kind, bytes: &[u8]) -> (u64, &[u8])
    ensures number { result.0 ≡ number_in (take (width_of ids kind) bytes.now) }
    ensures rest { result.1.now ≡ drop (width_of ids kind) bytes.now }
{
    let size = bytes.len().min(kind.width(ids) as usize);
    let (front, rest) = bytes.split_at(size);
    (number_in(front), rest)
}

// Returns the number that bytes are, the highest first: its last 64 bits.
#[tactic(auto, unfolding(crate::specs::Values::number_in))]
fn number_in(bytes: &[u8]) -> u64
    ensures { result ≡ number_in bytes.now }
{
    let mut number = 0u64;
    for byte in bytes {
        number = number.wrapping_mul(256).wrapping_add(*byte as u64);
    }
    number
}

/// Adds the values of fields of these kinds that a class has, of which it keeps the first `kept`, in slots from `base` on.
/// Returns the bytes after all of these fields. Fails if an allocation fails.
pub(crate) fn add_fields<'a>(
    slots: &mut Vec<SlotValue>,
    ids: IdSize,
    kinds: &[Kind],
    kept: u64,
    base: u64,
    bytes: &'a [u8],
) -> Result<&'a [u8], AllocError>
    requires kept { kept ≤ 64 }
    requires base { base ≤ 64 }
    ensures slots { OnOk result (slots.new.items
        ≡ slots.old.items ++ fields_from ids kept base 0 kinds.now bytes.now) }
    ensures rest { IfOk result (λ rest. rest.now ≡ after_fields ids kinds.now bytes.now) }
{
    let mut rest = bytes;
    for (i, kind) in kinds.iter().enumerate() {
        let (value, after) = number_at(ids, *kind, rest);
        add_if_kept(slots, kept, base, i as u64, *kind, value)?;
        rest = after;
    }
    Ok(rest)
}

// Adds the value of field i of a class, if the class keeps it: it keeps the first `kept`, in slots from `base` on.
fn add_if_kept(
    slots: &mut Vec<SlotValue>,
    kept: u64,
    base: u64,
    i: u64,
    kind: Kind,
    value: u64,
) -> Result<(), AllocError>
    requires kept { kept ≤ 64 }
    requires base { base ≤ 64 }
    ensures { OnOk result (slots.new.items ≡ slots.old.items
        ++ value_if (nat_lt i kept) (record { slot = base + i; kind = kind; value = value })) }
{
    if i < kept {
        let slot = base + i;
        slots.push(SlotValue { slot, kind, value })?;
    }
    Ok(())
}

/// Adds the values of static fields. Fails if an allocation fails.
pub fn add_statics(slots: &mut Vec<SlotValue>, fields: &[StaticField<'_>]) -> Result<(), AllocError>
    ensures { OnOk result (slots.new.items ≡ slots.old.items ++ statics_from 0 fields.now) }
{
    for (i, field) in fields.iter().enumerate() {
        let slot = i as u64;
        let kind = field.kind;
        let value = number_in(field.value);
        slots.push(SlotValue { slot, kind, value })?;
    }
    Ok(())
}
