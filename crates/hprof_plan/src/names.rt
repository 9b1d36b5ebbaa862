//! Names of classes and fields that a heap takes.
ghost use Rattle.std.specs.Prelude.{◌≡◌, ◌&&◌, ◌++◌, [], codes, decimal, map, not, cond, IfOk, OnOk};
ghost use Rattle.std.specs.List.{list_all};
ghost use Rattle.heap_class.specs.Classes.{is_name, is_name_byte};
ghost use Rattle.hprof_plan.specs.Names.{is_clean, sign_for, other_name};

use heap_class::{ClassLimits, Name};
use std::alloc::{AllocError, Global};

/// Returns the name, if a heap with these limits takes it, it doesn't begin with a full stop, and it isn't given already. Returns
/// another name otherwise, made of the number. Fails if an allocation fails.
pub fn given_name(
    alloc: Global,
    limits: ClassLimits,
    is_given: bool,
    number: u64,
    name: &[u8],
) -> Result<Name, AllocError>
    ensures { IfOk result
        (λ n. n ≡ cond (is_clean limits name.now && not is_given) name.now
        (other_name limits number name.now)) }
{
    if is_clean(limits, name) && !is_given {
        Name::new(alloc, name)
    } else {
        other_name(alloc, limits, number, name)
    }
}

// Tells whether a heap with these limits takes the name, and it doesn't begin with a full stop.
fn is_clean(limits: ClassLimits, name: &[u8]) -> bool
    ensures { result ≡ is_clean limits name.now }
{
    match name {
        [first, ..] => *first != b'.' && is_taken(limits, name),
        [] => false,
    }
}

// Tells whether a heap with these limits takes the name.
#[tactic(auto, unfolding(heap_class::specs::Classes::is_name))]
fn is_taken(limits: ClassLimits, name: &[u8]) -> bool
    ensures { result ≡ is_name limits name.now }
{
    let count = name.len() as u64;
    1 <= count && count <= limits.name_bytes && are_allowed(limits.any_sign, name)
}

// Tells whether all bytes may stand in a name.
fn are_allowed(any_sign: bool, bytes: &[u8]) -> bool
    ensures { result ≡ list_all (is_name_byte any_sign) bytes.now }
{
    bytes.iter().all(|b| is_allowed(any_sign, *b))
}

// Tells whether a byte may stand in a name.
#[tactic(auto, unfolding(heap_class::specs::Classes::is_name_byte))]
fn is_allowed(any_sign: bool, byte: u8) -> bool
    ensures { result ≡ is_name_byte any_sign byte }
{
    (any_sign && byte.is_ascii_graphic() && byte != b':')
        || byte.is_ascii_alphanumeric()
        || matches!(byte, b'_' | b'$' | b'/' | b'[' | b';' | b'.')
}

// Returns the name that is written instead of this one, which no other has. Fails if an allocation fails.
#[tactic(auto, unfolding(crate::specs::Names::other_name))]
fn other_name(
    alloc: Global,
    limits: ClassLimits,
    number: u64,
    name: &[u8],
) -> Result<Name, AllocError>
    ensures { IfOk result (λ n. n ≡ other_name limits number name.now) }
{
    let room = limits.name_bytes.saturating_sub(22);
    let size = (name.len() as u64).min(room) as usize;
    let mut text = Vec::new(alloc);
    push_number(&mut text, number)?;
    push_signs(&mut text, limits.any_sign, &name[..size])?;
    Ok(Name::from_vec(text))
}

// Appends the number between two full stops. Fails if an allocation fails.
fn push_number(text: &mut Vec<u8>, number: u64) -> Result<(), AllocError>
    ensures { OnOk result
        (text.new.items ≡ text.old.items ++ (codes "." ++ decimal number ++ codes ".")) }
{
    text.extend_from_slice(b".")?;
    text.extend_from_slice(itoa::Buffer::new().format(number).as_bytes())?;
    text.extend_from_slice(b".")?;
    Ok(())
}

// Appends the bytes, with a low line instead of each that may not stand in a name. Fails if an allocation fails.
fn push_signs(text: &mut Vec<u8>, any_sign: bool, bytes: &[u8]) -> Result<(), AllocError>
    ensures { OnOk result (text.new.items ≡ text.old.items ++ map (sign_for any_sign) bytes.now) }
{
    for byte in bytes {
        text.push(sign_for(any_sign, *byte))?;
    }
    Ok(())
}

// Returns the byte, if it may stand in a name, or else a low line.
fn sign_for(any_sign: bool, byte: u8) -> u8
    ensures { result ≡ sign_for any_sign byte }
{
    if is_allowed(any_sign, byte) {
        byte
    } else {
        b'_'
    }
}
