//! Own fields and static fields in the records of classes.
ghost use Rattle.std.specs.Prelude.{◌≡◌, ◌≤◌, length, map, min, option_map, IfOk};
ghost use Rattle.hprof_reader.specs.Fields.{static_told};
ghost use Rattle.hprof_plan.specs.Fields.{own_fields, own_parts, static_fields, static_parts};

use heap_class::IdSize;
use hprof_reader::{OwnField, StaticField, Table, own_field_at, static_field_at};
use std::alloc::{AllocError, Global};

/// Returns the own fields of a class, up to the first whose kind doesn't exist. Fails if an allocation fails.
pub fn own_fields(alloc: Global, ids: IdSize, table: Table<'_>) -> Result<Vec<OwnField>, AllocError>
    ensures { IfOk result (λ v. v.items ≡ own_fields ids table.entry.count table.entry.bytes.now) }
{
    let mut fields = Vec::new(alloc);
    let mut rest = table.bytes;
    for _ in 0..table.count {
        match next_own(ids, rest) {
            Some((field, after)) => {
                fields.push(field)?;
                rest = after;
            }
            None => return Ok(fields),
        }
    }
    Ok(fields)
}

// Returns the own field in front of bytes, and the bytes after it, if there is one.
fn next_own(ids: IdSize, bytes: &[u8]) -> Option<(OwnField, &[u8])>
    ensures { option_map (λ x. (x.0, x.1.now)) result ≡ own_parts ids bytes.now }
{
    match own_field_at(ids, bytes) {
        Ok((field, rest)) => Some((field, rest)),
        Err(_) => None,
    }
}

/// Returns the first static fields of a class, at most 64. Fails if an allocation fails.
pub fn static_fields<'a>(
    alloc: Global,
    ids: IdSize,
    table: Table<'a>,
) -> Result<Vec<StaticField<'a>>, AllocError>
    ensures value { IfOk result
        (λ v. map static_told v.items
        ≡ static_fields ids (min table.entry.count 64) table.entry.bytes.now) }
    ensures few { IfOk result (λ v. length v.items ≤ 64) }
{
    let fields = read_statics(alloc, ids, table)?;
    Ok(fields)
}

// Returns the first static fields of a class, at most 64. Fails if an allocation fails.
fn read_statics<'a>(
    alloc: Global,
    ids: IdSize,
    table: Table<'a>,
) -> Result<Vec<StaticField<'a>>, AllocError>
    ensures { IfOk result
        (λ v. map static_told v.items
        ≡ static_fields ids (min table.entry.count 64) table.entry.bytes.now) }
{
    let mut fields = Vec::new(alloc);
    let mut rest = table.bytes;
    for _ in 0..table.count.min(64) {
        match next_static(ids, rest) {
            Some((field, after)) => {
                fields.push(field)?;
                rest = after;
            }
            None => return Ok(fields),
        }
    }
    Ok(fields)
}

// Returns the static field in front of bytes, and the bytes after it, if there is one.
fn next_static(ids: IdSize, bytes: &[u8]) -> Option<(StaticField<'_>, &[u8])>
    ensures { option_map (λ x. (static_told x.0, x.1.now)) result ≡ static_parts ids bytes.now }
{
    match static_field_at(ids, bytes) {
        Ok((field, rest)) => Some((field, rest)),
        Err(_) => None,
    }
}
