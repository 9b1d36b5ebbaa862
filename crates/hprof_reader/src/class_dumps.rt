//! The sub-records of classes.
ghost use Rattle.std.specs.Prelude.{◌≡◌, ◌-◌, length, take};
ghost use Rattle.hprof_reader.specs.Reading.{Gives};
ghost use Rattle.hprof_reader.specs.SubRecords.{entries, class_told};
ghost use Rattle.hprof_reader.specs.Entries.{entry, entry_parts, after_entries, table_parts, fields_table_parts};
ghost use Rattle.hprof_reader.specs.SubParts.{class_head_parts, class_parts};

use crate::fault::Fault;
use crate::kinds::kind_at;
use crate::numbers::{bytes_at, id_at, u2_at, u4_at};
use heap_class::{IdSize, Kind};

/// Constants, static fields or fields of a class.
#[derive(Clone, Copy, PartialEq, Eq, Debug)]
pub struct Table<'a> {
    /// How many there are.
    pub count: u16,
    /// Their bytes.
    pub bytes: &'a [u8],
}

/// A constant of a class, or a static field.
#[derive(Clone, Copy, PartialEq, Eq, Debug)]
pub struct Entry<'a> {
    /// Its index, or the id of its name.
    pub key: &'a [u8],
    /// The kind of its value.
    pub kind: Kind,
    /// Its value.
    pub value: &'a [u8],
}

/// The numbers of a class.
#[derive(Clone, Copy, PartialEq, Eq, Debug)]
pub struct ClassHead {
    /// The id of the class.
    pub id: u64,
    /// The serial of a stack trace.
    pub trace: u32,
    /// The id of the class that it extends, or 0.
    pub super_id: u64,
    /// The id of its loader, or 0.
    pub loader: u64,
    /// The id of its signers, or 0.
    pub signers: u64,
    /// The id of its protection domain, or 0.
    pub domain: u64,
    /// A reserved number.
    pub reserved: u64,
    /// Another reserved number.
    pub also_reserved: u64,
    /// The size of an instance in bytes.
    pub size: u32,
}

/// A class.
#[derive(Clone, Copy, PartialEq, Eq, Debug)]
pub struct ClassDump<'a> {
    /// Its numbers.
    pub head: ClassHead,
    /// Its constants.
    pub constants: Table<'a>,
    /// Its static fields.
    pub statics: Table<'a>,
    /// Its own fields.
    pub fields: Table<'a>,
}

// Reads what follows the tag of a class.
#[tactic(auto, unfolding(crate::specs::SubParts::class_parts))]
pub(crate) fn class_dump_at(ids: IdSize, bytes: &[u8]) -> Result<(ClassDump<'_>, &[u8]), Fault>
    ensures { Gives (λ x. (class_told x.0, x.1.now)) result (class_parts ids bytes.now) }
{
    let (head, rest) = class_head_at(ids, bytes)?;
    let (constants, rest) = table_at(ids, 2, rest)?;
    let (statics, rest) = table_at(ids, ids.bytes(), rest)?;
    let (fields, rest) = fields_at(ids, rest)?;
    let class = ClassDump {
        head,
        constants,
        statics,
        fields,
    };
    Ok((class, rest))
}

// Reads the numbers of a class.
#[tactic(auto, unfolding(crate::specs::SubParts::class_head_parts))]
fn class_head_at(ids: IdSize, bytes: &[u8]) -> Result<(ClassHead, &[u8]), Fault>
    ensures { Gives (λ x. (x.0, x.1.now)) result (class_head_parts ids bytes.now) }
{
    let (id, rest) = id_at(ids, bytes)?;
    let (trace, rest) = u4_at(rest)?;
    let (super_id, rest) = id_at(ids, rest)?;
    let (loader, rest) = id_at(ids, rest)?;
    let (signers, rest) = id_at(ids, rest)?;
    let (domain, rest) = id_at(ids, rest)?;
    let (reserved, rest) = id_at(ids, rest)?;
    let (also_reserved, rest) = id_at(ids, rest)?;
    let (size, rest) = u4_at(rest)?;
    let head = ClassHead {
        id,
        trace,
        super_id,
        loader,
        signers,
        domain,
        reserved,
        also_reserved,
        size,
    };
    Ok((head, rest))
}

// Reads the number of constants or static fields, and these.
#[tactic(auto, unfolding(crate::specs::Entries::table_parts))]
fn table_at(ids: IdSize, key: u64, bytes: &[u8]) -> Result<(Table<'_>, &[u8]), Fault>
    ensures { Gives (λ x. (entries x.0, x.1.now)) result (table_parts ids key bytes.now) }
{
    let (count, rest) = u2_at(bytes)?;
    let after = after_entries(ids, key, count, rest)?;
    let bytes = before(rest, after);
    Ok((Table { count, bytes }, after))
}

// Returns the bytes after `count` constants or static fields.
fn after_entries(ids: IdSize, key: u64, count: u16, bytes: &[u8]) -> Result<&[u8], Fault>
    ensures { Gives (λ x. x.now) result (after_entries ids key count bytes.now) }
{
    let mut rest = bytes;
    for _ in 0..count {
        let (_entry, after) = entry_at(ids, key, rest)?;
        rest = after;
    }
    Ok(rest)
}

// Reads a constant or a static field with a key of this many bytes.
#[tactic(auto, unfolding(crate::specs::Entries::entry_parts))]
fn entry_at(ids: IdSize, key: u64, bytes: &[u8]) -> Result<(Entry<'_>, &[u8]), Fault>
    ensures { Gives (λ x. (entry x.0, x.1.now)) result (entry_parts ids key bytes.now) }
{
    let (key, rest) = bytes_at(key, bytes)?;
    let (kind, rest) = kind_at(rest)?;
    let (value, rest) = bytes_at(kind.width(ids), rest)?;
    Ok((Entry { key, kind, value }, rest))
}

// Returns the bytes before these last ones.
fn before<'a>(bytes: &'a [u8], rest: &[u8]) -> &'a [u8]
    ensures { result.now ≡ take (length bytes.now - length rest.now) bytes.now }
{
    let size = bytes.len().saturating_sub(rest.len());
    &bytes[..size]
}

// Reads the number of own fields, and these.
#[tactic(auto, unfolding(crate::specs::Entries::fields_table_parts))]
fn fields_at(ids: IdSize, bytes: &[u8]) -> Result<(Table<'_>, &[u8]), Fault>
    ensures { Gives (λ x. (entries x.0, x.1.now)) result (fields_table_parts ids bytes.now) }
{
    let (count, rest) = u2_at(bytes)?;
    let (bytes, rest) = bytes_at((ids.bytes() + 1) * count as u64, rest)?;
    Ok((Table { count, bytes }, rest))
}
