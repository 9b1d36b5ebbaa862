//! What an item of a walk over a dump tells: a name, a class, an object or a root.
ghost use Rattle.std.specs.Prelude.{◌≡◌, drop, option_map};
ghost use Rattle.hprof_reader.specs.SubRecords.{class_told};
ghost use Rattle.hprof_session.specs.Walks.{item_told};
ghost use Rattle.hprof_plan.specs.Items.{array_class_of, class_of, four_parts, eight_parts, id_parts, load_of, load_parts, name_of, object_of, root_of};

use heap_class::IdSize;
use hprof_reader::tags::{LOAD_CLASS, UTF8};
use hprof_reader::{ClassDump, SubRecord};
use hprof_session::Item;

/// A root of a dump.
#[derive(Clone, Copy, PartialEq, Eq, Debug)]
pub struct RootFound {
    /// The tag of its kind.
    pub tag: u8,
    /// The id that it names.
    pub id: u64,
}

/// Returns the identifier in front of bytes, and the bytes after it; None if there are too few bytes.
pub(crate) fn id_at(ids: IdSize, bytes: &[u8]) -> Option<(u64, &[u8])>
    ensures { option_map (λ x. (x.0, x.1.now)) result ≡ id_parts ids bytes.now }
{
    match ids {
        IdSize::Four => four_at(bytes),
        IdSize::Eight => eight_at(bytes),
    }
}

// Returns the number of 4 bytes in front of bytes, and the bytes after it; None if there are too few bytes.
fn four_at(bytes: &[u8]) -> Option<(u64, &[u8])>
    ensures { option_map (λ x. (x.0, x.1.now)) result ≡ four_parts bytes.now }
{
    if bytes.len() < 4 {
        return None;
    }
    let (front, rest) = bytes.split_at(4);
    let number = u32::from_be_bytes([front[0], front[1], front[2], front[3]]);
    Some((number as u64, rest))
}

// Returns the number of 8 bytes in front of bytes, and the bytes after it; None if there are too few bytes.
fn eight_at(bytes: &[u8]) -> Option<(u64, &[u8])>
    ensures { option_map (λ x. (x.0, x.1.now)) result ≡ eight_parts bytes.now }
{
    if bytes.len() < 8 {
        return None;
    }
    let (front, rest) = bytes.split_at(8);
    let number = u64::from_be_bytes([
        front[0], front[1], front[2], front[3], front[4], front[5], front[6], front[7],
    ]);
    Some((number, rest))
}

/// Returns the name in an item, with its id.
pub(crate) fn name_of<'a>(ids: IdSize, item: Item<'a>) -> Option<(u64, &'a [u8])>
    ensures { option_map (λ x. (x.0, x.1.now)) result ≡ name_of ids (item_told item.entry) }
{
    match item {
        Item::Record(record) => if record.tag == UTF8 {
            id_at(ids, record.body)
        } else {
            None
        },
        Item::Sub(_) => None,
    }
}

/// Returns the id of a class with the id of its name, from an item.
pub(crate) fn load_of(ids: IdSize, item: Item<'_>) -> Option<(u64, u64)>
    ensures { result ≡ load_of ids (item_told item.entry) }
{
    match item {
        Item::Record(record) => if record.tag == LOAD_CLASS {
            load_at(ids, record.body)
        } else {
            None
        },
        Item::Sub(_) => None,
    }
}

// Returns the id of a class and the id of its name, which follow these bytes' first 4 with 4 bytes between them.
fn load_at(ids: IdSize, bytes: &[u8]) -> Option<(u64, u64)>
    ensures { result ≡ load_parts ids bytes.now }
{
    match id_at(ids, after_four(bytes)) {
        Some((class, rest)) => match id_at(ids, after_four(rest)) {
            Some((name, _)) => Some((class, name)),
            None => None,
        },
        None => None,
    }
}

// Returns the bytes after the first 4.
fn after_four(bytes: &[u8]) -> &[u8]
    ensures { result.now ≡ drop 4 bytes.now }
{
    let size = bytes.len().min(4);
    &bytes[size..]
}

/// Returns the class in an item.
pub(crate) fn class_of<'a>(item: Item<'a>) -> Option<ClassDump<'a>>
    ensures { option_map class_told result ≡ class_of (item_told item.entry) }
{
    match item {
        Item::Sub(SubRecord::Class(class)) => Some(class),
        _ => None,
    }
}

/// Returns the class of the array of references in an item.
pub(crate) fn array_class_of(item: Item<'_>) -> Option<u64>
    ensures { result ≡ array_class_of (item_told item.entry) }
{
    match item {
        Item::Sub(SubRecord::ObjectArray(array)) => Some(array.class),
        _ => None,
    }
}

/// Returns the id of the object in an item.
pub(crate) fn object_of(item: Item<'_>) -> Option<u64>
    ensures { result ≡ object_of (item_told item.entry) }
{
    match item {
        Item::Sub(SubRecord::Instance(instance)) => Some(instance.id),
        Item::Sub(SubRecord::ObjectArray(array)) => Some(array.id),
        Item::Sub(SubRecord::PrimArray(array)) => Some(array.id),
        _ => None,
    }
}

/// Returns the root in an item.
pub(crate) fn root_of(item: Item<'_>) -> Option<RootFound>
    ensures { result ≡ root_of (item_told item.entry) }
{
    match item {
        Item::Sub(SubRecord::Root(root)) => Some(RootFound {
            tag: root.tag,
            id: root.id,
        }),
        _ => None,
    }
}
