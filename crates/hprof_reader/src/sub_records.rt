//! The sub-records of a heap dump.
ghost use Rattle.std.specs.Prelude.{◌≡◌, ◌++◌, ℕ, List, IfOk};
ghost use Rattle.hprof_reader.specs.SubRecords.{Sub, sub_record, sub_text, FitsSub};
ghost use Rattle.hprof_reader.specs.SubParts.{root_parts, instance_parts, array_parts, prim_parts, class_sub_parts, sub_parts, tagged_parts};
ghost use Rattle.hprof_reader.specs.SubSizes.{root_size};
ghost use Rattle.hprof_reader.specs.Reading.{Gives, IsRead};

use crate::class_dumps::{ClassDump, class_dump_at};
use crate::fault::Fault;
use crate::kinds::kind_at;
use crate::numbers::{bytes_at, id_at, u1_at, u4_at};
use heap_class::{IdSize, Kind};
use hprof_records::tags::{
    CLASS_DUMP, INSTANCE_DUMP, OBJECT_ARRAY_DUMP, PRIMITIVE_ARRAY_DUMP, ROOT_JAVA_FRAME,
    ROOT_JNI_GLOBAL, ROOT_JNI_LOCAL, ROOT_MONITOR_USED, ROOT_NATIVE_STACK, ROOT_STICKY_CLASS,
    ROOT_THREAD_BLOCK, ROOT_THREAD_OBJECT, ROOT_UNKNOWN,
};

/// A root: an object or a class that is reached from outside.
#[derive(Clone, Copy, PartialEq, Eq, Debug)]
pub struct Root<'a> {
    /// The tag of its kind.
    pub tag: u8,
    /// The id of the object or class.
    pub id: u64,
    /// The bytes after the id: of a JNI global reference, or the numbers of a thread, a frame or a stack trace.
    pub more: &'a [u8],
}

/// An instance of a class.
#[derive(Clone, Copy, PartialEq, Eq, Debug)]
pub struct Instance<'a> {
    /// Its id.
    pub id: u64,
    /// The serial of a stack trace.
    pub trace: u32,
    /// The id of its class.
    pub class: u64,
    /// The values of its fields: the class's own fields first, then its super's, and so on.
    pub values: &'a [u8],
}

/// An array of references.
#[derive(Clone, Copy, PartialEq, Eq, Debug)]
pub struct ObjectArray<'a> {
    /// Its id.
    pub id: u64,
    /// The serial of a stack trace.
    pub trace: u32,
    /// The number of its elements.
    pub count: u32,
    /// The id of its class.
    pub class: u64,
    /// The ids of its elements.
    pub elements: &'a [u8],
}

/// An array of values of one kind.
#[derive(Clone, Copy, PartialEq, Eq, Debug)]
pub struct PrimArray<'a> {
    /// Its id.
    pub id: u64,
    /// The serial of a stack trace.
    pub trace: u32,
    /// The number of its elements.
    pub count: u32,
    /// The kind of its elements.
    pub kind: Kind,
    /// Its elements.
    pub elements: &'a [u8],
}

/// A sub-record of a heap dump.
#[derive(Clone, Copy, PartialEq, Eq, Debug)]
pub enum SubRecord<'a> {
    /// A root.
    Root(Root<'a>),
    /// A class.
    Class(ClassDump<'a>),
    /// An instance of a class.
    Instance(Instance<'a>),
    /// An array of references.
    ObjectArray(ObjectArray<'a>),
    /// An array of values.
    PrimArray(PrimArray<'a>),
}

/// Reads the sub-record at the front of these bytes of a heap dump. Returns it with the bytes after it. Fails with Short, Tag
/// or Type if no whole sub-record begins there. Takes time for each constant and static field of a class.
pub fn sub_record_at(ids: IdSize, bytes: &[u8]) -> Result<(SubRecord<'_>, &[u8]), Fault>
    ensures found { IfOk result (λ x. FitsSub ids (sub_record x.0)
        × (bytes.now ≡ sub_text ids (sub_record x.0) ++ x.1.now)) }
    ensures only { (s : Sub) (rest : List ℕ) → FitsSub ids s → bytes.now ≡ sub_text ids s ++ rest
        → IsRead (λ x. (sub_record x.0, x.1.now)) result s rest }
{
    read_sub_record(ids, bytes)
}

#[tactic(auto, unfolding(crate::specs::SubParts::sub_parts))]
fn read_sub_record(ids: IdSize, bytes: &[u8]) -> Result<(SubRecord<'_>, &[u8]), Fault>
    ensures { Gives (λ x. (sub_record x.0, x.1.now)) result (sub_parts ids bytes.now) }
{
    let (tag, rest) = u1_at(bytes)?;
    tagged_at(ids, tag, root_size(ids, tag), rest)
}

// Reads what follows this tag, which has `size` bytes after its id if it is that of a root.
fn tagged_at(
    ids: IdSize,
    tag: u8,
    size: Option<u64>,
    bytes: &[u8],
) -> Result<(SubRecord<'_>, &[u8]), Fault>
    ensures { Gives (λ x. (sub_record x.0, x.1.now)) result (tagged_parts ids tag size bytes.now) }
{
    if let Some(size) = size {
        return root_at(ids, tag, size, bytes);
    }
    match tag {
        CLASS_DUMP => class_at(ids, bytes),
        INSTANCE_DUMP => instance_at(ids, bytes),
        OBJECT_ARRAY_DUMP => array_at(ids, bytes),
        PRIMITIVE_ARRAY_DUMP => prim_at(ids, bytes),
        _ => Err(Fault::Tag),
    }
}

// Reads what follows the tag of a root with `size` bytes after its id.
#[tactic(auto, unfolding(crate::specs::SubParts::root_parts))]
fn root_at(ids: IdSize, tag: u8, size: u64, bytes: &[u8]) -> Result<(SubRecord<'_>, &[u8]), Fault>
    ensures { Gives (λ x. (sub_record x.0, x.1.now)) result (root_parts ids tag size bytes.now) }
{
    let (id, rest) = id_at(ids, bytes)?;
    let (more, rest) = bytes_at(size, rest)?;
    Ok((SubRecord::Root(Root { tag, id, more }), rest))
}

// Reads what follows the tag of a class.
#[tactic(auto, unfolding(crate::specs::SubParts::class_sub_parts))]
fn class_at(ids: IdSize, bytes: &[u8]) -> Result<(SubRecord<'_>, &[u8]), Fault>
    ensures { Gives (λ x. (sub_record x.0, x.1.now)) result (class_sub_parts ids bytes.now) }
{
    let (class, rest) = class_dump_at(ids, bytes)?;
    Ok((SubRecord::Class(class), rest))
}

// Reads what follows the tag of an instance.
#[tactic(auto, unfolding(crate::specs::SubParts::instance_parts))]
fn instance_at(ids: IdSize, bytes: &[u8]) -> Result<(SubRecord<'_>, &[u8]), Fault>
    ensures { Gives (λ x. (sub_record x.0, x.1.now)) result (instance_parts ids bytes.now) }
{
    let (id, rest) = id_at(ids, bytes)?;
    let (trace, rest) = u4_at(rest)?;
    let (class, rest) = id_at(ids, rest)?;
    let (size, rest) = u4_at(rest)?;
    let (values, rest) = bytes_at(size as u64, rest)?;
    let instance = Instance {
        id,
        trace,
        class,
        values,
    };
    Ok((SubRecord::Instance(instance), rest))
}

// Reads what follows the tag of an array of references.
#[tactic(auto, unfolding(crate::specs::SubParts::array_parts))]
fn array_at(ids: IdSize, bytes: &[u8]) -> Result<(SubRecord<'_>, &[u8]), Fault>
    ensures { Gives (λ x. (sub_record x.0, x.1.now)) result (array_parts ids bytes.now) }
{
    let (id, rest) = id_at(ids, bytes)?;
    let (trace, rest) = u4_at(rest)?;
    let (count, rest) = u4_at(rest)?;
    let (class, rest) = id_at(ids, rest)?;
    let (elements, rest) = bytes_at(ids.bytes() * count as u64, rest)?;
    let array = ObjectArray {
        id,
        trace,
        count,
        class,
        elements,
    };
    Ok((SubRecord::ObjectArray(array), rest))
}

// Reads what follows the tag of an array of values.
#[tactic(auto, unfolding(crate::specs::SubParts::prim_parts))]
fn prim_at(ids: IdSize, bytes: &[u8]) -> Result<(SubRecord<'_>, &[u8]), Fault>
    ensures { Gives (λ x. (sub_record x.0, x.1.now)) result (prim_parts ids bytes.now) }
{
    let (id, rest) = id_at(ids, bytes)?;
    let (trace, rest) = u4_at(rest)?;
    let (count, rest) = u4_at(rest)?;
    let (kind, rest) = kind_at(rest)?;
    let (elements, rest) = bytes_at(kind.width(ids) * count as u64, rest)?;
    let array = PrimArray {
        id,
        trace,
        count,
        kind,
        elements,
    };
    Ok((SubRecord::PrimArray(array), rest))
}

// Returns how many bytes follow the id in a root of this tag, or None if no root has the tag.
fn root_size(ids: IdSize, tag: u8) -> Option<u64>
    ensures { result ≡ root_size ids tag }
{
    match tag {
        ROOT_JNI_GLOBAL => Some(ids.bytes()),
        ROOT_JNI_LOCAL | ROOT_JAVA_FRAME | ROOT_THREAD_OBJECT => Some(8),
        ROOT_NATIVE_STACK | ROOT_THREAD_BLOCK => Some(4),
        ROOT_STICKY_CLASS | ROOT_MONITOR_USED | ROOT_UNKNOWN => Some(0),
        _ => None,
    }
}
