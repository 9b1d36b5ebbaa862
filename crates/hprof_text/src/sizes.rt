//! The sizes of the parts of a dump in bytes. Each is known from the classes and the number of words, before a byte is written.
ghost use Rattle.std.specs.Prelude.{◌≡◌, ◌<◌, ◌≤◌, [], ℕ, length};
ghost use Rattle.heap_class.specs.Classes.{instance_size, name_table};
ghost use Rattle.heap_class.specs.Limits.{large_array_limit, instance_size_limit};
ghost use Rattle.heap_class.specs.declared.ObjKind.TheVariants.{Array, Instance, Prim};
ghost use Rattle.hprof_text.specs.Image.{IsKnown};
ghost use Rattle.hprof_text.specs.Records.{class_at};
ghost use Rattle.hprof_text.specs.Sizes.{names_size, opening_size, class_size, dump_size, root_size, class_size_limit, instance_dump_limit, names_size_limit, opening_size_limit, sub_record_limit};

use heap_class::{ClassNo, FirstClasses, IdSize, Kind, ObjKind};

/// Returns the size of a class's instances: at most 64 slots of 8 bytes.
#[tactic(auto, using(crate::proofs::Bounds::instance_small))]
pub fn instance_size(ids: IdSize, classes: &FirstClasses<'_>, class: ClassNo) -> u32
    requires { class < length classes.now }
    ensures value { result ≡ instance_size ids classes.now class }
    ensures limit { result ≤ instance_size_limit }
{
    // Its contract bounds the number of slots.
    let _slots = classes.slots(class);
    classes.instance_size(ids, class) as u32
}

/// Returns the size of the UTF8 records.
pub(crate) fn names_size(ids: IdSize, classes: &FirstClasses<'_>) -> u64
    ensures value { result ≡ names_size ids (name_table classes.now) }
    ensures limit { result ≤ names_size_limit }
{
    let mut size = 0;
    for index in 0..classes.name_count() {
        size += 9 + ids.bytes() + classes.name_at(index).len() as u64;
    }
    size
}

/// Returns the size of the records before the segments.
#[tactic(auto, unfolding(crate::specs::Sizes::opening_size))]
pub(crate) fn opening_size(ids: IdSize, classes: &FirstClasses<'_>) -> u64
    ensures value { result ≡ opening_size ids classes.now }
    ensures limit { result ≤ opening_size_limit }
{
    52 + names_size(ids, classes) + (17 + 2 * ids.bytes()) * classes.len()
}

/// Returns the size of a class's sub-record.
pub(crate) fn class_size(ids: IdSize, classes: &FirstClasses<'_>, class: ClassNo) -> u64
    requires { class < length classes.now }
    ensures value { result ≡ class_size ids (class_at classes.now class) }
    ensures limit { result ≤ class_size_limit }
    ensures some { 0 < result }
{
    15 + 7 * ids.bytes() + (1 + ids.bytes()) * classes.field_count(class)
}

/// Returns the size of a root, of a class or of a register that isn't null.
pub fn root_size(ids: IdSize) -> u64
    ensures value { result ≡ root_size ids }
    ensures limit { result ≤ 9 }
{
    1 + ids.bytes()
}

/// Returns the size of the sub-record of an instance of a class.
#[tactic(auto, unfolding(crate::specs::Sizes::dump_size))]
pub(crate) fn instance_dump_size(ids: IdSize, classes: &FirstClasses<'_>, class: ClassNo) -> u64
    requires { class < length classes.now }
    ensures value { (n : ℕ) → result ≡ dump_size ids classes.now (Instance class) n }
    ensures some { 0 < result }
    ensures limit { result ≤ instance_dump_limit }
{
    9 + 2 * ids.bytes() + u64::from(instance_size(ids, classes, class))
}

/// Returns the size of the sub-record of an object array with `words` elements.
#[tactic(auto, unfolding(crate::specs::Sizes::dump_size))]
pub(crate) fn array_size(ids: IdSize, words: u64) -> u64
    requires { words ≤ large_array_limit }
    ensures value { (class : ℕ) → result ≡ dump_size ids [] (Array class) words }
    ensures some { 0 < result }
    ensures limit { result ≤ sub_record_limit }
{
    9 + 2 * ids.bytes() + ids.bytes() * words
}

/// Returns the size of the sub-record of an array of values of this kind with `words` elements.
#[tactic(auto, using(crate::proofs::Bounds::width_small), unfolding(crate::specs::Sizes::dump_size))]
pub(crate) fn prim_size(ids: IdSize, kind: Kind, words: u64) -> u64
    requires { words ≤ large_array_limit }
    ensures value { result ≡ dump_size ids [] (Prim kind) words }
    ensures some { 0 < result }
    ensures limit { result ≤ sub_record_limit }
{
    10 + ids.bytes() + kind.width(ids) * words
}

/// Returns the size of the sub-record of an object with `words` words.
#[tactic(auto, using(crate::proofs::Bounds::width_small), unfolding(crate::specs::Sizes::dump_size))]
pub fn dump_size(ids: IdSize, classes: &FirstClasses<'_>, kind: ObjKind, words: u64) -> u64
    requires known { IsKnown classes.now kind words }
    requires small { words ≤ large_array_limit }
    ensures value { result ≡ dump_size ids classes.now kind words }
    ensures some { 0 < result }
    ensures limit { result ≤ sub_record_limit }
{
    match kind {
        ObjKind::Instance(class) => instance_dump_size(ids, classes, class as u64),
        ObjKind::Array(_) => array_size(ids, words),
        ObjKind::Prim(kind) => prim_size(ids, kind, words),
    }
}
