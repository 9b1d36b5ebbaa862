//! The records of a dump and its sub-records, each written as the format has it.
ghost use Rattle.std.specs.Prelude.{◌≡◌, ◌<◌, ◌≤◌, ◌++◌, [], length};
ghost use Rattle.std.specs.Option.{option_map_or};
ghost use Rattle.heap_class.specs.Classes.{sup_of};
ghost use Rattle.heap_class.specs.Limits.{class_limit, name_limit, large_array_limit};
ghost use Rattle.hprof_text.specs.SegmentContents.{HasRoom};
ghost use Rattle.hprof_text.specs.Image.{IsKnown};
ghost use Rattle.hprof_text.specs.Records.{class_at, record_head, field_bytes, class_ids, class_counts, instance_head, sub_record_bytes, IsOfClasses};
ghost use Rattle.heap_class.specs.declared.IdSize.TheVariants.{Eight};
ghost use Rattle.heap_class.specs.declared.ObjKind.TheVariants.{Instance, Array, Prim};
ghost use Rattle.hprof_text.specs.Text.{class_id, header, utf8, load_class, trace, class_dump, root, dump_of};

use crate::section::SubRecord;
use crate::segment_bytes::SegmentBytes;
use crate::sizes::instance_size;
use byteorder::{BigEndian, ByteOrder};
use heap_class::{ClassNo, FirstClasses, IdSize, Kind};
use hprof_records::tags::{
    CLASS_DUMP, INSTANCE_DUMP, LOAD_CLASS, OBJECT_ARRAY_DUMP, PRIMITIVE_ARRAY_DUMP, TRACE, UTF8,
};

/// Returns the id of a class, whose number must be below 4,096.
pub fn class_id(class: ClassNo) -> u64
    requires { class < class_limit }
    ensures { result ≡ class_id class }
{
    0x0010_0000 + 8 * class
}

/// Returns the id of a class's super, or 0.
pub fn super_id(classes: &FirstClasses<'_>, class: ClassNo) -> u64
    requires known { class < length classes.now }
    requires few { length classes.now ≤ class_limit }
    ensures { result ≡ option_map_or class_id (sup_of classes.now class) 0 }
{
    match classes.sup(class) {
        Some(sup) => class_id(sup),
        None => 0,
    }
}

// The number of bytes before the values of an INSTANCE DUMP with ids of eight bytes.
const HEAD_OF_EIGHT: usize = 25;

// Returns the bytes before the values of an INSTANCE DUMP with ids of eight bytes.
#[inline(always)]
fn head_of_eight(object: u64, class: ClassNo, size: u32) -> [u8; HEAD_OF_EIGHT]
    requires { class < class_limit }
    ensures { result ≡ instance_head Eight object class size }
{
    let mut head = [0; HEAD_OF_EIGHT];
    head[0] = INSTANCE_DUMP;
    BigEndian::write_u64(&mut head[1..], object);
    BigEndian::write_u32(&mut head[9..], 1);
    BigEndian::write_u64(&mut head[13..], class_id(class));
    BigEndian::write_u32(&mut head[21..], size);
    head
}

impl SegmentBytes {
    /// Appends the header: the format's name, the size of identifiers, and the time in milliseconds since 1970. There must be
    /// room.
    #[tactic(auto, unfolding(crate::specs::Text::header))]
    pub fn header(&mut self, ids: IdSize, time: u64)
        requires { HasRoom self.old (header ids time) }
        ensures written { self.new.written ≡ self.old.written ++ header ids time }
        ensures limit { self.new.limit ≡ self.old.limit }
    {
        self.bytes(b"JAVA PROFILE 1.0.2\0");
        self.u4(ids.bytes() as u32);
        self.u4((time >> 32) as u32);
        self.u4((time % (1 << 32)) as u32);
    }

    /// Appends the head of a record whose body has `length` bytes. There must be room.
    pub(crate) fn record_head(&mut self, tag: u8, length: u32)
        requires { HasRoom self.old (record_head tag length) }
        ensures written { self.new.written ≡ self.old.written ++ record_head tag length }
        ensures limit { self.new.limit ≡ self.old.limit }
    {
        self.u1(tag);
        self.u4(0);
        self.u4(length);
    }

    /// Appends a UTF8 record: a name of at most 255 bytes with its id. There must be room.
    #[tactic(auto, using(crate::proofs::WrittenRecords::utf8_body), unfolding(crate::specs::Text::utf8, crate::specs::Text::record_of))]
    pub fn utf8(&mut self, ids: IdSize, number: u64, name: &[u8])
        requires room { HasRoom self.old (utf8 ids (number, name.now)) }
        requires short { length name.now ≤ name_limit }
        ensures written { self.new.written ≡ self.old.written ++ utf8 ids (number, name.now) }
        ensures limit { self.new.limit ≡ self.old.limit }
    {
        self.record_head(UTF8, (ids.bytes() + name.len() as u64) as u32);
        self.id(ids, number);
        self.bytes(name);
    }

    /// Appends a LOAD CLASS record. The serial of class k is k + 1. There must be room.
    #[tactic(auto, using(crate::proofs::WrittenRecords::load_body, crate::proofs::WrittenRecords::name_at), unfolding(crate::specs::Text::load_class, crate::specs::Text::record_of))]
    pub fn load_class(&mut self, ids: IdSize, classes: &FirstClasses<'_>, class: ClassNo)
        requires room { HasRoom self.old
            (load_class ids classes.now (class, class_at classes.now class)) }
        requires known { class < length classes.now }
        requires few { length classes.now ≤ class_limit }
        ensures written { self.new.written
            ≡ self.old.written ++ load_class ids classes.now (class, class_at classes.now class) }
        ensures limit { self.new.limit ≡ self.old.limit }
    {
        self.record_head(LOAD_CLASS, (8 + 2 * ids.bytes()) as u32);
        self.u4((class + 1) as u32);
        self.id(ids, class_id(class));
        self.u4(1);
        self.id(ids, classes.class_name_id(class));
    }

    /// Appends the TRACE record: serial 1, thread 0, no frames. There must be room.
    #[tactic(auto, unfolding(crate::specs::Text::trace, crate::specs::Text::record_of))]
    pub fn trace(&mut self)
        requires { HasRoom self.old trace }
        ensures written { self.new.written ≡ self.old.written ++ trace }
        ensures limit { self.new.limit ≡ self.old.limit }
    {
        self.record_head(TRACE, 12);
        self.u4(1);
        self.u4(0);
        self.u4(0);
    }

    // Appends the ids of a CLASS DUMP: the class's, its super's, and five that are null.
    fn class_ids(&mut self, ids: IdSize, class: ClassNo, sup: u64)
        requires room { HasRoom self.old (class_ids ids class sup) }
        requires few { class < class_limit }
        ensures written { self.new.written ≡ self.old.written ++ class_ids ids class sup }
        ensures limit { self.new.limit ≡ self.old.limit }
    {
        self.u1(CLASS_DUMP);
        self.id(ids, class_id(class));
        self.u4(1);
        self.id(ids, sup);
        self.id(ids, 0);
        self.id(ids, 0);
        self.id(ids, 0);
        self.id(ids, 0);
        self.id(ids, 0);
    }

    // Appends the numbers of a CLASS DUMP: the size of its instances, no constants, no static fields, and the number of its own
    // fields.
    fn class_counts(&mut self, size: u32, fields: u16)
        requires { HasRoom self.old (class_counts size fields) }
        ensures written { self.new.written ≡ self.old.written ++ class_counts size fields }
        ensures limit { self.new.limit ≡ self.old.limit }
    {
        self.u4(size);
        self.number(2, 0);
        self.number(2, 0);
        self.number(2, u64::from(fields));
    }

    /// Appends an own field in a CLASS DUMP: the id of its name, and its kind. There must be room.
    pub fn field(&mut self, ids: IdSize, name: u64, kind: Kind)
        requires { HasRoom self.old (field_bytes ids name kind) }
        ensures written { self.new.written ≡ self.old.written ++ field_bytes ids name kind }
        ensures limit { self.new.limit ≡ self.old.limit }
    {
        self.id(ids, name);
        self.u1(kind.type_code());
    }

    /// Appends a CLASS DUMP: super, size of instances and own fields. There is no loader, signer, protection domain, constant
    /// or static field. There must be room.
    pub fn class_dump(&mut self, ids: IdSize, classes: &FirstClasses<'_>, class: ClassNo)
        requires room { HasRoom self.old
            (class_dump ids classes.now (class, class_at classes.now class)) }
        requires known { class < length classes.now }
        requires few { length classes.now ≤ class_limit }
        ensures written { self.new.written
            ≡ self.old.written ++ class_dump ids classes.now (class, class_at classes.now class) }
        ensures limit { self.new.limit ≡ self.old.limit }
    {
        self.class_ids(ids, class, super_id(classes, class));
        self.class_counts(
            instance_size(ids, classes, class),
            classes.field_count(class) as u16,
        );
        self.fields(ids, classes, class);
    }

    /// Appends a root with this tag, of an object or a class. There must be room.
    #[tactic(auto, unfolding(crate::specs::Text::root))]
    pub fn root(&mut self, ids: IdSize, tag: u8, id: u64)
        requires { HasRoom self.old (root ids tag id) }
        ensures written { self.new.written ≡ self.old.written ++ root ids tag id }
        ensures limit { self.new.limit ≡ self.old.limit }
    {
        self.u1(tag);
        self.id(ids, id);
    }

    /// Appends the sub-record of an item. There must be room.
    pub fn sub_record(&mut self, ids: IdSize, classes: &FirstClasses<'_>, sub_record: SubRecord)
        requires room { HasRoom self.old (sub_record_bytes ids classes.now sub_record) }
        requires known { IsOfClasses classes.now sub_record }
        requires few { length classes.now ≤ class_limit }
        ensures written { self.new.written
            ≡ self.old.written ++ sub_record_bytes ids classes.now sub_record }
        ensures limit { self.new.limit ≡ self.old.limit }
    {
        match sub_record {
            SubRecord::ClassDump(class) => self.class_dump(ids, classes, class),
            SubRecord::Root(tag, id) => self.root(ids, tag, id),
        }
    }

    // Appends the bytes before the values of an INSTANCE DUMP. Ids of eight bytes are usual, so with them all is appended at
    // once.
    #[inline(always)]
    fn instance_head(&mut self, ids: IdSize, object: u64, class: ClassNo, size: u32)
        requires room { HasRoom self.old (instance_head ids object class size) }
        requires few { class < class_limit }
        ensures written { self.new.written
            ≡ self.old.written ++ instance_head ids object class size }
        ensures limit { self.new.limit ≡ self.old.limit }
    {
        match ids {
            IdSize::Eight => self.bytes(&head_of_eight(object, class, size)),
            IdSize::Four => {
                self.u1(INSTANCE_DUMP);
                self.id(ids, object);
                self.u4(1);
                self.id(ids, class_id(class));
                self.u4(size);
            }
        }
    }

    /// Appends an INSTANCE DUMP: own fields first, then the super's. There must be room.
    #[inline(always)]
    #[tactic(auto, unfolding(crate::specs::Text::dump_of))]
    pub(crate) fn instance_dump(
        &mut self,
        ids: IdSize,
        classes: &FirstClasses<'_>,
        object: u64,
        class: ClassNo,
        words: &[u64],
    )
        requires room { HasRoom self.old
            (dump_of ids classes.now object (Instance class) words.now) }
        requires known { IsKnown classes.now (Instance class) (length words.now) }
        requires few { length classes.now ≤ class_limit }
        ensures written { self.new.written
            ≡ self.old.written ++ dump_of ids classes.now object (Instance class) words.now }
        ensures limit { self.new.limit ≡ self.old.limit }
    {
        let kinds = classes.slots(class);
        self.instance_head(ids, object, class, instance_size(ids, classes, class));
        self.values(ids, kinds, words);
    }

    /// Appends an OBJECT ARRAY DUMP of at most 2,097,147 words. There must be room.
    #[tactic(auto, unfolding(crate::specs::Text::dump_of))]
    pub(crate) fn object_array_dump(
        &mut self,
        ids: IdSize,
        object: u64,
        class: ClassNo,
        words: &[u64],
    )
        requires room { HasRoom self.old (dump_of ids [] object (Array class) words.now) }
        requires small { length words.now ≤ large_array_limit }
        requires few { class < class_limit }
        ensures written { self.new.written
            ≡ self.old.written ++ dump_of ids [] object (Array class) words.now }
        ensures limit { self.new.limit ≡ self.old.limit }
    {
        let count = words.len();
        self.u1(OBJECT_ARRAY_DUMP);
        self.id(ids, object);
        self.u4(1);
        self.u4(count as u32);
        self.id(ids, class_id(class));
        self.numbers(ids.bytes(), words);
    }

    /// Appends a PRIMITIVE ARRAY DUMP of at most 2,097,147 words. There must be room.
    #[tactic(auto, unfolding(crate::specs::Text::dump_of, crate::specs::Text::value_bytes))]
    pub(crate) fn primitive_array_dump(
        &mut self,
        ids: IdSize,
        object: u64,
        kind: Kind,
        words: &[u64],
    )
        requires room { HasRoom self.old (dump_of ids [] object (Prim kind) words.now) }
        requires small { length words.now ≤ large_array_limit }
        ensures written { self.new.written
            ≡ self.old.written ++ dump_of ids [] object (Prim kind) words.now }
        ensures limit { self.new.limit ≡ self.old.limit }
    {
        self.u1(PRIMITIVE_ARRAY_DUMP);
        self.id(ids, object);
        self.u4(1);
        self.u4(words.len() as u32);
        self.u1(kind.type_code());
        self.numbers(kind.width(ids), words);
    }
}
