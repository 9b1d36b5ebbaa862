//! The parts of a dump: each writes the records of one list, in order.
ghost use Rattle.std.specs.Prelude.{◌≡◌, ◌<◌, ◌≤◌, ◌++◌, length, flat_map, zip};
ghost use Rattle.std.specs.List.{enumerate_from};
ghost use Rattle.byteorder.specs.Endian.{big_bytes};
ghost use Rattle.heap_class.specs.Classes.{fields_of, name_table};
ghost use Rattle.hprof_text.specs.SegmentContents.{HasRoom};
ghost use Rattle.hprof_text.specs.Records.{opening_of};
ghost use Rattle.hprof_text.specs.Text.{field_entry, utf8, load_class, value_bytes};

use crate::segment_bytes::SegmentBytes;
use byteorder::{BigEndian, ByteOrder};
use heap_class::{ClassNo, FirstClasses, IdSize, Kind};

// The number of words that are put in order before they are appended.
const WORDS_AT_ONCE: usize = 32;

impl SegmentBytes {
    /// Appends the own fields of a class, in order. There must be room.
    pub fn fields(&mut self, ids: IdSize, classes: &FirstClasses<'_>, class: ClassNo)
        requires room { HasRoom self.old
            (flat_map (field_entry ids classes.now) (fields_of classes.now class)) }
        requires known { class < length classes.now }
        ensures written { self.new.written
            ≡ self.old.written
            ++ flat_map (field_entry ids classes.now) (fields_of classes.now class) }
        ensures limit { self.new.limit ≡ self.old.limit }
    {
        for field in 0..classes.field_count(class) {
            self.field(
                ids,
                classes.field_name_id(class, field),
                classes.field_kind(class, field),
            );
        }
    }

    // Appends a word in as many bytes as its kind has.
    #[inline(always)]
    #[tactic(auto, unfolding(crate::specs::Text::value_bytes))]
    fn value(&mut self, ids: IdSize, kind: Kind, word: u64)
        requires { HasRoom self.old (value_bytes ids (kind, word)) }
        ensures written { self.new.written ≡ self.old.written ++ value_bytes ids (kind, word) }
        ensures limit { self.new.limit ≡ self.old.limit }
    {
        match kind {
            Kind::Object => self.id(ids, word),
            Kind::Boolean | Kind::Byte => self.number(1, word),
            Kind::Char | Kind::Short => self.number(2, word),
            Kind::Int | Kind::Float => self.number(4, word),
            Kind::Long | Kind::Double => self.number(8, word),
        }
    }

    /// Appends the words of an instance, each in as many bytes as its slot's kind has. There must be a kind for each word, and
    /// room.
    #[inline(always)]
    pub fn values(&mut self, ids: IdSize, kinds: &[Kind], words: &[u64])
        requires room { HasRoom self.old (flat_map (value_bytes ids) (zip kinds.now words.now)) }
        requires same { length words.now ≡ length kinds.now }
        ensures written { self.new.written
            ≡ self.old.written ++ flat_map (value_bytes ids) (zip kinds.now words.now) }
        ensures limit { self.new.limit ≡ self.old.limit }
    {
        for (slot, kind) in kinds.iter().enumerate() {
            self.value(ids, *kind, words[slot]);
        }
    }

    /// Appends the low `width` bytes of each word, 1 to 8. There must be room.
    pub fn numbers(&mut self, width: u64, words: &[u64])
        requires width { width ≤ 8 }
        requires room { HasRoom self.old (flat_map (big_bytes width) words.now) }
        ensures written { self.new.written
            ≡ self.old.written ++ flat_map (big_bytes width) words.now }
        ensures limit { self.new.limit ≡ self.old.limit }
    {
        if width == 8 {
            return self.whole_words(words);
        }
        for word in words {
            self.number(width as usize, *word);
        }
    }

    // Appends all 8 bytes of each word, some words at a time.
    fn whole_words(&mut self, words: &[u64])
        requires { HasRoom self.old (flat_map (big_bytes 8) words.now) }
        ensures written { self.new.written ≡ self.old.written ++ flat_map (big_bytes 8) words.now }
        ensures limit { self.new.limit ≡ self.old.limit }
    {
        let mut bytes = [0; 8 * WORDS_AT_ONCE];
        let mut rest = words;
        while !rest.is_empty() {
            let (first, others) = rest.split_at(rest.len().min(WORDS_AT_ONCE));
            let part = &mut bytes[..8 * first.len()];
            BigEndian::write_u64_into(first, part);
            self.bytes(part);
            rest = others;
        }
    }

    /// Appends a UTF8 record for each distinct name, in order of first use. There must be room.
    pub fn names(&mut self, ids: IdSize, classes: &FirstClasses<'_>)
        requires { HasRoom self.old
            (flat_map (utf8 ids) (enumerate_from 1 (name_table classes.now))) }
        ensures written { self.new.written
            ≡ self.old.written ++ flat_map (utf8 ids) (enumerate_from 1 (name_table classes.now)) }
        ensures limit { self.new.limit ≡ self.old.limit }
    {
        for index in 0..classes.name_count() {
            self.utf8(ids, index + 1, classes.name_at(index));
        }
    }

    /// Appends a LOAD CLASS record for each class, in order. There must be room.
    pub(crate) fn load_classes(&mut self, ids: IdSize, classes: &FirstClasses<'_>)
        requires { HasRoom self.old
            (flat_map (load_class ids classes.now) (enumerate_from 0 classes.now)) }
        ensures written { self.new.written
            ≡ self.old.written
            ++ flat_map (load_class ids classes.now) (enumerate_from 0 classes.now) }
        ensures limit { self.new.limit ≡ self.old.limit }
    {
        for class in 0..classes.len() {
            self.load_class(ids, classes, class);
        }
    }

    /// Appends the records before the segments: header, names, classes, and the empty trace. There must be room.
    pub fn opening_records(&mut self, ids: IdSize, classes: &FirstClasses<'_>, time: u64)
        requires { HasRoom self.old (opening_of ids classes.now time) }
        ensures written { self.new.written ≡ self.old.written ++ opening_of ids classes.now time }
        ensures limit { self.new.limit ≡ self.old.limit }
    {
        self.header(ids, time);
        self.names(ids, classes);
        self.load_classes(ids, classes);
        self.trace();
    }
}
