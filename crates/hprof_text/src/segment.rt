//! A segment as it is filled: each sub-record is offered to it, and is written if there is room.
ghost use Rattle.std.specs.Prelude.{◌+◌, ◌≡◌, ◌<◌, ◌≤◌, [], ℕ, List, Some, length, slice_get, IfOk, IfErr};
ghost use Rattle.heap_class.specs.Limits.{class_limit, large_array_limit};
ghost use Rattle.heap_class.specs.declared.ObjKind.TheVariants.{Instance, Array, Prim};
ghost use Rattle.heap_class.specs.declared.Refusal.TheVariants.{NoMemory};
ghost use Rattle.hprof_text.specs.declared.section.Section.TheVariants.{Numbered};
ghost use Rattle.hprof_text.specs.SegmentFilling.{takes, IsOffered, IsItemOffered};
ghost use Rattle.hprof_text.specs.Image.{IsKnown};
ghost use Rattle.hprof_text.specs.Records.{sub_record_bytes, IsOfClasses};
ghost use Rattle.hprof_text.specs.Sizes.{sub_record_limit};
ghost use Rattle.hprof_text.specs.Text.{record_of, dump_of, items_of};

use crate::section::{NumberedSection, SubRecord};
use crate::segment_bytes::SegmentBytes;
use crate::sizes::{array_size, instance_dump_size, prim_size};
use crate::{Bytes, SEGMENT_LIMIT, View};
use heap_class::{ClassNo, FirstClasses, IdSize, Kind, ObjKind, Refusal};
use hprof_records::HEAD_SIZE;
use std::alloc::Global;
use std::marker::Model;

// The room of a new segment's body: for the sub-record of an array of 1,024 elements of 8 bytes.
const ROOM: usize = 8217;

/// A segment that is being filled. Contracts see its body.
#[derive(Drop)]
pub struct Segment {
    buffer: SegmentBytes,
}

impl Model for Segment {
    ghost use Rattle.std.specs.Prelude.{◌≡◌, ◌≤◌, ◌+◌, ℕ, List, length, drop};
    ghost use Rattle.hprof_text.specs.Segments.{segment_limit};
    ghost use Rattle.hprof_text.specs.Sizes.{sub_record_limit};

    ghost Value = { List ℕ };

    ghost view = { λ s. drop 9 s.buffer.written };

    ghost invariant = { λ s. (9 ≤ length s.buffer.written)
        × (length s.buffer.written ≤ 9 + sub_record_limit)
        × (9 + segment_limit ≤ s.buffer.limit) };
}

impl Segment {
    /// Creates an empty segment with room for all but long arrays. Fails with NoMemory if that room can't be reserved.
    pub fn new(alloc: Global) -> Result<Segment, Refusal>
        ensures empty { IfOk result (λ s. s ≡ []) }
        ensures refused { IfErr result (λ e. e ≡ NoMemory) }
    {
        match SegmentBytes::new(alloc, HEAD_SIZE + ROOM) {
            Ok(mut buffer) => {
                buffer.record_head(0, 0);
                Ok(Segment { buffer })
            }
            Err(_) => Err(Refusal::NoMemory),
        }
    }

    /// Returns the size of the body in bytes.
    pub fn len(&self) -> u64
        ensures value { result ≡ length self.now }
        ensures limit { result ≤ sub_record_limit }
    {
        (self.buffer.len() - HEAD_SIZE) as u64
    }

    // Tells whether the body takes a sub-record of `size` bytes.
    fn takes(&self, size: u64) -> bool
        requires { size ≤ sub_record_limit }
        ensures { result ≡ takes self.now size }
    {
        let length = self.len();
        length == 0 || length + size <= SEGMENT_LIMIT
    }

    // Offers the sub-record of an item, and tells whether it was taken.
    fn offer(&mut self, ids: IdSize, classes: &FirstClasses<'_>, sub_record: SubRecord) -> bool
        requires { IsOfClasses classes.now sub_record }
        ensures { IsOffered (sub_record_bytes ids classes.now sub_record) self.old self.new result }
    {
        // Its contract bounds the number of classes.
        let _count = classes.len();
        let taken = self.takes(sub_record.size(ids, classes));
        if taken {
            self.buffer.sub_record(ids, classes, sub_record);
        }
        taken
    }

    // Offers the sub-record of an instance, and tells whether it was taken.
    #[inline(always)]
    fn offer_instance(
        &mut self,
        ids: IdSize,
        classes: &FirstClasses<'_>,
        object: u64,
        class: ClassNo,
        words: &[u64],
    ) -> bool
        requires known { IsKnown classes.now (Instance class) (length words.now) }
        requires small { length words.now ≤ large_array_limit }
        ensures { IsOffered (dump_of ids classes.now object (Instance class) words.now) self.old
            self.new result }
    {
        // Its contract bounds the number of classes.
        let _count = classes.len();
        let taken = self.takes(instance_dump_size(ids, classes, class));
        if taken {
            self.buffer
                .instance_dump(ids, classes, object, class, words);
        }
        taken
    }

    // Offers the sub-record of an object array, and tells whether it was taken. Fails with NoMemory if an allocation fails.
    #[inline(never)]
    fn offer_array(
        &mut self,
        ids: IdSize,
        object: u64,
        class: ClassNo,
        words: &[u64],
    ) -> Result<bool, Refusal>
        requires few { class < class_limit }
        requires small { length words.now ≤ large_array_limit }
        ensures taken { IfOk result
            (λ taken. IsOffered (dump_of ids [] object (Array class) words.now) self.old self.new
            taken) }
        ensures refused { IfErr result (λ e. e ≡ NoMemory) }
    {
        let size = array_size(ids, words.len() as u64);
        let taken = self.takes(size);
        if taken {
            self.buffer.reserve(size as usize)?;
            self.buffer.object_array_dump(ids, object, class, words);
        }
        Ok(taken)
    }

    // Offers the sub-record of an array of values, and tells whether it was taken. Fails with NoMemory if an allocation fails.
    #[inline(never)]
    fn offer_prim(
        &mut self,
        ids: IdSize,
        object: u64,
        kind: Kind,
        words: &[u64],
    ) -> Result<bool, Refusal>
        requires { length words.now ≤ large_array_limit }
        ensures taken { IfOk result
            (λ taken. IsOffered (dump_of ids [] object (Prim kind) words.now) self.old self.new
            taken) }
        ensures refused { IfErr result (λ e. e ≡ NoMemory) }
    {
        let size = prim_size(ids, kind, words.len() as u64);
        let taken = self.takes(size);
        if taken {
            self.buffer.reserve(size as usize)?;
            self.buffer.primitive_array_dump(ids, object, kind, words);
        }
        Ok(taken)
    }

    /// Offers the sub-record of an object, and tells whether it was taken. Fails with NoMemory if an allocation fails.
    #[inline(always)]
    #[tactic(auto, unfolding(crate::specs::Text::dump_of))]
    pub(crate) fn offer_object(
        &mut self,
        ids: IdSize,
        classes: &FirstClasses<'_>,
        object: u64,
        kind: ObjKind,
        words: &[u64],
    ) -> Result<bool, Refusal>
        requires known { IsKnown classes.now kind (length words.now) }
        requires small { length words.now ≤ large_array_limit }
        ensures taken { IfOk result
            (λ taken. IsOffered (dump_of ids classes.now object kind words.now) self.old self.new
            taken) }
        ensures refused { IfErr result (λ e. e ≡ NoMemory) }
    {
        // Its contract bounds the number of classes.
        let _count = classes.len();
        match kind {
            ObjKind::Instance(class) => {
                Ok(self.offer_instance(ids, classes, object, class as u64, words))
            }
            ObjKind::Array(class) => self.offer_array(ids, object, class as u64, words),
            ObjKind::Prim(kind) => self.offer_prim(ids, object, kind, words),
        }
    }

    /// Offers a view's item of a section by its number, and tells whether it was taken. One that has no sub-record counts as taken.
    pub(crate) fn offer_item<V: View>(
        &mut self,
        view: &V,
        section: NumberedSection,
        number: u64,
    ) -> bool
        requires { number
            < length (items_of (V.ids view.now) (V.image view.now) (Numbered section)) }
        ensures { (item : List (List ℕ))
            → slice_get (items_of (V.ids view.now) (V.image view.now) (Numbered section)) number
            ≡ Some item
            → IsItemOffered item self.old self.new result }
    {
        match section.item(view, number) {
            Some(sub_record) => self.offer(view.id_size(), &view.classes(), sub_record),
            None => true,
        }
    }

    /// Returns the record with this tag and the body. Takes no memory.
    pub(crate) fn into_record(self, tag: u8) -> Bytes
        ensures value { result ≡ record_of tag self }
        ensures limit { length result ≤ 9 + sub_record_limit }
    {
        let Segment { mut buffer } = self;
        buffer.set_head(tag);
        Bytes::from_vec(buffer.into_vec())
    }
}
