//! The length of a dump, added up from the sizes of its sub-records.
ghost use Rattle.std.specs.Prelude.{◌≡◌, ◌+◌, ◌<◌, ◌≤◌, ◌^◌, [], ◌∷◌, length, map};
ghost use Rattle.hprof_text.specs.Cursors.{from_item};
ghost use Rattle.hprof_text.specs.declared.section.Section.TheVariants.{Numbered, Objects};
ghost use Rattle.hprof_text.specs.Text.{after, records_in, sub_records};
ghost use Rattle.hprof_text.specs.SizeSums.{AddsSizes, IsMeasured, section_limit, total};
ghost use Rattle.hprof_text.specs.Sizes.{records_size};

use crate::section::{NumberedSection, Section};
use crate::sizes::dump_size;
use crate::{SEGMENT_LIMIT, View};

/// The sizes of the segments so far, in bytes: of those that are closed, with their heads, and of the body of the open one, if
/// there is one.
#[derive(Clone, Copy)]
pub struct Measure {
    closed: u64,
    body: u64,
}

impl Measure {
    /// Creates a measure of no segments.
    pub fn new() -> Measure
        ensures none { (result.closed ≡ 0) × (result.body ≡ 0) }
    {
        Measure { closed: 0, body: 0 }
    }

    /// Adds a sub-record of `size` bytes.
    pub fn add(&mut self, size: u64)
        requires some { 0 < size }
        requires limit { self.old.closed + self.old.body + size < 2 ^ 51 }
        ensures added { AddsSizes (size ∷ []) self.old self.new }
        ensures limit { self.new.closed + self.new.body
            ≤ self.old.closed + self.old.body + size + 9 }
    {
        if self.body != 0 && self.body + size > SEGMENT_LIMIT {
            self.closed += 9 + self.body;
            self.body = size;
        } else {
            self.body += size;
        }
    }

    // Adds the sub-records of a view's items of a section.
    fn add_items<V: View>(&mut self, view: &V, section: NumberedSection)
        requires { self.old.closed + self.old.body < 2 ^ 50 }
        ensures added { IsMeasured
            (from_item (V.ids view.now) (V.image view.now) (Numbered section) 0)
            (records_in (V.ids view.now) (V.image view.now) (after (Numbered section))) self.old
            self.new }
        ensures limit { self.new.closed + self.new.body
            ≤ self.old.closed + self.old.body + section_limit }
    {
        let classes = view.classes();
        let ids = view.id_size();
        for number in 0..section.count(view) {
            if let Some(sub_record) = section.item(view, number) {
                self.add(sub_record.size(ids, &classes));
            }
        }
    }

    // Adds the sub-records of a view's objects.
    fn add_objects<V: View>(&mut self, view: &V)
        requires { self.old.closed + self.old.body < 2 ^ 50 }
        ensures added { IsMeasured (from_item (V.ids view.now) (V.image view.now) Objects 0)
            (records_in (V.ids view.now) (V.image view.now) (after Objects)) self.old self.new }
        ensures limit { self.new.closed + self.new.body
            ≤ self.old.closed + self.old.body + section_limit }
    {
        let classes = view.classes();
        let ids = view.id_size();
        let mut passed = 0u64;
        let mut here = view.first();
        while let Some(at) = here {
            let words = view.words(at).len() as u64;
            self.add(dump_size(ids, &classes, view.kind(at), words));
            passed += 1;
            here = view.next(at);
        }
    }

    /// Returns the size of all segments, with their heads, in bytes.
    pub fn total(self) -> u64
        requires { self.closed + self.body < 2 ^ 51 }
        ensures { result ≡ total self }
    {
        if self.body == 0 {
            self.closed
        } else {
            self.closed + 9 + self.body
        }
    }
}

/// Returns the size of the segments of a view's dump, with their heads, in bytes.
pub(crate) fn segments_size<V: View>(view: &V) -> u64
    ensures value { result
        ≡ records_size (map length (sub_records (V.ids view.now) (V.image view.now))) }
    ensures limit { result < 2 ^ 50 }
{
    let mut measure = Measure::new();
    let mut next = Some(Section::first());
    while let Some(section) = next {
        match section {
            Section::Numbered(section) => measure.add_items(view, section),
            Section::Objects => measure.add_objects(view),
        }
        next = section.next();
    }
    measure.total()
}
