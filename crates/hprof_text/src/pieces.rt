//! The pieces of a dump: the opening records, the segments, and the end.
ghost use Rattle.std.specs.Prelude.{◌≡◌, ◌+◌, ◌≤◌, ℕ, List, length, slice_get, IfOk, IfErr};
ghost use Rattle.heap_class.specs.declared.Refusal.TheVariants.{NoMemory};
ghost use Rattle.hprof_text.specs.declared.Cursor.TheVariants.{Past};
ghost use Rattle.hprof_text.specs.declared.section.Section.TheVariants.{Numbered, Objects};
ghost use Rattle.hprof_text.specs.Laws.{piece_size_limit};
ghost use Rattle.hprof_text.specs.Records.{opening_of};
ghost use Rattle.hprof_text.specs.Cursors.{IsAt, IsBefore, IsRest};
ghost use Rattle.hprof_text.specs.Text.{after, records_in};
ghost use Rattle.hprof_text.specs.SegmentFilling.{IsFilledFrom, IsFilledTo};
ghost use Rattle.hprof_text.specs.Segments.{piece_of};

use crate::section::{NumberedSection, Section};
use crate::segment::Segment;
use crate::segment_bytes::SegmentBytes;
use crate::sizes::opening_size;
use crate::{Bytes, Cursor, Piece, View};
use heap_class::{FirstClasses, IdSize, ObjRef, Refusal};
use hprof_records::tags::{HEAP_DUMP_END, HEAP_DUMP_SEGMENT};
use std::alloc::Global;

impl Segment {
    // Offers a view's items of a section from number `from` on. Returns the cursor at the first that wasn't taken.
    fn fill_items<V: View>(
        &mut self,
        view: &V,
        section: NumberedSection,
        from: u64,
    ) -> Option<Cursor>
        ensures { IsFilledFrom (V.ids view.now) (V.image view.now) (V.places view.now)
            (Numbered section) from result self.old self.new }
    {
        for number in from..section.count(view) {
            if !self.offer_item(view, section, number) {
                return Some(Cursor::Item(section, number));
            }
        }
        None
    }

    // Offers the sub-records of a view's objects from a place on. Returns the cursor at the first that wasn't taken. Fails with
    // NoMemory if an allocation fails.
    #[inline(always)]
    fn fill_objects<V: View>(
        &mut self,
        view: &V,
        from: Option<ObjRef>,
    ) -> Result<Option<Cursor>, Refusal>
        requires { (n : ℕ) × (from ≡ slice_get (V.places view.now) n)
            × (n ≤ length (V.places view.now)) }
        ensures filled { IfOk result
            (λ left. (n : ℕ) → from ≡ slice_get (V.places view.now) n
            → n ≤ length (V.places view.now)
            → IsFilledFrom (V.ids view.now) (V.image view.now) (V.places view.now) Objects n left
            self.old self.new) }
        ensures refused { IfErr result (λ e. e ≡ NoMemory) }
    {
        let classes = view.classes();
        let ids = view.id_size();
        let mut passed = 0u64;
        let mut here = from;
        while let Some(at) = here {
            let object = view.object(at);
            let taken = self.offer_object(
                ids,
                &classes,
                object.id(),
                object.kind(),
                object.words(),
            )?;
            if !taken {
                return Ok(Some(Cursor::Object(at)));
            }
            passed += 1;
            here = view.next(at);
        }
        Ok(None)
    }

    // Offers the items of the sections after this one. Returns the cursor at the first sub-record that is left. Fails with
    // NoMemory if an allocation fails.
    fn fill_after<V: View>(&mut self, view: &V, section: Section) -> Result<Cursor, Refusal>
        ensures filled { IfOk result
            (λ cursor. IsFilledTo (V.ids view.now) (V.image view.now) (V.places view.now)
            (records_in (V.ids view.now) (V.image view.now) (after section)) cursor self.old
            self.new) }
        ensures refused { IfErr result (λ e. e ≡ NoMemory) }
    {
        let mut next = section.next();
        while let Some(section) = next {
            let left = match section {
                Section::Numbered(section) => self.fill_items(view, section, 0),
                Section::Objects => self.fill_objects(view, view.first())?,
            };
            if let Some(cursor) = left {
                return Ok(cursor);
            }
            next = section.next();
        }
        Ok(Cursor::End)
    }

    // Fills the segment from the cursor on. Returns the cursor at the first sub-record that is left. Fails with NoMemory if an
    // allocation fails.
    fn fill<V: View>(&mut self, view: &V, cursor: Cursor) -> Result<Cursor, Refusal>
        requires { (rest : List (List ℕ))
            × IsRest (V.ids view.now) (V.image view.now) (V.places view.now) cursor rest }
        ensures filled { IfOk result
            (λ left. (rest : List (List ℕ))
            → IsRest (V.ids view.now) (V.image view.now) (V.places view.now) cursor rest
            → IsFilledTo (V.ids view.now) (V.image view.now) (V.places view.now) rest left self.old
            self.new) }
        ensures refused { IfErr result (λ e. e ≡ NoMemory) }
    {
        match cursor {
            Cursor::Item(section, from) => match self.fill_items(view, section, from) {
                Some(left) => Ok(left),
                None => self.fill_after(view, Section::Numbered(section)),
            },
            Cursor::Object(at) => match self.fill_objects(view, Some(at))? {
                Some(left) => Ok(left),
                None => self.fill_after(view, Section::Objects),
            },
            Cursor::Start => Ok(Cursor::Start),
            Cursor::End => Ok(Cursor::End),
            Cursor::Past => Ok(Cursor::Past),
        }
    }
}

/// Returns the first piece, and the cursor after it. Fails with NoMemory if an allocation fails.
pub(crate) fn start_from<V: View>(
    alloc: Global,
    view: &V,
    time: u64,
) -> Result<(Piece, Cursor), Refusal>
    ensures piece { IfOk result (λ p. p.0 ≡ piece_of (V.ids view.now) (V.image view.now) time 0) }
    ensures next { IfOk result
        (λ p. IsAt (V.ids view.now) (V.image view.now) (V.places view.now) p.1 1) }
    ensures small { IfOk result (λ p. length p.0.bytes ≤ piece_size_limit) }
    ensures refused { IfErr result (λ e. e ≡ NoMemory) }
{
    let bytes = opening_bytes(alloc, view.id_size(), &view.classes(), time)?;
    Ok((
        Piece { bytes, last: false },
        Cursor::Item(NumberedSection::ClassDumps, 0),
    ))
}

// Returns the first piece.
#[tactic(auto, using(crate::proofs::Lengths::opening_length))]
fn opening_bytes(
    alloc: Global,
    ids: IdSize,
    classes: &FirstClasses<'_>,
    time: u64,
) -> Result<Bytes, Refusal>
    ensures bytes { IfOk result (λ b. b ≡ opening_of ids classes.now time) }
    ensures small { IfOk result (λ b. length b ≤ piece_size_limit) }
    ensures refused { IfErr result (λ e. e ≡ NoMemory) }
{
    match SegmentBytes::new(alloc, opening_size(ids, classes) as usize) {
        Ok(mut buffer) => {
            buffer.opening_records(ids, classes, time);
            Ok(Bytes::from_vec(buffer.into_vec()))
        }
        Err(_) => Err(Refusal::NoMemory),
    }
}

/// Returns the piece of the segment at the cursor, or of the end if no sub-record is left, and the cursor after it. Fails with
/// NoMemory if an allocation fails.
pub(crate) fn segment_from<V: View>(
    alloc: Global,
    view: &V,
    cursor: Cursor,
) -> Result<(Piece, Cursor), Refusal>
    requires { (rest : List (List ℕ))
        × IsRest (V.ids view.now) (V.image view.now) (V.places view.now) cursor rest }
    ensures piece { IfOk result
        (λ p. (time i : ℕ) (rest : List (List ℕ))
        → IsRest (V.ids view.now) (V.image view.now) (V.places view.now) cursor rest
        → IsBefore (V.ids view.now) (V.image view.now) rest i
        → p.0 ≡ piece_of (V.ids view.now) (V.image view.now) time i) }
    ensures next { IfOk result
        (λ p. (i : ℕ) (rest : List (List ℕ))
        → IsRest (V.ids view.now) (V.image view.now) (V.places view.now) cursor rest
        → IsBefore (V.ids view.now) (V.image view.now) rest i
        → IsAt (V.ids view.now) (V.image view.now) (V.places view.now) p.1 (i + 1)) }
    ensures small { IfOk result (λ p. length p.0.bytes ≤ piece_size_limit) }
    ensures refused { IfErr result (λ e. e ≡ NoMemory) }
{
    let mut segment = Segment::new(alloc)?;
    let next = segment.fill(view, cursor)?;
    if segment.len() == 0 {
        let bytes = segment.into_record(HEAP_DUMP_END);
        return Ok((Piece { bytes, last: true }, Cursor::Past));
    }
    let bytes = segment.into_record(HEAP_DUMP_SEGMENT);
    Ok((Piece { bytes, last: false }, next))
}

/// Returns the empty piece past the last.
pub(crate) fn past_from<V: View>(alloc: Global, view: &V) -> (Piece, Cursor)
    ensures piece { (time i : ℕ)
        → IsAt (V.ids view.now) (V.image view.now) (V.places view.now) Past i
        → result.0 ≡ piece_of (V.ids view.now) (V.image view.now) time i }
    ensures next { result.1 ≡ Past }
    ensures small { length result.0.bytes ≡ 0 }
{
    let piece = Piece {
        bytes: Bytes::from_vec(Vec::new(alloc)),
        last: true,
    };
    (piece, Cursor::Past)
}
