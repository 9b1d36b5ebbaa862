//! A walk over a dump: its records, and the sub-records of its heap dumps, one after another.
ghost use Rattle.std.specs.Prelude.{◌≡◌, [], Ok, None, Some, IfOk, MatchOption};
ghost use Rattle.hprof_reader.specs.Reading.{Gives};
ghost use Rattle.hprof_reader.specs.Records.{Told};
ghost use Rattle.hprof_reader.specs.SubRecords.{Sub};
ghost use Rattle.hprof_session.specs.Walks.{ItemTold, Left, IsAtEnd, IsNext, IsNextRecord, IsNextSub, left, next_told, step_told, record_told, sub_told, segment_of};

use heap_class::IdSize;
use hprof_reader::{Fault, Record, SubRecord, record_at, sub_record_at};
use hprof_records::tags::{HEAP_DUMP, HEAP_DUMP_SEGMENT};

/// What is left of a dump, from a place between two of its records or sub-records on.
#[derive(Clone, Copy, PartialEq, Eq, Debug)]
pub struct Walk<'a> {
    /// The size of identifiers.
    pub ids: IdSize,
    /// What is left of the heap dump or segment that was entered last.
    pub segment: &'a [u8],
    /// The bytes after that.
    pub rest: &'a [u8],
}

/// What a walk comes to.
#[derive(Clone, Copy, PartialEq, Eq, Debug)]
pub enum Item<'a> {
    /// A record. If it is a heap dump or a segment, its sub-records are next.
    Record(Record<'a>),
    /// A sub-record of the heap dump or segment that was entered last.
    Sub(SubRecord<'a>),
}

/// Reads the record or sub-record that is next. Returns it with what is left after it, or None at the end of the dump. Fails with
/// Short, Tag or Type if no whole record or sub-record is next.
pub fn item_at(walk: Walk<'_>) -> Result<Option<(Item<'_>, Walk<'_>)>, Fault>
    ensures found { IfOk result (λ o. MatchOption o (IsAtEnd (left walk.entry))
        (λ x. IsNext (left walk.entry) (step_told x).0 (step_told x).1)) }
    ensures only { (i : ItemTold) (v : Left) → IsNext (left walk.entry) i v
        → Gives next_told result (Ok (Some (i, v))) }
    ensures end { IsAtEnd (left walk.entry) → result ≡ Ok None }
{
    if !walk.segment.is_empty() {
        return Ok(Some(next_sub(walk)?));
    }
    if walk.rest.is_empty() {
        return Ok(None);
    }
    Ok(Some(next_record(walk)?))
}

// Reads the sub-record that is next in the segment.
fn next_sub(walk: Walk<'_>) -> Result<(Item<'_>, Walk<'_>), Fault>
    ensures found { IfOk result (λ x. IsNext (left walk.entry) (step_told x).0 (step_told x).1) }
    ensures only { (s : Sub) (v : Left) → IsNextSub (left walk.entry) s v
        → Gives step_told result (Ok (sub_told s, v)) }
{
    let (sub, segment) = sub_record_at(walk.ids, walk.segment)?;
    let (ids, rest) = (walk.ids, walk.rest);
    Ok((Item::Sub(sub), Walk { ids, segment, rest }))
}

// Reads the record that is next after the segment.
fn next_record(walk: Walk<'_>) -> Result<(Item<'_>, Walk<'_>), Fault>
    requires { (left walk).segment ≡ [] }
    ensures found { IfOk result (λ x. IsNext (left walk.entry) (step_told x).0 (step_told x).1) }
    ensures only { (r : Told) (v : Left) → IsNextRecord (left walk.entry) r v
        → Gives step_told result (Ok (record_told r, v)) }
{
    let (record, rest) = record_at(walk.rest)?;
    let segment = segment_of(record.tag, record.body);
    let ids = walk.ids;
    Ok((Item::Record(record), Walk { ids, segment, rest }))
}

// Returns the sub-records in the body of a record with this tag: all of it, if that is a heap dump or a segment, or nothing.
fn segment_of(tag: u8, body: &[u8]) -> &[u8]
    ensures { result.now ≡ segment_of tag body.now }
{
    match tag {
        HEAP_DUMP | HEAP_DUMP_SEGMENT => body,
        _ => &[],
    }
}
