//! Batches: the bytes of several parts of a dump, joined.
ghost use Rattle.std.specs.Prelude.{◌≡◌, ◌<◌, ◌≤◌, length, false, true, None, Some, IfSome, if◌then◌else◌, ◌++◌};
ghost use Rattle.dump_pump.specs.declared.source.SourceEnd.TheVariants.{Whole};
ghost use Rattle.hprof_text.specs.Laws.{piece_size_limit};
ghost use Rattle.dump_pipe.specs.Batches.{batch_room, IsAppended, IsDrawn, IsFilled, IsBatch, IsBatched, IsReady};

use crate::surplus::Surplus;
use dump_pump::{Next, Source};
use hprof_text::{Bytes, Piece};
use std::alloc::Global;

/// The largest number of bytes of a batch that has several parts.
pub const BATCH_ROOM: usize = 65_536;

// Returns the next batch of a source's parts, or the reason why there is none.
pub(crate) fn next_batch<S: Source>(
    alloc: Global,
    source: &mut S,
    surplus: &mut Option<Surplus>,
) -> Next
    requires { IsReady (S.seen source.old) surplus.old }
    ensures batch { IsBatched (S.seen source.old) (S.seen source.new) surplus.old surplus.new
        result }
    ensures kept { S.kept source.new ≡ S.kept source.old }
{
    match draw(source, surplus) {
        Next::Part(first) => Next::Part(batch_from(alloc, source, surplus, first)),
        Next::Lost(cause) => Next::Lost(cause),
        Next::Cancelled => Next::Cancelled,
    }
}

// Returns the surplus, or else the next answer of the source.
fn draw<S: Source>(source: &mut S, surplus: &mut Option<Surplus>) -> Next
    requires { IsReady (S.seen source.old) surplus.old }
    ensures drawn { IsDrawn (S.seen source.old) (S.seen source.new) surplus.old result }
    ensures empty { surplus.new ≡ None }
    ensures kept { S.kept source.new ≡ S.kept source.old }
{
    match surplus.take() {
        Some(Surplus { next, left: _ }) => next,
        None => source.next(),
    }
}

// Returns the batch that begins with a part, or the part alone if it is the last, if no batch has room for it, or if the
// allocation of one fails.
fn batch_from<S: Source>(
    alloc: Global,
    source: &mut S,
    surplus: &mut Option<Surplus>,
    first: Piece,
) -> Piece
    requires small { length first.bytes ≤ piece_size_limit }
    requires left { first.last ≡ false → 0 < (S.seen source.old).left }
    requires whole { first.last ≡ true → (S.seen source.old).ended ≡ Some Whole }
    requires empty { surplus.old ≡ None }
    ensures batch { IsBatch (S.seen source.old) (S.seen source.new) first result surplus.new }
    ensures kept { S.kept source.new ≡ S.kept source.old }
{
    if first.last {
        return first;
    }
    let Some(mut batch) = batch_of(alloc, first.bytes.as_slice()) else {
        return first;
    };
    let last = fill(source, &mut batch, surplus);
    Piece {
        bytes: Bytes::from_vec(batch),
        last,
    }
}

// Creates a batch that begins with these bytes. Returns None if it has no room for them, or if the allocation fails.
fn batch_of(alloc: Global, bytes: &[u8]) -> Option<Vec<u8>>
    ensures bytes { IfSome result (λ batch. batch.items ≡ bytes.now) }
    ensures room { IfSome result (λ batch. length batch.items ≤ batch_room) }
{
    let Ok(mut batch) = Vec::with_capacity(alloc, BATCH_ROOM) else {
        return None;
    };
    if add(&mut batch, bytes) {
        Some(batch)
    } else {
        None
    }
}

// Appends bytes to a batch if it has room for them.
fn add(batch: &mut Vec<u8>, bytes: &[u8]) -> bool
    requires { length batch.old.items ≤ batch_room }
    ensures added { batch.new.items
        ≡ (if result then batch.old.items ++ bytes.now else batch.old.items) }
    ensures room { length batch.new.items ≤ batch_room }
{
    bytes.len() <= BATCH_ROOM - batch.len() && batch.extend_from_slice(bytes).is_ok()
}

// Appends the parts of a source to a batch, until it has no room for the next one, the last part is in it, or the source ends.
// A part or an end that the source gave and that isn't in the batch is the surplus. Returns whether the last part is in the
// batch.
fn fill<S: Source>(source: &mut S, batch: &mut Vec<u8>, surplus: &mut Option<Surplus>) -> bool
    requires left { 0 < (S.seen source.old).left }
    requires room { length batch.old.items ≤ batch_room }
    requires empty { surplus.old ≡ None }
    ensures filled { IsFilled (S.seen source.old) (S.seen source.new) batch.old.items
        batch.new.items surplus.new result }
    ensures kept { S.kept source.new ≡ S.kept source.old }
{
    loop {
        let left = source.parts_left();
        let next = source.next();
        match append(batch, &next) {
            Some(true) => return true,
            Some(false) => {}
            None => {
                *surplus = Some(Surplus { next, left });
                return false;
            }
        }
    }
}

// Appends a part to a batch if it has room for it. Returns whether it is the last part, or None if nothing was appended.
fn append(batch: &mut Vec<u8>, next: &Next) -> Option<bool>
    requires { length batch.old.items ≤ batch_room }
    ensures { IsAppended batch.old.items batch.new.items next.now result }
{
    let Next::Part(piece) = next else {
        return None;
    };
    if add(batch, piece.bytes.as_slice()) {
        Some(piece.last)
    } else {
        None
    }
}
