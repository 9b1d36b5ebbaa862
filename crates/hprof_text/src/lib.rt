//! The text of a dump, whole and in pieces: HPROF, JAVA PROFILE 1.0.2 (the format comment of OpenJDK's heapDumper.cpp).
#![tactic(auto)]

ghost use Rattle.std.specs.Prelude.{◌≡◌, ◌+◌, ◌≤◌, ℕ, List, length, IfOk, IfErr};
ghost use Rattle.heap_class.specs.declared.ObjRef.{ObjRef};
ghost use Rattle.heap_class.specs.declared.Refusal.TheVariants.{NoMemory};
ghost use Rattle.heap_class.specs.declared.IdSize.{IdSize};
ghost use Rattle.hprof_text.specs.Image.{Image, IsDumpable};
ghost use Rattle.hprof_text.specs.Cursors.{IsAt};
ghost use Rattle.hprof_text.specs.Laws.{EqualIds, IsCut, NumbersFit, PiecesFew, PiecesJoin, piece_size_limit};
ghost use Rattle.hprof_text.specs.Segments.{dump_text, piece_of};

use crate::measure::segments_size;
use crate::pieces::{past_from, segment_from, start_from};
use crate::sizes::opening_size;
use heap_class::{FirstClasses, IdSize, Items, ObjKind, ObjRef, Refusal};
use std::alloc::Global;

mod list_view;
mod measure;
mod parts;
mod pieces;
mod records;
mod section;
mod segment;
mod segment_bytes;
mod shown_object;
mod sizes;

pub use crate::list_view::{ListView, ListedObject};
pub use crate::section::{NumberedSection, SubRecord};
pub use crate::segment_bytes::SegmentBytes;
pub use crate::shown_object::ShownObject;

/// The most bytes of a segment's body, unless it is a single sub-record.
pub const SEGMENT_LIMIT: u64 = 4096;

/// The most pieces of a dump.
pub const PIECE_LIMIT: u64 = 16_785_538;

/// The bytes of a piece.
pub type Bytes = Items<u8>;

/// A piece of a dump.
#[derive(Drop)]
pub struct Piece {
    /// The bytes of the piece.
    pub bytes: Bytes,
    /// Whether it is the last piece.
    pub last: bool,
}

/// The place in a dump at which its next piece begins.
#[derive(Clone, Copy)]
pub enum Cursor {
    /// Before the first piece.
    Start,
    /// Before this item of a section, by its number. The first sub-record from there on begins the next segment.
    Item(NumberedSection, u64),
    /// Before the sub-record of the object at a place, which begins the next segment.
    Object(ObjRef),
    /// Before the end.
    End,
    /// Past the last piece.
    Past,
}

/// A heap as a dump shows it: its `image`, the size of its identifiers, and the places of its objects, in order.
pub trait View {
    ghost use Rattle.std.specs.Prelude.{◌≡◌, ◌+◌, ℕ, List, length, Some, IfSome, Contains, slice_get};
    ghost use Rattle.heap_class.specs.declared.IdSize.{IdSize};
    ghost use Rattle.heap_class.specs.declared.ObjRef.{ObjRef};
    ghost use Rattle.hprof_text.specs.Image.{Image, IsDumpable};

    ghost image: { Self → Image };

    ghost ids: { Self → IdSize };

    ghost places: { Self → List ObjRef };

    /// Returns the classes. Classes, registers and objects are within the limits of a dump.
    fn classes(&self) -> FirstClasses<'_>
        ensures value { result ≡ (image self.now).classes }
        ensures limits { IsDumpable (image self.now) }
        ensures placed { length (places self.now) ≡ length (image self.now).objects };

    /// Returns the size of identifiers.
    fn id_size(&self) -> IdSize
        ensures { result ≡ ids self.now };

    /// Returns the registers, mutator by mutator.
    fn registers(&self) -> &[u64]
        ensures { result.now ≡ (image self.now).registers };

    /// Returns the place of the first object.
    fn first(&self) -> Option<ObjRef>
        ensures { result ≡ slice_get (places self.now) 0 };

    /// Returns the place of the object after the one at this place.
    fn next(&self, at: ObjRef) -> Option<ObjRef>
        ensures { (i : ℕ) → slice_get (places self.now) i ≡ Some at
            → result ≡ slice_get (places self.now) (i + 1) };

    /// Returns the kind of the object at this place, which must have one.
    fn kind(&self, at: ObjRef) -> ObjKind
        requires { Contains (places self.now) at }
        ensures { (i : ℕ) → slice_get (places self.now) i ≡ Some at
            → IfSome (slice_get (image self.now).objects i) (λ o. result ≡ o.kind) };

    /// Returns the id of the object at this place, which must have one.
    fn id(&self, at: ObjRef) -> u64
        requires { Contains (places self.now) at }
        ensures { (i : ℕ) → slice_get (places self.now) i ≡ Some at
            → IfSome (slice_get (image self.now).objects i) (λ o. result ≡ o.id) };

    /// Returns the words of the object at this place, which must have one, in slot order.
    fn words(&self, at: ObjRef) -> &[u64]
        requires { Contains (places self.now) at }
        ensures { (i : ℕ) → slice_get (places self.now) i ≡ Some at
            → IfSome (slice_get (image self.now).objects i) (λ o. result.now ≡ o.words) };

    /// Returns the object at this place, which must have one.
    fn object(&self, at: ObjRef) -> ShownObject<'_>
        requires { Contains (places self.now) at }
        ensures { (i : ℕ) → slice_get (places self.now) i ≡ Some at
            → IfSome (slice_get (image self.now).objects i) (λ o. result ≡ o) };
}

/// Returns the length of a view's dump in bytes. It doesn't depend on the time.
pub fn text_len<V: View>(view: &V) -> u64
    ensures { (time : ℕ) → result ≡ length (dump_text (V.ids view.now) (V.image view.now) time) }
{
    opening_size(view.id_size(), &view.classes()) + segments_size(view) + 9
}

/// Returns piece `index` of a view's dump, from 0. It is empty past the last. Fails with NoMemory if an allocation fails.
pub fn piece_of<V: View>(alloc: Global, view: &V, index: u64, time: u64) -> Result<Piece, Refusal>
    ensures piece { IfOk result (λ p. p ≡ piece_of (V.ids view.now) (V.image view.now) time index) }
    ensures refused { IfErr result (λ e. e ≡ NoMemory) }
{
    let mut cursor = Cursor::Start;
    for _passed in 0..index {
        if matches!(cursor, Cursor::Past) {
            break;
        }
        let (_piece, next) = piece_from(alloc, view, cursor, time)?;
        cursor = next;
    }
    let (piece, _next) = piece_from(alloc, view, cursor, time)?;
    Ok(piece)
}

/// Returns the piece at the cursor, and the cursor of the piece after it. The cursor must be one of the view's. Fails with
/// NoMemory if an allocation fails. Reads each object of the piece once.
pub fn piece_from<V: View>(
    alloc: Global,
    view: &V,
    cursor: Cursor,
    time: u64,
) -> Result<(Piece, Cursor), Refusal>
    requires { (i : ℕ) × IsAt (V.ids view.now) (V.image view.now) (V.places view.now) cursor i }
    ensures piece { IfOk result
        (λ p. (i : ℕ) → IsAt (V.ids view.now) (V.image view.now) (V.places view.now) cursor i
        → p.0 ≡ piece_of (V.ids view.now) (V.image view.now) time i) }
    ensures next { IfOk result
        (λ p. (i : ℕ) → IsAt (V.ids view.now) (V.image view.now) (V.places view.now) cursor i
        → IsAt (V.ids view.now) (V.image view.now) (V.places view.now) p.1 (i + 1)) }
    ensures small { IfOk result (λ p. length p.0.bytes ≤ piece_size_limit) }
    ensures refused { IfErr result (λ e. e ≡ NoMemory) }
{
    match cursor {
        Cursor::Start => start_from(alloc, view, time),
        Cursor::Past => Ok(past_from(alloc, view)),
        _ => segment_from(alloc, view, cursor),
    }
}

/// States that the pieces of each dump, joined, are its text.
pub fn pieces_join()
    ensures { (ids : IdSize) (image : Image) (time : ℕ) → PiecesJoin ids image time }
{}

/// States that the sub-records are cut into segments in order: none is empty, none has a body of more than `limit` bytes unless
/// it is a single sub-record, and none could take the next sub-record.
pub fn segments_are_cut()
    ensures { (limit : ℕ) (subs : List (List ℕ)) → IsCut limit subs }
{}

/// States that a dump has at most 16,785,538 pieces.
pub fn pieces_few()
    ensures { (ids : IdSize) (image : Image) (time : ℕ) → PiecesFew ids image time }
{}

/// States that each number of a dump fits in the bytes that it has there: lengths, counts, serials, the ids of classes and
/// names, type codes and the time.
pub fn numbers_fit()
    ensures { (ids : IdSize) (image : Image) (time : ℕ) → NumbersFit ids image time }
{}

/// States that two identifiers that fit and have equal bytes are equal.
pub fn equal_ids()
    ensures { (ids : IdSize) (a b : ℕ) → EqualIds ids a b }
{}
