//! How many objects there are of each class.
ghost use Rattle.std.specs.Prelude.{◌≡◌, ◌+◌, ◌<◌, ◌≤◌, ◌^◌, length, slice_index_or, false, IfOk, IfErr};
ghost use Rattle.heap_class.specs.Limits.{large_array_limit};
ghost use Rattle.heap_class.specs.declared.Refusal.TheVariants.{NoMemory};
ghost use Rattle.hprof_text.specs.Image.{IsKnown};
ghost use Rattle.heap_questions.specs.Histogram.{class_rows, counted_unless, histogram_of, kind_row, row_at, row_number, rows_of, without_marked, value_size, values_limit};

use heap_class::{FirstClasses, IdSize, Kind, ObjKind, Refusal};
use hprof_text::View;
use std::alloc::Global;
use std::marker::Model;

/// The number of rows before those of the classes.
pub const CLASS_ROWS: usize = 9;

/// How many objects there are of each class, and how many arrays of values of each kind. Contracts see the rows.
#[derive(Drop)]
pub struct Histogram(Vec<Row>);

impl Model for Histogram {
    ghost use Rattle.std.specs.Prelude.{List};
    ghost use Rattle.heap_questions.specs.declared.rows.Row.{Row};

    ghost Value = { List Row };

    ghost view = { λ h. h.0.items };
}

impl Histogram {
    /// Returns the rows.
    pub fn as_slice(&self) -> &[Row]
        ensures { result.now ≡ self.now }
    {
        self.0.as_slice()
    }
}

/// Some objects: how many there are, and the bytes of their values.
#[derive(Clone, Copy)]
pub struct Row {
    pub objects: u64,
    pub bytes: u64,
}

/// Returns the number of the row in which arrays of values of this kind are counted.
pub fn kind_row(kind: Kind) -> usize
    ensures { result ≡ kind_row kind }
{
    match kind {
        Kind::Object => 0,
        Kind::Boolean => 1,
        Kind::Byte => 2,
        Kind::Char => 3,
        Kind::Short => 4,
        Kind::Int => 5,
        Kind::Float => 6,
        Kind::Long => 7,
        Kind::Double => 8,
    }
}

/// Returns the bytes that the values of an object of this kind with this many slots take in a dump. Takes no memory.
#[tactic(auto, unfolding(crate::specs::Histogram::value_size))]
pub fn value_size(ids: IdSize, classes: &FirstClasses<'_>, kind: ObjKind, words: u64) -> u64
    requires known { IsKnown classes.now kind words }
    requires small { words ≤ large_array_limit }
    ensures value { result ≡ value_size ids classes.now kind words }
    ensures limit { result ≤ values_limit }
{
    match kind {
        ObjKind::Instance(class) => {
            // Its contract bounds the number of slots.
            let _slots = classes.slots(class as u64);
            classes.instance_size(ids, class as u64)
        }
        ObjKind::Array(_) => ids.bytes() * words,
        ObjKind::Prim(kind) => kind.width(ids) * words,
    }
}

// Counts the objects of a view that aren't marked. Fails with NoMemory. Reads each object once.
pub(crate) fn count_unmarked<V: View>(
    alloc: Global,
    view: &V,
    marks: &[bool],
) -> Result<Histogram, Refusal>
    ensures rows { IfOk result (λ h. h ≡ rows_of (V.ids view.now) (V.image view.now).classes
        (without_marked marks.now (V.image view.now).objects)) }
    ensures refused { IfErr result (λ e. e ≡ NoMemory) }
{
    let classes = view.classes();
    let ids = view.id_size();
    let none = Row {
        objects: 0,
        bytes: 0,
    };
    let mut rows = vec![in alloc; none; CLASS_ROWS + classes.len() as usize]?;
    let mut passed = 0usize;
    let mut here = view.first();
    while let Some(at) = here {
        let kind = view.kind(at);
        let words = view.words(at).len() as u64;
        let bytes = value_size(ids, &classes, kind, words);
        let index = row_number(&classes, kind, words);
        count(&mut rows, index, bytes, mark_at(marks, passed));
        passed += 1;
        here = view.next(at);
    }
    Ok(Histogram(rows))
}

// Counts an object of `bytes` bytes in its row, unless it is marked.
fn count(rows: &mut Vec<Row>, index: usize, bytes: u64, marked: bool)
    requires within { index < length rows.old.items }
    requires objects { (row_at rows.old.items index).objects < 2 ^ 32 }
    requires bytes { (row_at rows.old.items index).bytes + bytes < 2 ^ 62 }
    ensures { rows.new.items ≡ counted_unless marked index bytes rows.old.items }
{
    if marked {
        return;
    }
    let row = &mut rows[index];
    row.objects += 1;
    row.bytes += bytes;
}

// Returns the mark at this place. Past the last there is none.
fn mark_at(marks: &[bool], index: usize) -> bool
    ensures { result ≡ slice_index_or marks.now index false }
{
    index < marks.len() && marks[index]
}

// Returns the number of the row in which an object of this kind is counted.
#[tactic(auto, unfolding(crate::specs::Histogram::row_number))]
pub(crate) fn row_number(classes: &FirstClasses<'_>, kind: ObjKind, words: u64) -> usize
    requires { IsKnown classes.now kind words }
    ensures value { result ≡ row_number kind }
    ensures within { result < class_rows + length classes.now }
{
    // Its contract bounds the number of classes.
    let _count = classes.len();
    match kind {
        ObjKind::Instance(class) | ObjKind::Array(class) => CLASS_ROWS + class as usize,
        ObjKind::Prim(kind) => kind_row(kind),
    }
}

/// Counts the objects of a view: those of class `k` in row `CLASS_ROWS + k`, and arrays of values in the row of their kind. Fails
/// with NoMemory if an allocation fails. Reads each object once.
pub fn count_by_class<V: View>(alloc: Global, view: &V) -> Result<Histogram, Refusal>
    ensures rows { IfOk result (λ h. h ≡ histogram_of (V.ids view.now) (V.image view.now)) }
    ensures refused { IfErr result (λ e. e ≡ NoMemory) }
{
    count_unmarked(alloc, view, &[])
}
