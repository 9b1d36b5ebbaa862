//! The answer of `show` with a depth.
ghost use Rattle.std.specs.Prelude.{◌≡◌, ◌⊎◌, ◌+◌, ◌<◌, ◌^◌, ◌++◌, length, None, Some, IfErr, IfOk, IfSome, OnOk};
ghost use Rattle.heap_class.specs.declared.Refusal.TheVariants.{NoMemory, TooLarge};
ghost use Rattle.hprof_text.specs.Image.{IsDumpable, IsKnown};
ghost use Rattle.question_words.specs.Appends.{Appends};
ghost use Rattle.question_words.specs.Moments.{IsToldOf, told_text};
ghost use Rattle.question_words.specs.Names.{IsClassThere};
ghost use Rattle.question_rows.specs.Objects.{rows_joined, object_line};
ghost use Rattle.question_rows.specs.Trees.{IsTreeText, and_class, and_kind_and_value, and_slot_name, kind_at, object_at_slot, row_limit, rows_text, slot_name, tree_row, tree_rows};

use crate::show::{push_object, push_value};
use heap_class::{ClassNo, FirstClasses, Kind, ObjKind, Refusal};
use heap_questions::{ObjectIndex, slot_kind};
use hprof_text::{ShownObject, View};
use question_words::{Unanswered, field_name, push_class_name, push_number, push_row, push_words};
use std::alloc::{AllocError, Global};

/// The most rows of an answer about an object and those below it.
pub const ROW_LIMIT: usize = 65_536;

// The rows of an answer, and how many more there may be.
#[derive(Drop)]
struct Rows {
    text: Vec<u8>,
    room: usize,
}

/// Returns the answer of `show` about a view: the slots of an object and of those below it, `levels` levels down. Fails with
/// NoObject if the id names no object, with TooLarge if there are more than `ROW_LIMIT` rows, and with NoMemory if an allocation
/// fails. Reads the id of each object once.
pub fn tree_answer<V: View>(
    alloc: Global,
    view: &V,
    id: u64,
    levels: u64,
    marked: bool,
) -> Result<Vec<u8>, Unanswered>
    ensures { IsToldOf (IsTreeText id levels marked) (V.image view.now) (told_text result) }
{
    let classes = view.classes();
    let index = ObjectIndex::new(alloc, view)?;
    match index.object_with(id) {
        Some(object) => Ok(tree_lines(alloc, &index, &classes, &object, levels, marked)?),
        None => Err(Unanswered::NoObject),
    }
}

// Returns the lines of an object and of those below it. Fails with TooLarge if there are too many rows, and with NoMemory.
fn tree_lines<V: View>(
    alloc: Global,
    index: &ObjectIndex<'_, V>,
    classes: &FirstClasses<'_>,
    object: &ShownObject<'_>,
    levels: u64,
    marked: bool,
) -> Result<Vec<u8>, Refusal>
    requires limits { IsDumpable index.now }
    requires classes { classes.now ≡ index.now.classes }
    requires known { IsKnown classes.now object.now.kind (length object.now.words) }
    ensures lines { IfOk result (λ text. text.items
        ≡ rows_text (tree_rows levels index.now 0 object.now)
        (object_line classes.now object.now.kind (length object.now.words) marked)) }
    ensures refused { IfErr result
        (λ e. (e ≡ NoMemory)
        ⊎ ((e ≡ TooLarge) × (row_limit < length (tree_rows levels index.now 0 object.now)))) }
{
    let mut rows = Rows {
        text: Vec::new(alloc),
        room: ROW_LIMIT,
    };
    push_level(&mut rows, index, classes, object, 0, levels)?;
    push_object(&mut rows.text, classes, object, marked)?;
    Ok(rows.text)
}

// Appends the rows of an object's slots at a level, and of the objects below it, `below` levels down. Fails with TooLarge if there
// isn't room for all rows, and with NoMemory.
fn push_level<V: View>(
    rows: &mut Rows,
    index: &ObjectIndex<'_, V>,
    classes: &FirstClasses<'_>,
    object: &ShownObject<'_>,
    level: u64,
    below: u64,
) -> Result<(), Refusal>
    requires limits { IsDumpable index.now }
    requires classes { classes.now ≡ index.now.classes }
    requires known { IsKnown classes.now object.now.kind (length object.now.words) }
    requires levels { level + below < 2 ^ 64 }
    ensures text { OnOk result (rows.new.text.items
        ≡ rows.old.text.items ++ rows_joined (tree_rows below index.now level object.now)) }
    ensures room { OnOk result (rows.new.room + length (tree_rows below index.now level object.now)
        ≡ rows.old.room) }
    ensures refused { IfErr result
        (λ e. (e ≡ NoMemory) ⊎ ((e ≡ TooLarge)
        × (rows.old.room < length (tree_rows below index.now level object.now)))) }
{
    for slot in 0..object.words().len() {
        push_slot(rows, index, classes, object, level, slot)?;
        let Some(named) = object_below(index, classes, object, slot, below) else {
            continue;
        };
        push_level(rows, index, classes, &named, level + 1, below - 1)?;
    }
    Ok(())
}

// Appends the row of a slot of an object at a level. Fails with TooLarge if there is no room, and with NoMemory.
fn push_slot<V: View>(
    rows: &mut Rows,
    index: &ObjectIndex<'_, V>,
    classes: &FirstClasses<'_>,
    object: &ShownObject<'_>,
    level: u64,
    slot: usize,
) -> Result<(), Refusal>
    requires limits { IsDumpable index.now }
    requires classes { classes.now ≡ index.now.classes }
    requires known { IsKnown classes.now object.now.kind (length object.now.words) }
    requires within { slot < length object.now.words }
    ensures text { OnOk result (rows.new.text.items ≡ rows.old.text.items
        ++ tree_row classes.now level object.now slot (object_at_slot index.now object.now slot)) }
    ensures room { OnOk result (rows.new.room + 1 ≡ rows.old.room) }
    ensures refused { IfErr result
        (λ e. (e ≡ NoMemory) ⊎ ((e ≡ TooLarge) × (rows.old.room ≡ 0))) }
{
    if rows.room == 0 {
        return Err(Refusal::TooLarge);
    }
    rows.room -= 1;
    let named = object_at_slot(index, classes, object, slot);
    push_tree_row(&mut rows.text, classes, object, level, slot, named)?;
    Ok(())
}

// Returns the object that a slot of an object names. The object must have the slot.
#[tactic(auto, unfolding(crate::specs::Trees::object_at_slot))]
fn object_at_slot<'a, V: View>(
    index: &'a ObjectIndex<'_, V>,
    classes: &FirstClasses<'_>,
    object: &ShownObject<'_>,
    slot: usize,
) -> Option<ShownObject<'a>>
    requires classes { classes.now ≡ index.now.classes }
    requires known { IsKnown classes.now object.now.kind (length object.now.words) }
    requires within { slot < length object.now.words }
    ensures { result ≡ object_at_slot index.now object.now slot }
{
    if kind_at(classes, object, slot).is_reference() {
        index.object_with(object.words()[slot])
    } else {
        None
    }
}

// Returns the kind of a slot of an object, which must have it.
#[tactic(auto, unfolding(crate::specs::Trees::kind_at))]
fn kind_at(classes: &FirstClasses<'_>, object: &ShownObject<'_>, slot: usize) -> Kind
    requires known { IsKnown classes.now object.now.kind (length object.now.words) }
    requires within { slot < length object.now.words }
    ensures { result ≡ kind_at classes.now object.now slot }
{
    slot_kind(
        classes,
        object.kind(),
        object.words().len() as u64,
        slot as u64,
    )
}

// Appends the row of a slot of an object at a level, with the class of the object that it names, which must be there. Fails if an
// allocation fails.
#[tactic(auto, unfolding(crate::specs::Trees::tree_row))]
fn push_tree_row(
    text: &mut Vec<u8>,
    classes: &FirstClasses<'_>,
    object: &ShownObject<'_>,
    level: u64,
    slot: usize,
    named: Option<ShownObject<'_>>,
) -> Result<(), AllocError>
    requires known { IsKnown classes.now object.now.kind (length object.now.words) }
    requires there { IfSome named (λ o. IsClassThere classes.now o.kind) }
    requires within { slot < length object.now.words }
    ensures { Appends (tree_row classes.now level object.now slot named.entry)
        text.old.items text.new.items result }
{
    push_row(text, level)?;
    push_number(text, slot as u64)?;
    push_slot_name(text, classes, object.kind(), slot as u64)?;
    let kind = kind_at(classes, object, slot);
    push_kind_and_value(text, kind, object.words()[slot])?;
    push_class(text, classes, named)?;
    push_words(text, b"\n")
}

// Appends a space, and the name of a slot of an object of this kind, or its number in an array. The class must be there. Fails if
// an allocation fails.
#[tactic(auto, unfolding(crate::specs::Trees::and_slot_name))]
fn push_slot_name(
    text: &mut Vec<u8>,
    classes: &FirstClasses<'_>,
    kind: ObjKind,
    slot: u64,
) -> Result<(), AllocError>
    requires { IsClassThere classes.now kind }
    ensures { Appends (and_slot_name classes.now kind slot) text.old.items text.new.items result }
{
    match kind {
        ObjKind::Instance(class) => {
            push_words(text, b" ")?;
            push_words(text, slot_name(classes, class as u64, slot))
        }
        _ => push_number(text, slot),
    }
}

// Returns the name of a slot of the instances of a class, or no byte if they have no such slot.
fn slot_name<'a>(classes: &'a FirstClasses<'_>, class: ClassNo, slot: u64) -> &'a [u8]
    requires { class < length classes.now }
    ensures { result.now ≡ slot_name classes.now class slot }
{
    let mut here = Some(class);
    let mut left = slot;
    for depth in 0..classes.len() {
        let Some(above) = here else {
            return &[];
        };
        let own = classes.field_count(above);
        if left < own {
            return field_name(classes, above, left);
        }
        left -= own;
        here = classes.sup(above);
    }
    &[]
}

// Appends a space, a kind, and a word of it. Fails if an allocation fails.
fn push_kind_and_value(text: &mut Vec<u8>, kind: Kind, word: u64) -> Result<(), AllocError>
    ensures { Appends (and_kind_and_value kind word) text.old.items text.new.items result }
{
    push_words(text, b" ")?;
    push_words(text, kind.word().as_bytes())?;
    push_value(text, kind, word)
}

// Appends a space and the class of an object, which must be there, if there is an object. Fails if an allocation fails.
fn push_class(
    text: &mut Vec<u8>,
    classes: &FirstClasses<'_>,
    named: Option<ShownObject<'_>>,
) -> Result<(), AllocError>
    requires { IfSome named (λ o. IsClassThere classes.now o.kind) }
    ensures { Appends (and_class classes.now named.entry) text.old.items text.new.items result }
{
    let Some(object) = named else {
        return Ok(());
    };
    push_words(text, b" ")?;
    push_class_name(text, classes, object.kind())
}

// Returns the object that a slot of an object names, if there are levels below. The object must have the slot.
fn object_below<'a, V: View>(
    index: &'a ObjectIndex<'_, V>,
    classes: &FirstClasses<'_>,
    object: &ShownObject<'_>,
    slot: usize,
    below: u64,
) -> Option<ShownObject<'a>>
    requires classes { classes.now ≡ index.now.classes }
    requires known { IsKnown classes.now object.now.kind (length object.now.words) }
    requires within { slot < length object.now.words }
    ensures none { below ≡ 0 → result ≡ None }
    ensures named { 0 < below → result ≡ object_at_slot index.now object.now slot }
{
    if below == 0 {
        return None;
    }
    object_at_slot(index, classes, object, slot)
}
