//! The answers of `dominators` and `dominator`.
ghost use Rattle.std.specs.Prelude.{◌≡◌, All, flat_map};
ghost use Rattle.hprof_text.specs.Image.{IsDumpable};
ghost use Rattle.question_words.specs.Appends.{Appends, ReturnsText};
ghost use Rattle.question_text.specs.DominatorRows.{IsDominatedText, IsDominatorText, IsDominatorsText, IsTopThere, above_text, holder_text, top_text, tops_text, up_text};
ghost use Rattle.question_words.specs.Moments.{IsToldOf, told_text};
ghost use Rattle.question_words.specs.Names.{IsClassThere};

use heap_class::{FirstClasses, ObjKind, Refusal};
use heap_dominators::{TopObject, dominated, dominators, dominators_up};
use heap_questions::{ObjectIndex, object_with};
use hprof_text::View;
use question_words::{Unanswered, push_class_name, push_count, push_id, push_number, push_words};
use std::alloc::{AllocError, Global};

// Returns the answer of `dominators` about a view: of the first rows, if there is a number, and else of all. Fails with NoMemory
// if an allocation fails. Reads each object a few times.
pub(crate) fn dominators_answer<V: View>(
    alloc: Global,
    view: &V,
    most: Option<u64>,
) -> Result<Vec<u8>, Refusal>
    ensures { ReturnsText (IsDominatorsText most (V.ids view.now) (V.image view.now)) result }
{
    let tops = dominators(alloc, view, most)?;
    let classes = view.classes();
    top_lines(alloc, &classes, tops.as_slice())
}

// Returns the lines of objects with what each dominates, whose classes must be there, and how many they are. Fails with NoMemory.
fn top_lines(
    alloc: Global,
    classes: &FirstClasses<'_>,
    tops: &[TopObject],
) -> Result<Vec<u8>, Refusal>
    requires { All (IsTopThere classes.now) tops.now }
    ensures { ReturnsText (λ text. text ≡ tops_text classes.now tops.now) result }
{
    let mut text = Vec::new(alloc);
    push_tops(&mut text, classes, tops)?;
    push_count(&mut text, tops.len() as u64)?;
    Ok(text)
}

// Appends the lines of objects with what each dominates, whose classes must be there. Fails if an allocation fails.
fn push_tops(
    text: &mut Vec<u8>,
    classes: &FirstClasses<'_>,
    tops: &[TopObject],
) -> Result<(), AllocError>
    requires { All (IsTopThere classes.now) tops.now }
    ensures { Appends (flat_map (top_text classes.now) tops.now)
        text.old.items text.new.items result }
{
    for i in 0..tops.len() {
        push_top(text, classes, tops[i])?;
    }
    Ok(())
}

// Appends the line of an object with what it dominates, whose class must be there. Fails if an allocation fails.
#[tactic(auto, unfolding(crate::specs::DominatorRows::top_text))]
fn push_top(
    text: &mut Vec<u8>,
    classes: &FirstClasses<'_>,
    top: TopObject,
) -> Result<(), AllocError>
    requires { IsTopThere classes.now top }
    ensures { Appends (top_text classes.now top) text.old.items text.new.items result }
{
    push_words(text, b"row")?;
    push_id(text, top.id)?;
    push_number(text, top.objects)?;
    push_number(text, top.bytes)?;
    push_words(text, b" ")?;
    push_class_name(text, classes, top.kind)?;
    push_words(text, b"\n")
}

// Returns the answer of `dominators` and an id about a view: of the first rows, if there is a number, and else of all. Fails with
// NoObject if the id names no object, with Unreachable if no register reaches it, and with NoMemory if an allocation fails. Reads
// each object a few times.
pub(crate) fn dominated_answer<V: View>(
    alloc: Global,
    view: &V,
    id: u64,
    most: Option<u64>,
) -> Result<Vec<u8>, Unanswered>
    ensures { IsToldOf (IsDominatedText id most (V.ids view.now)) (V.image view.now)
        (told_text result) }
{
    if object_with(view, id).is_none() {
        return Err(Unanswered::NoObject);
    }
    let classes = view.classes();
    let Some(tops) = dominated(alloc, view, id, most)? else {
        return Err(Unanswered::Unreachable);
    };
    let text = top_lines(alloc, &classes, tops.as_slice())?;
    Ok(text)
}

// Returns the answer of `dominator` about a view. Fails with NoObject if the id names no object, with Unreachable if no register
// reaches it, and with NoMemory if an allocation fails. Reads each object a few times.
pub(crate) fn dominator_answer<V: View>(
    alloc: Global,
    view: &V,
    id: u64,
) -> Result<Vec<u8>, Unanswered>
    ensures { IsToldOf (IsDominatorText id) (V.image view.now) (told_text result) }
{
    if object_with(view, id).is_none() {
        return Err(Unanswered::NoObject);
    }
    match dominators_up(alloc, view, id)? {
        Some(up) => Ok(up_lines(alloc, view, up.as_slice())?),
        None => Err(Unanswered::Unreachable),
    }
}

// Returns the lines of the objects with these ids, and how many they are. Fails with NoMemory.
fn up_lines<V: View>(alloc: Global, view: &V, up: &[u64]) -> Result<Vec<u8>, Refusal>
    ensures { ReturnsText (λ text. text ≡ up_text (V.image view.now) up.now) result }
{
    let classes = view.classes();
    let index = ObjectIndex::new(alloc, view)?;
    let mut text = Vec::new(alloc);
    push_up(&mut text, &index, &classes, up)?;
    push_count(&mut text, up.len() as u64)?;
    Ok(text)
}

// Appends the lines of the objects with these ids. Fails if an allocation fails.
fn push_up<V: View>(
    text: &mut Vec<u8>,
    index: &ObjectIndex<'_, V>,
    classes: &FirstClasses<'_>,
    up: &[u64],
) -> Result<(), AllocError>
    requires limits { IsDumpable index.now }
    requires classes { classes.now ≡ index.now.classes }
    ensures { Appends (flat_map (above_text index.now) up.now)
        text.old.items text.new.items result }
{
    for i in 0..up.len() {
        push_above(text, index, classes, up[i])?;
    }
    Ok(())
}

// Appends the line of the object with this id. Fails if an allocation fails.
fn push_above<V: View>(
    text: &mut Vec<u8>,
    index: &ObjectIndex<'_, V>,
    classes: &FirstClasses<'_>,
    id: u64,
) -> Result<(), AllocError>
    requires limits { IsDumpable index.now }
    requires classes { classes.now ≡ index.now.classes }
    ensures { Appends (above_text index.now id) text.old.items text.new.items result }
{
    match index.object_with(id) {
        Some(object) => push_holder(text, classes, id, object.kind()),
        None => Ok(()),
    }
}

// Appends the line of an object that dominates another, whose class must be there. Fails if an allocation fails.
#[tactic(auto, unfolding(crate::specs::DominatorRows::holder_text))]
fn push_holder(
    text: &mut Vec<u8>,
    classes: &FirstClasses<'_>,
    id: u64,
    kind: ObjKind,
) -> Result<(), AllocError>
    requires { IsClassThere classes.now kind }
    ensures { Appends (holder_text classes.now id kind) text.old.items text.new.items result }
{
    push_words(text, b"row")?;
    push_id(text, id)?;
    push_words(text, b" ")?;
    push_class_name(text, classes, kind)?;
    push_words(text, b"\n")
}
