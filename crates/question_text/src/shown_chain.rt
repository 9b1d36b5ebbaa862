//! The answer of `show` along fields.
ghost use Rattle.std.specs.Prelude.{◌≡◌, ◌⊎◌, ◌<◌, length, Err};
ghost use Rattle.heap_class.specs.declared.Refusal.TheVariants.{NoMemory};
ghost use Rattle.heap_pins.specs.Pin.{pin_image};
ghost use Rattle.heap_questions.specs.Graph.{slot_refers};
ghost use Rattle.hprof_text.specs.Image.{IsDumpable, IsKnown};
ghost use Rattle.question_words.specs.declared.rows.Unanswered.{Unanswered};
ghost use Rattle.question_words.specs.Moments.{IsAnswerAbout, IsToldOf, image_at, told_text};
ghost use Rattle.question_rows.specs.Objects.{shows_mark};
ghost use Rattle.question_text.specs.ShownChains.{IsChainText, IsExtentText, end_of, reference_at, reference_behind, reference_by, slot_of_kind};

use heap_class::{FirstClasses, ObjKind, Refusal};
use heap_pins::PinView;
use heap_questions::ObjectIndex;
use heap_trail::Machine;
use hprof_text::{ShownObject, View};
use question_grammar::{Chain, Extent, Parts, slot_of};
use question_rows::{show_answer, shows_mark, tree_answer};
use question_words::{Unanswered, moment_at, view_of};
use session_grammar::number::number_of;
use std::alloc::Global;

// Returns the lines of `show` along fields, or the reason why there are none.
pub(crate) fn chain_lines(
    alloc: Global,
    machine: &Machine,
    chain: Chain<'_>,
) -> Result<Vec<u8>, Unanswered>
    ensures { IsAnswerAbout
        (IsChainText chain.entry (λ x. shows_mark chain.entry.at machine.now x))
        (image_at chain.entry.at machine.now) (told_text result) }
{
    let moment = moment_at(machine, chain.at)?;
    view_lines(alloc, machine, &view_of(machine, &moment)?, chain)
}

// Returns the lines about the state that a view of the machine shows.
fn view_lines(
    alloc: Global,
    machine: &Machine,
    view: &PinView<'_>,
    chain: Chain<'_>,
) -> Result<Vec<u8>, Unanswered>
    ensures { IsToldOf (IsChainText chain.entry (λ x. shows_mark chain.entry.at machine.now x))
        (pin_image view.now.pin view.now.state) (told_text result) }
{
    let Chain {
        at,
        id,
        fields,
        extent,
    } = chain;
    let id = end_of(alloc, view, id, fields)?;
    extent_lines(alloc, view, id, extent, shows_mark(machine, at, id))
}

// Returns the reference to which fields lead from an object of a view.
fn end_of<V: View>(alloc: Global, view: &V, id: u64, fields: Parts<'_>) -> Result<u64, Unanswered>
    ensures { (result ≡ end_of (V.image view.now) fields.entry id)
        ⊎ (result ≡ Err (Unanswered.Refused NoMemory)) }
{
    let classes = view.classes();
    let index = ObjectIndex::new(alloc, view)?;
    end_along(&index, &classes, id, fields)
}

// Returns the reference to which fields lead from an object.
fn end_along<V: View>(
    index: &ObjectIndex<'_, V>,
    classes: &FirstClasses<'_>,
    id: u64,
    mut fields: Parts<'_>,
) -> Result<u64, Unanswered>
    requires limits { IsDumpable index.now }
    requires classes { classes.now ≡ index.now.classes }
    ensures { result ≡ end_of index.now fields.entry id }
{
    let mut here = id;
    while let Some(word) = fields.next_part() {
        here = reference_behind(index, classes, here, word)?;
    }
    Ok(here)
}

// Returns what a field of the object with this id holds, which a word names.
fn reference_behind<V: View>(
    index: &ObjectIndex<'_, V>,
    classes: &FirstClasses<'_>,
    id: u64,
    word: &[u8],
) -> Result<u64, Unanswered>
    requires limits { IsDumpable index.now }
    requires classes { classes.now ≡ index.now.classes }
    ensures { result ≡ reference_behind index.now id word.now }
{
    match index.object_with(id) {
        Some(object) => reference_by(classes, &object, word),
        None => Err(Unanswered::NoObject),
    }
}

// Returns what a field of an object holds, which a word names. Fails with BadSlot if the object has no such field, and with
// WrongKind if it holds a value.
fn reference_by(
    classes: &FirstClasses<'_>,
    object: &ShownObject<'_>,
    word: &[u8],
) -> Result<u64, Unanswered>
    requires { IsKnown classes.now object.now.kind (length object.now.words) }
    ensures { result ≡ reference_by classes.now object.now word.now }
{
    match slot_of_kind(classes, object.kind(), word) {
        Some(slot) => reference_at(classes, object, slot),
        None => Err(Unanswered::Refused(Refusal::BadSlot)),
    }
}

// Returns the slot of an object of this kind that a word names, by its number or by the name of a field.
#[tactic(auto, unfolding(crate::specs::ShownChains::slot_of_kind))]
fn slot_of_kind(classes: &FirstClasses<'_>, kind: ObjKind, word: &[u8]) -> Option<u64>
    ensures { result ≡ slot_of_kind classes.now kind word.now }
{
    match kind {
        ObjKind::Instance(class) => slot_of(classes, class as u64, word),
        _ => number_of(word),
    }
}

// Returns what a slot of an object holds, if that is a reference.
#[tactic(auto, unfolding(crate::specs::ShownChains::reference_at))]
fn reference_at(
    classes: &FirstClasses<'_>,
    object: &ShownObject<'_>,
    slot: u64,
) -> Result<u64, Unanswered>
    requires { IsKnown classes.now object.now.kind (length object.now.words) }
    ensures { result ≡ reference_at classes.now object.now slot }
{
    let words = object.words();
    if slot >= words.len() as u64 {
        return Err(Unanswered::Refused(Refusal::BadSlot));
    }
    if slot_refers(classes, object.kind(), words.len() as u64, slot) {
        Ok(words[slot as usize])
    } else {
        Err(Unanswered::Refused(Refusal::WrongKind))
    }
}

// Tells whether a slot of an object of this kind, which has `words` words, holds a reference.
#[tactic(auto, unfolding(heap_questions::specs::Graph::slot_refers))]
fn slot_refers(classes: &FirstClasses<'_>, kind: ObjKind, words: u64, slot: u64) -> bool
    requires known { IsKnown classes.now kind words }
    requires within { slot < words }
    ensures { result ≡ slot_refers classes.now kind slot }
{
    match kind {
        ObjKind::Instance(class) => classes.slots(class as u64)[slot as usize].is_reference(),
        ObjKind::Array(_) => true,
        ObjKind::Prim(kind) => kind.is_reference(),
    }
}

// Returns the lines about an object of a view.
fn extent_lines(
    alloc: Global,
    view: &PinView<'_>,
    id: u64,
    extent: Extent,
    marked: bool,
) -> Result<Vec<u8>, Unanswered>
    ensures { IsToldOf (IsExtentText extent id marked) (pin_image view.now.pin view.now.state)
        (told_text result) }
{
    match extent {
        Extent::Slots(slots) => show_answer(alloc, view, id, slots, marked),
        Extent::Levels(levels) => tree_answer(alloc, view, id, levels, marked),
    }
}
