//! The answer of `path`.
ghost use Rattle.std.specs.Prelude.{◌≡◌};
ghost use Rattle.heap_questions.specs.Graph.{object_with};
ghost use Rattle.question_words.specs.Appends.{Appends, ReturnsText};
ghost use Rattle.question_words.specs.Moments.{IsToldOf, told_text};
ghost use Rattle.question_rows.specs.Paths.{IsPathText, hop_texts, path_rows, path_text, root_text, step_text, why_none};

use crate::referrers::push_register;
use heap_class::Refusal;
use heap_questions::{Hop, Path, object_with, shortest_path};
use hprof_text::View;
use question_words::{Unanswered, push_count, push_id, push_number, push_words};
use std::alloc::{AllocError, Global};

/// Returns the answer of `path` about a view. Fails with NoObject if the id names no object, with Unreachable if no register
/// reaches it, and with NoMemory if an allocation fails. Reads each object a few times, however long the path is.
#[tactic(auto, using(crate::proofs::PathTexts::path_told, crate::proofs::PathTexts::no_path_told))]
pub fn path_answer<V: View>(alloc: Global, view: &V, id: u64) -> Result<Vec<u8>, Unanswered>
    ensures { IsToldOf (IsPathText id) (V.image view.now) (told_text result) }
{
    match shortest_path(alloc, view, id)? {
        Some(path) => Ok(path_text(alloc, &path)?),
        None => Err(why_none(view, id)),
    }
}

// Returns the lines of a path. Fails with NoMemory.
fn path_text(alloc: Global, path: &Path) -> Result<Vec<u8>, Refusal>
    ensures { ReturnsText (λ text. text ≡ path_text path.now) result }
{
    let mut text = Vec::new(alloc);
    push_path(&mut text, path)?;
    push_count(&mut text, path.hops.len() as u64)?;
    Ok(text)
}

// Returns why no path leads to the object with this id: there is none, or no register reaches it.
pub(crate) fn why_none<V: View>(view: &V, id: u64) -> Unanswered
    ensures { result ≡ why_none (object_with (V.image view.now) id) }
{
    match object_with(view, id) {
        Some(_) => Unanswered::Unreachable,
        None => Unanswered::NoObject,
    }
}

// Appends the rows of a path. Fails if an allocation fails.
pub(crate) fn push_path(text: &mut Vec<u8>, path: &Path) -> Result<(), AllocError>
    ensures { Appends (path_rows path.now) text.old.items text.new.items result }
{
    push_root(text, path.register, path.start)?;
    push_hops(text, path.start, path.hops.as_slice())
}

// Appends the line of the register that a path begins with. Fails if an allocation fails.
#[tactic(auto, unfolding(crate::specs::Paths::root_text))]
fn push_root(text: &mut Vec<u8>, register: u64, id: u64) -> Result<(), AllocError>
    ensures { Appends (root_text register id) text.old.items text.new.items result }
{
    push_words(text, b"row")?;
    push_register(text, register)?;
    push_id(text, id)?;
    push_words(text, b"\n")
}

// Appends the lines of the steps of a path, of which the first goes on from an object. Fails if an allocation fails.
fn push_hops(text: &mut Vec<u8>, start: u64, hops: &[Hop]) -> Result<(), AllocError>
    ensures { Appends (hop_texts start hops.now) text.old.items text.new.items result }
{
    let mut here = start;
    for hop in hops {
        push_step(text, here, hop.slot, hop.to)?;
        here = hop.to;
    }
    Ok(())
}

// Appends the line of a slot that is followed from one object to another. Fails if an allocation fails.
#[tactic(auto, unfolding(crate::specs::Paths::step_text))]
fn push_step(text: &mut Vec<u8>, from: u64, slot: u64, to: u64) -> Result<(), AllocError>
    ensures { Appends (step_text from slot to) text.old.items text.new.items result }
{
    push_words(text, b"row")?;
    push_id(text, from)?;
    push_number(text, slot)?;
    push_id(text, to)?;
    push_words(text, b"\n")
}
