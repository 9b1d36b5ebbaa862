//! The answer of `paths`.
ghost use Rattle.std.specs.Prelude.{◌≡◌, flat_map};
ghost use Rattle.question_words.specs.Appends.{Appends, ReturnsText};
ghost use Rattle.question_words.specs.Moments.{IsToldOf, told_text};
ghost use Rattle.question_rows.specs.PathLists.{IsPathsText, list_text};
ghost use Rattle.question_rows.specs.Paths.{path_rows};

use crate::path::{push_path, why_none};
use heap_class::Refusal;
use heap_questions::{Path, paths_apart};
use hprof_text::View;
use question_words::{Unanswered, push_count};
use std::alloc::{AllocError, Global};

/// Returns the answer of `paths` about a view: up to `most` paths. Fails with NoObject if the id names no object, with Unreachable
/// if no register reaches it, and with NoMemory if an allocation fails. Reads each object a few times for each path.
#[tactic(auto, using(crate::proofs::ListedPaths::paths_told, crate::proofs::ListedPaths::no_paths_told))]
pub fn paths_answer<V: View>(
    alloc: Global,
    view: &V,
    id: u64,
    most: u64,
) -> Result<Vec<u8>, Unanswered>
    ensures { IsToldOf (IsPathsText id most) (V.image view.now) (told_text result) }
{
    let paths = paths_apart(alloc, view, id, most as usize)?;
    if paths.is_empty() {
        return Err(why_none(view, id));
    }
    Ok(list_text(alloc, paths.as_slice())?)
}

// Returns the rows of paths, and how many paths there are. Fails with NoMemory.
fn list_text(alloc: Global, paths: &[Path]) -> Result<Vec<u8>, Refusal>
    ensures { ReturnsText (λ text. text ≡ list_text paths.now) result }
{
    let mut text = Vec::new(alloc);
    push_paths(&mut text, paths)?;
    push_count(&mut text, paths.len() as u64)?;
    Ok(text)
}

// Appends the rows of paths. Fails if an allocation fails.
fn push_paths(text: &mut Vec<u8>, paths: &[Path]) -> Result<(), AllocError>
    ensures { Appends (flat_map path_rows paths.now) text.old.items text.new.items result }
{
    for path in paths {
        push_path(text, path)?;
    }
    Ok(())
}
