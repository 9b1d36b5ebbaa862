//! The classes of the objects whose ids an answer has.
ghost use Rattle.std.specs.Prelude.{IsTrue};
ghost use Rattle.question_words.specs.Names.{IsClassThere};

use crate::columns::LINE_END;
use heap_class::{FirstClasses, ObjKind, Refusal};
use heap_questions::ObjectIndex;
use heap_trail::Machine;
use hprof_text::View;
use question_grammar::{Bookmarks, Extent, Question, chain_in, question_in};
use question_words::{At, id_of, moment_at, push_class_name, view_of};
use std::alloc::{AllocError, Global};

/// The names of the classes of objects, by their ids: in the state that a question is about, and in the older one if it is about
/// two.
#[derive(Drop)]
pub(crate) struct IdClasses {
    ids: Vec<u64>,
    names: Vec<NameSpan>,
    older_names: Vec<NameSpan>,
    text: Vec<u8>,
}

// Where a name begins and ends in a text. It is empty if no name is known.
#[derive(Clone, Copy)]
struct NameSpan {
    begin: usize,
    end: usize,
}

// The states in which a question looks at objects: one, or an older one, too.
#[derive(Clone, Copy)]
struct Moments {
    newer: At,
    older: Option<At>,
}

impl IdClasses {
    // Returns the classes of the objects whose ids the rows of an answer have, in these states. Fails with the refusal of a state,
    // or with NoMemory.
    fn of_rows(
        alloc: Global,
        machine: &Machine,
        moments: Moments,
        rows: &[u8],
    ) -> Result<IdClasses, Refusal> {
        let mut ids = ids_in(alloc, rows)?;
        ids.sort_unstable();
        ids.dedup();
        let mut text = Vec::new(alloc);
        let names = names_at(alloc, machine, moments.newer, ids.as_slice(), &mut text)?;
        let older_names = match moments.older {
            Some(at) => names_at(alloc, machine, at, ids.as_slice(), &mut text)?,
            None => Vec::new(alloc),
        };
        Ok(IdClasses {
            ids,
            names,
            older_names,
            text,
        })
    }

    /// Returns the name of the class of the object with this id, in the older state if `is_older` says so, or None if it isn't
    /// known.
    pub(crate) fn name_of(&self, id: u64, is_older: bool) -> Option<&[u8]> {
        let index = self.ids.as_slice().binary_search(&id).ok()?;
        let NameSpan { begin, end } = *self.names_in(is_older).get(index)?;
        if begin == end {
            return None;
        }
        self.text.as_slice().get(begin..end)
    }

    // Returns where the names in the older state stand, or in the other.
    fn names_in(&self, is_older: bool) -> &[NameSpan] {
        if is_older {
            self.older_names.as_slice()
        } else {
            self.names.as_slice()
        }
    }
}

// Appends the names of the classes of the objects of a state that have these ids, and returns where they stand. Fails with the
// refusal of that state, or with NoMemory.
fn names_at(
    alloc: Global,
    machine: &Machine,
    at: At,
    ids: &[u64],
    text: &mut Vec<u8>,
) -> Result<Vec<NameSpan>, Refusal> {
    let moment = moment_at(machine, at)?;
    let view = view_of(machine, &moment)?;
    names_seen(alloc, &view, ids, text)
}

// Appends the names of the classes of the objects of a view that have these ids, and returns where they stand. Fails with
// NoMemory.
fn names_seen<V: View>(
    alloc: Global,
    view: &V,
    ids: &[u64],
    text: &mut Vec<u8>,
) -> Result<Vec<NameSpan>, Refusal> {
    let classes = view.classes();
    let index = ObjectIndex::new(alloc, view)?;
    let mut names = Vec::new(alloc);
    for id in ids {
        let name = match index.object_with(*id) {
            Some(object) => add_name(text, &classes, object.kind())?,
            None => NameSpan { begin: 0, end: 0 },
        };
        names.push(name)?;
    }
    Ok(names)
}

// Appends the name of the class of an object of this kind, and returns where it stands. Fails if an allocation fails.
fn add_name(
    text: &mut Vec<u8>,
    classes: &FirstClasses<'_>,
    kind: ObjKind,
) -> Result<NameSpan, AllocError> {
    let begin = text.len();
    if has_class(classes, kind) {
        push_class_name(text, classes, kind)?;
    }
    let end = text.len();
    Ok(NameSpan { begin, end })
}

// Tells whether the class of an object of this kind is there.
fn has_class(classes: &FirstClasses<'_>, kind: ObjKind) -> bool
    ensures { IsTrue result → IsClassThere classes.now kind }
{
    match kind {
        ObjKind::Instance(class) | ObjKind::Array(class) => (class as u64) < classes.len(),
        ObjKind::Prim(_) => true,
    }
}

// Returns the ids that the rows of an answer have. Fails if an allocation fails.
fn ids_in(alloc: Global, rows: &[u8]) -> Result<Vec<u64>, AllocError> {
    let mut ids = Vec::new(alloc);
    for row in rows.split(|byte| *byte == LINE_END) {
        add_ids(&mut ids, row)?;
    }
    Ok(ids)
}

// Adds the ids that a row has. Fails if an allocation fails.
fn add_ids(ids: &mut Vec<u64>, row: &[u8]) -> Result<(), AllocError> {
    for word in row.split(|byte| *byte == b' ') {
        if let Some(id) = id_of(word) {
            ids.push(id)?;
        }
    }
    Ok(())
}

/// Returns the classes of the objects whose ids are in the rows that answer a line, in the states that it asks about. Returns None
/// if a person isn't shown them, or an allocation fails.
pub(crate) fn classes_asked(
    alloc: Global,
    machine: &Machine,
    bookmarks: &Bookmarks,
    line: &[u8],
    rows: &[u8],
) -> Option<IdClasses> {
    let moments = moments_asked(machine, bookmarks, line)?;
    IdClasses::of_rows(alloc, machine, moments, rows).ok()
}

// Returns the states in which a line looks at objects, if its rows have ids without classes that are of these states.
fn moments_asked(machine: &Machine, bookmarks: &Bookmarks, line: &[u8]) -> Option<Moments> {
    match question_in(bookmarks, machine.world(), line) {
        Some(question) => moments_of(question),
        None => moment_of_chain(bookmarks, line),
    }
}

// Returns the states in which a question looks at objects, if its rows have ids without classes that are of these states.
fn moments_of(question: Question) -> Option<Moments> {
    match question {
        Question::Show { at, .. }
        | Question::Path { at, .. }
        | Question::Paths { at, .. }
        | Question::Referrers { at, .. }
        | Question::Values { at, .. } => Some(one_moment(at)),
        Question::Diff { older, newer } => Some(Moments {
            newer,
            older: Some(older),
        }),
        _ => None,
    }
}

// Returns one state.
fn one_moment(at: At) -> Moments {
    Moments {
        newer: at,
        older: None,
    }
}

// Returns the state in which a line `show` follows fields, if its rows have no classes.
fn moment_of_chain(bookmarks: &Bookmarks, line: &[u8]) -> Option<Moments> {
    let chain = chain_in(bookmarks, line)?;
    match chain.extent {
        Extent::Slots(_) => Some(one_moment(chain.at)),
        Extent::Levels(_) => None,
    }
}
