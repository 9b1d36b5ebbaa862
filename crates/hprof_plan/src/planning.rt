//! The classes of a session: those of the dump, those of static fields, and those of the arrays of roots.
ghost use Rattle.std.specs.Prelude.{◌≡◌, ◌≤◌, ◌<◌, nat_eq, IfOk, IfSome};
ghost use Rattle.heap_class.specs.Limits.{AreClassLimits};
ghost use Rattle.indexmap.specs.IndexMap.{index_of, index_map_len};
ghost use Rattle.hprof_plan.specs.Plans.{IsPlan};

use crate::define::Defined;
use crate::dump::Found;
use crate::dump_classes::{Planned, plan_dump};
use crate::root_classes::plan_roots;
use crate::static_classes::plan_statics;
use heap_class::{ClassLimits, Classes, Kind};
use hprof_reader::StaticField;
use indexmap::IndexMap;
use session_lines::Lines;
use std::alloc::{AllocError, Global};

/// The static fields of a class that has an object of its own for them.
#[derive(Drop)]
pub struct Statics<'a> {
    /// The id of the class.
    pub id: u64,
    /// Its first static fields, at most 64. One of them names an object of the dump.
    pub fields: Vec<StaticField<'a>>,
}

/// The classes of a session, and the lines that define them. The first are classes of the dump. Then there is a class for the
/// static fields of each class that has an object for these, then the array class `roots`, and an array class for each kind of
/// roots.
#[derive(Drop)]
pub struct Plan<'a> {
    /// The classes.
    pub classes: Classes,
    /// The lines that define them.
    pub lines: Lines,
    /// The classes of the dump that have the first numbers, by their ids: for each the kinds of its own fields, in the order of
    /// its record, up to the first kind that doesn't exist. The first of these fields are in the session.
    pub kinds: IndexMap<u64, Vec<Kind>>,
    /// The static fields of the classes that have an object for them.
    pub statics: Vec<Statics<'a>>,
    /// The number of the class `roots`.
    pub roots: u64,
    /// The most elements of an array.
    pub elements: u64,
}

/// Plans the classes of the session of a dump, for a heap with these limits whose arrays have at most `elements` elements. Fails if
/// an allocation fails.
pub fn plan_classes<'a>(
    alloc: Global,
    limits: ClassLimits,
    elements: u64,
    found: &Found<'a>,
) -> Result<Plan<'a>, AllocError>
    requires limits { AreClassLimits limits }
    requires long { 22 ≤ limits.name_bytes }
    requires room { 10 ≤ limits.classes }
    ensures { IfOk result (IsPlan limits elements found.now) }
{
    let room = limits.classes - 10;
    let planned = plan_dump(alloc, limits, room, found)?;
    let Planned { defined, kinds } = planned;
    let mut defined = defined;
    let statics = plan_statics(alloc, limits, room, found, &mut defined)?;
    let roots = defined.classes.len();
    plan_roots(alloc, limits, &mut defined)?;
    let Defined {
        classes,
        names: _names,
        lines,
    } = defined;
    Ok(Plan {
        classes,
        lines,
        kinds,
        statics,
        roots,
        elements,
    })
}

impl<'a> Plan<'a> {
    /// Returns the number of the class of the dump with this id, if it has one.
    pub fn number(&self, id: u64) -> Option<u64>
        ensures number { result ≡ index_of nat_eq self.now.kinds id }
        ensures within { IfSome result (λ k. k < index_map_len self.now.kinds) }
    {
        match self.kinds.get_index_of(&id) {
            Some(k) => Some(k as u64),
            None => None,
        }
    }
}
