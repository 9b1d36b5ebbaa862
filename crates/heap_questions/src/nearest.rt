//! The starts of paths from which the goal is nearest, by the distances of all objects.
ghost use Rattle.std.specs.Prelude.{◌≡◌, ◌+◌, ◌*◌, ◌<◌, [], Some, find, length, nat_lt, not, slice_get, take, IfOk, OnOk, ◌/◌, ◌%◌, ◌≤◌};
ghost use Rattle.std.specs.List.{list_any, position_or_len};
ghost use Rattle.heap_questions.specs.Distances.{AreInOrder, AreNearest, IsNamedBy, distance_by, with_start};
ghost use Rattle.heap_questions.specs.PathsApart.{route_of};
ghost use Rattle.heap_questions.specs.Search.{AreNodes, slot_span};
ghost use Rattle.heap_questions.specs.Starts.{starts_by, with_starts};

use crate::distances::{FAR, distance_along};
use crate::nodes::NodeList;
use crate::objects::shown_with;
use crate::paths::Path;
use crate::search::SLOT_SPAN;
use crate::starts::{is_start_used, start_number};
use hprof_text::{ShownObject, View};
use std::alloc::{AllocError, Global};

// A start of paths: its number, the id of what it names, and how far that is from the goal.
#[derive(Clone, Copy)]
pub(crate) struct Start {
    pub(crate) number: u32,
    pub(crate) id: u64,
    pub(crate) distance: u32,
}

// Returns the `most` starts that name what is nearest, of those as near the first, in this order, or as many as name what isn't
// far. The nodes must be the view's. Fails if an allocation fails. Reads each object once that a register names.
pub(crate) fn nearest_starts<V: View>(
    alloc: Global,
    view: &V,
    nodes: &NodeList,
    table: &[u32],
    most: usize,
) -> Result<Vec<Start>, AllocError>
    requires { AreNodes (V.image view.now) (V.places view.now) nodes.now }
    ensures { let registers = (with_starts (V.image view.now) []).registers in IfOk result
        (λ starts. AreNearest (distance_by nodes.now table.now) registers (length registers) most
        starts.items) }
{
    // Its contract says that what the view shows is within the limits of a dump.
    let _classes = view.classes();
    let registers = view.registers();
    let mut starts = Vec::new(alloc);
    for r in 0..registers.len() {
        add_register(view, nodes, table, most, r, registers[r], &mut starts)?;
    }
    Ok(starts)
}

// Adds the starts at a register, which holds this id, to the nearest of those before. The nodes must be the view's.
fn add_register<V: View>(
    view: &V,
    nodes: &NodeList,
    table: &[u32],
    most: usize,
    register: usize,
    id: u64,
    starts: &mut Vec<Start>,
) -> Result<(), AllocError>
    requires nodes { AreNodes (V.image view.now) (V.places view.now) nodes.now }
    requires names { slice_get (V.image view.now).registers register ≡ Some id }
    requires nearest { AreNearest (distance_by nodes.now table.now)
        (with_starts (V.image view.now) []).registers (register * slot_span) most
        starts.old.items }
    ensures { OnOk result (AreNearest (distance_by nodes.now table.now)
        (with_starts (V.image view.now) []).registers ((register + 1) * slot_span) most
        starts.new.items) }
{
    match shown_with(view, nodes, id) {
        Some(object) => add_slots(view, nodes, table, most, register, &object, starts),
        None => Ok(()),
    }
}

// Adds the starts by the slots of the object that a register names. The nodes must be the view's.
fn add_slots<V: View>(
    view: &V,
    nodes: &NodeList,
    table: &[u32],
    most: usize,
    register: usize,
    object: &ShownObject<'_>,
    starts: &mut Vec<Start>,
) -> Result<(), AllocError>
    requires nodes { AreNodes (V.image view.now) (V.places view.now) nodes.now }
    requires named { IsNamedBy (V.image view.now) register object.now }
    requires nearest { AreNearest (distance_by nodes.now table.now)
        (with_starts (V.image view.now) []).registers (register * slot_span) most
        starts.old.items }
    ensures { OnOk result (AreNearest (distance_by nodes.now table.now)
        (with_starts (V.image view.now) []).registers ((register + 1) * slot_span) most
        starts.new.items) }
{
    // Its contract says that what the view shows is within the limits of a dump.
    let _classes = view.classes();
    for slot in 0..object.words().len() {
        add_slot(view, nodes, table, most, register, object, slot, starts)?;
    }
    Ok(())
}

// Adds the start by a slot of the object that a register names. The nodes must be the view's.
fn add_slot<V: View>(
    view: &V,
    nodes: &NodeList,
    table: &[u32],
    most: usize,
    register: usize,
    object: &ShownObject<'_>,
    slot: usize,
    starts: &mut Vec<Start>,
) -> Result<(), AllocError>
    requires nodes { AreNodes (V.image view.now) (V.places view.now) nodes.now }
    requires named { IsNamedBy (V.image view.now) register object.now }
    requires slot { slot < length object.now.words }
    requires nearest { AreNearest (distance_by nodes.now table.now)
        (with_starts (V.image view.now) []).registers (register * slot_span + slot) most
        starts.old.items }
    ensures { OnOk result (AreNearest (distance_by nodes.now table.now)
        (with_starts (V.image view.now) []).registers (register * slot_span + slot + 1) most
        starts.new.items) }
{
    let classes = view.classes();
    let distance = distance_along(&classes, object, nodes, table, slot);
    if distance == FAR {
        return Ok(());
    }
    let number = start_number(register, slot);
    let id = object.words()[slot];
    place(
        starts,
        most,
        Start {
            number,
            id,
            distance,
        },
    )
}

// Puts a start before the first that is farther, and keeps `most`. They must be in order. Fails if an allocation fails.
fn place(starts: &mut Vec<Start>, most: usize, start: Start) -> Result<(), AllocError>
    requires { AreInOrder starts.old.items }
    ensures { OnOk result (starts.new.items ≡ take most (with_start start starts.old.items)) }
{
    let at = first_farther(starts.as_slice(), start.distance);
    starts.insert(at, start)?;
    starts.truncate(most);
    Ok(())
}

// Returns the place of the first start that is farther than this, or the number of starts if none is. They must be in order.
fn first_farther(starts: &[Start], distance: u32) -> usize
    requires { AreInOrder starts.now }
    ensures within { result ≤ length starts.now }
    ensures place { result ≡ position_or_len (λ b. nat_lt distance b.distance) starts.now }
{
    starts.partition_point(|start| start.distance <= distance)
}

// Returns the first start by which none of these paths begins, or None if each has one.
pub(crate) fn first_unused(starts: &[Start], paths: &[Path]) -> Option<Start>
    ensures { result ≡ find
        (λ b. not (list_any (λ p. starts_by (b.number / slot_span) (b.number % slot_span)
        (route_of p)) paths.now)) starts.now }
{
    for place in 0..starts.len() {
        let start = starts[place];
        if !is_used(start, paths) {
            return Some(start);
        }
    }
    None
}

// Tells whether one of these paths begins by a start.
fn is_used(start: Start, paths: &[Path]) -> bool
    ensures { result ≡ list_any
        (λ p. starts_by (start.number / slot_span) (start.number % slot_span) (route_of p))
        paths.now }
{
    is_start_used(
        paths,
        (start.number / SLOT_SPAN) as u64,
        (start.number % SLOT_SPAN) as u64,
    )
}
