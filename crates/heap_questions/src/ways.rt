//! Shortest ways to an object, by the distances of all.
ghost use Rattle.std.specs.Prelude.{◌≡◌, ◌==◌, ◌+◌, ◌<◌, length, IfErr, OnOk};
ghost use Rattle.heap_class.specs.declared.Refusal.TheVariants.{NoMemory};
ghost use Rattle.hprof_text.specs.Image.{IsKnown};
ghost use Rattle.heap_questions.specs.Distances.{AreDistances, GoesOnTo, IsFirstNearer, distance_by, far};
ghost use Rattle.heap_questions.specs.Graph.{named, slot_names};
ghost use Rattle.heap_questions.specs.Search.{AreNodes};

use crate::distances::{distance_along, distance_at};
use crate::nodes::NodeList;
use crate::objects::shown_with;
use crate::paths::Hop;
use heap_class::{FirstClasses, Refusal};
use hprof_text::{ShownObject, View};

// Adds the steps that lead from the object with the id `start` to the one with the id `goal` on a shortest way, the first of all by
// slot. The nodes must be the view's, and the table must have the distances of all objects from the goal. Fails with NoMemory.
// Reads each object on the way once.
pub(crate) fn add_way<V: View>(
    view: &V,
    nodes: &NodeList,
    table: &[u32],
    start: u64,
    goal: u64,
    hops: &mut Vec<Hop>,
) -> Result<(), Refusal>
    requires nodes { AreNodes (V.image view.now) (V.places view.now) nodes.now }
    requires distances { AreDistances (V.image view.now) (distance_by nodes.now table.now) goal }
    requires near { distance_by nodes.now table.now start < far }
    ensures way { OnOk result (GoesOnTo (V.image view.now) (distance_by nodes.now table.now)
        start goal hops.old.items hops.new.items) }
    ensures refused { IfErr result (λ e. e ≡ NoMemory) }
{
    let mut here = start;
    let mut left = distance_at(nodes, table, start);
    while left > 0 {
        match nearer(view, nodes, table, here, left) {
            Some(hop) => {
                hops.push(hop)?;
                here = hop.to;
                left -= 1;
            }
            None => return Ok(()),
        }
    }
    Ok(())
}

// Returns the first slot of the object with this id that leads to what is one step nearer than `left`. The nodes must be the
// view's.
fn nearer<V: View>(view: &V, nodes: &NodeList, table: &[u32], id: u64, left: u32) -> Option<Hop>
    requires nodes { AreNodes (V.image view.now) (V.places view.now) nodes.now }
    requires near { left < far }
    ensures { IsFirstNearer (distance_by nodes.now table.now) (named (V.image view.now) id)
        left result }
{
    let classes = view.classes();
    match shown_with(view, nodes, id) {
        Some(object) => nearer_along(&classes, &object, nodes, table, left),
        None => None,
    }
}

// Returns the first slot of an object, whose class must be there, that leads to what is one step nearer than `left`.
fn nearer_along(
    classes: &FirstClasses<'_>,
    object: &ShownObject<'_>,
    nodes: &NodeList,
    table: &[u32],
    left: u32,
) -> Option<Hop>
    requires known { IsKnown classes.now object.now.kind (length object.now.words) }
    requires near { left < far }
    ensures { IsFirstNearer (distance_by nodes.now table.now) (slot_names classes.now object.now)
        left result }
{
    let words = object.words();
    for slot in 0..words.len() {
        if is_nearer(distance_along(classes, object, nodes, table, slot), left) {
            return Some(Hop {
                slot: slot as u64,
                to: words[slot],
            });
        }
    }
    None
}

// Tells whether a distance is one step less than `left`.
fn is_nearer(distance: u32, left: u32) -> bool
    requires { left < far }
    ensures { result ≡ (distance + 1 == left) }
{
    distance < left && distance + 1 == left
}
