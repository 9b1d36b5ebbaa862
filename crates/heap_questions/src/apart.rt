//! Why an object is alive, in several ways: paths of which no two start alike.
ghost use Rattle.std.specs.Prelude.{◌≡◌, ◌∷◌, ◌/◌, ◌%◌, ◌<◌, ◌&&◌, [], ℕ, All, length, map, not, reverse, slice_get, Some, IfSome, IfNone, IfOk, IfErr, IsTrue};
ghost use Rattle.std.specs.List.{list_any};
ghost use Rattle.heap_class.specs.declared.Refusal.TheVariants.{NoMemory};
ghost use Rattle.heap_questions.specs.Distances.{AreDistances, AreNearestFor, distance_by};
ghost use Rattle.heap_questions.specs.Graph.{HasId, IsFirstPath, IsShortest};
ghost use Rattle.hprof_text.specs.Image.{Image};
ghost use Rattle.heap_questions.specs.Hops.{TellsIds};
ghost use Rattle.heap_questions.specs.PathsApart.{AreFirstPaths, IsNextPath, NoneIsLeft, Route, route_of};
ghost use Rattle.heap_questions.specs.Search.{AreNodes, HasSearchedFor, node_with, slot_span};
ghost use Rattle.heap_questions.specs.Starts.{IsFirstFree, NoneIsFree, first_hop, starts_at, with_starts};

use crate::back::distances_back;
use crate::distances::are_distances;
use crate::nearest::{Start, first_unused, nearest_starts};
use crate::nodes::NodeList;
use crate::paths::{Hop, Path, WayBack, place_in, way_back};
use crate::search::{Reach, SLOT_SPAN, nothing_found, search_on};
use crate::starts::find_starts;
use crate::ways::add_way;
use heap_class::Refusal;
use hprof_text::View;
use std::alloc::{AllocError, Global};

/// States that of paths that start apart the first is a shortest one, and of these the first by register, then by slot.
pub fn first_of_paths_is_path()
    ensures shortest { (image : Image) (x : ℕ) (p : Route) → IsNextPath image [] x p
        → IsShortest image p.slots x }
    ensures first { (image : Image) (x : ℕ) (p : Route) → IsNextPath image [] x p
        → IsFirstPath image p.register p.slots x }
{}

/// Returns `most` paths to the object with this id, of which no two start at the same register by the same slot, or as many as
/// there are: each is the shortest that starts like none of those before it, of all such the first by register, then by slot.
/// Fails with NoMemory. Reads each object three times, those that registers name once more, and for each path the objects along it.
pub fn paths_apart<V: View>(
    alloc: Global,
    view: &V,
    id: u64,
    most: usize,
) -> Result<Vec<Path>, Refusal>
    ensures paths { IfOk result
        (λ paths. AreFirstPaths (V.image view.now) most id (map route_of paths.items)) }
    ensures ids { IfOk result (λ paths. All (TellsIds (V.image view.now)) paths.items) }
    ensures refused { IfErr result (λ e. e ≡ NoMemory) }
{
    let nodes = NodeList::new(alloc, view)?;
    let table = find_distances(alloc, view, &nodes, id)?;
    let known = table.as_slice();
    let exact = are_told(view, &nodes, known, id);
    let starts = nearest_starts(alloc, view, &nodes, known, most)?;
    let near = starts.as_slice();
    let mut paths = Vec::new(alloc);
    while paths.len() < most {
        match next_path(
            alloc,
            view,
            &nodes,
            known,
            exact,
            near,
            id,
            paths.as_slice(),
        )? {
            Some(path) => paths.push(path)?,
            None => return Ok(paths),
        }
    }
    Ok(paths)
}

// Returns for each node how far its object may be from the one with this id, if there is one. The nodes must be the view's. Fails
// with NoMemory.
fn find_distances<V: View>(
    alloc: Global,
    view: &V,
    nodes: &NodeList,
    id: u64,
) -> Result<Vec<u32>, Refusal>
    requires { AreNodes (V.image view.now) (V.places view.now) nodes.now }
    ensures refused { IfErr result (λ e. e ≡ NoMemory) }
{
    match nodes.find(id) {
        Some(goal) => distances_back(alloc, view, nodes, goal),
        None => Ok(Vec::new(alloc)),
    }
}

// Tells whether a table has the distance of each node's object from the one with this id, which must be there for that. The nodes
// must be the view's.
fn are_told<V: View>(view: &V, nodes: &NodeList, table: &[u32], id: u64) -> bool
    requires { AreNodes (V.image view.now) (V.places view.now) nodes.now }
    ensures { IsTrue result
        → AreDistances (V.image view.now) (distance_by nodes.now table.now) id }
{
    match nodes.find(id) {
        Some(_) => are_distances(view, nodes, table, id),
        None => false,
    }
}

// Returns the first path to the object with this id that starts like none of these paths. The nodes must be the view's. Fails with
// NoMemory.
fn next_path<V: View>(
    alloc: Global,
    view: &V,
    nodes: &NodeList,
    table: &[u32],
    exact: bool,
    near: &[Start],
    id: u64,
    paths: &[Path],
) -> Result<Option<Path>, Refusal>
    requires nodes { AreNodes (V.image view.now) (V.places view.now) nodes.now }
    requires exact { IsTrue exact
        → AreDistances (V.image view.now) (distance_by nodes.now table.now) id }
    requires near { AreNearestFor (distance_by nodes.now table.now)
        (with_starts (V.image view.now) []).registers (length paths.now) near.now }
    ensures next { IfOk result (λ found. IfSome found (λ p.
        IsNextPath (V.image view.now) (map route_of paths.now) id (route_of p))) }
    ensures ids { IfOk result (λ found. IfSome found (TellsIds (V.image view.now))) }
    ensures none { IfOk result (λ found. IfNone found
        (NoneIsLeft (V.image view.now) (map route_of paths.now) id)) }
    ensures refused { IfErr result (λ e. e ≡ NoMemory) }
{
    match nodes.find(id) {
        Some(goal) => next_path_to(alloc, view, nodes, table, exact, near, id, goal, paths),
        None => Ok(None),
    }
}

// Returns the same path to the object with this id, which is that of a node. The nodes must be the view's. Fails with NoMemory.
fn next_path_to<V: View>(
    alloc: Global,
    view: &V,
    nodes: &NodeList,
    table: &[u32],
    exact: bool,
    near: &[Start],
    id: u64,
    goal: usize,
    paths: &[Path],
) -> Result<Option<Path>, Refusal>
    requires nodes { AreNodes (V.image view.now) (V.places view.now) nodes.now }
    requires goal { node_with nodes.now id ≡ Some goal }
    requires exact { IsTrue exact
        → AreDistances (V.image view.now) (distance_by nodes.now table.now) id }
    requires near { AreNearestFor (distance_by nodes.now table.now)
        (with_starts (V.image view.now) []).registers (length paths.now) near.now }
    ensures next { IfOk result (λ found. IfSome found (λ p.
        IsNextPath (V.image view.now) (map route_of paths.now) id (route_of p))) }
    ensures ids { IfOk result (λ found. IfSome found (TellsIds (V.image view.now))) }
    ensures none { IfOk result (λ found. IfNone found
        (NoneIsLeft (V.image view.now) (map route_of paths.now) id)) }
    ensures refused { IfErr result (λ e. e ≡ NoMemory) }
{
    match free_register(view.registers(), id, paths) {
        Some(register) => {
            let hops = Vec::new(alloc);
            Ok(Some(Path {
                register,
                start: id,
                hops,
            }))
        }
        None if exact => path_by_distance(alloc, view, nodes, table, near, id, paths),
        None => path_by_slot(alloc, view, nodes, id, goal, paths),
    }
}

// Returns the first register that names the object with this id and at which none of these paths starts that have no slots.
fn free_register(registers: &[u64], id: u64, paths: &[Path]) -> Option<u64>
    ensures some { IfSome result (λ r. IsFirstFree registers.now (map route_of paths.now) id r) }
    ensures none { IfNone result (NoneIsFree registers.now (map route_of paths.now) id) }
{
    for r in 0..registers.len() {
        if is_free(paths, r as u64, registers[r] == id) {
            return Some(r as u64);
        }
    }
    None
}

// Tells whether a register names an object, and none of these paths is this register alone.
fn is_free(paths: &[Path], register: u64, names: bool) -> bool
    ensures { result
        ≡ (names && not (list_any (λ p. starts_at register (route_of p)) paths.now)) }
{
    names && !is_register_used(paths, register)
}

// Tells whether one of these paths is this register alone.
fn is_register_used(paths: &[Path], register: u64) -> bool
    ensures { result ≡ list_any (λ p. starts_at register (route_of p)) paths.now }
{
    paths.iter().any(|path| is_register_alone(path, register))
}

// Tells whether a path is this register alone.
#[tactic(auto, using(crate::proofs::Hops::as_many_slots))]
fn is_register_alone(path: &Path, register: u64) -> bool
    ensures { result ≡ starts_at register (route_of path.now) }
{
    path.register == register && path.hops.is_empty()
}

// Returns the first path to the object with this id that starts like none of these paths, by the distances of all objects from it.
// At each register that names it one of the paths must start that has no slots. The nodes must be the view's. Fails with NoMemory.
// Reads the objects along the path.
fn path_by_distance<V: View>(
    alloc: Global,
    view: &V,
    nodes: &NodeList,
    table: &[u32],
    near: &[Start],
    id: u64,
    paths: &[Path],
) -> Result<Option<Path>, Refusal>
    requires nodes { AreNodes (V.image view.now) (V.places view.now) nodes.now }
    requires near { AreNearestFor (distance_by nodes.now table.now)
        (with_starts (V.image view.now) []).registers (length paths.now) near.now }
    requires distances { AreDistances (V.image view.now) (distance_by nodes.now table.now) id }
    requires there { HasId (V.image view.now) id }
    requires used { NoneIsFree (V.image view.now).registers (map route_of paths.now) id }
    ensures next { IfOk result (λ found. IfSome found (λ p.
        IsNextPath (V.image view.now) (map route_of paths.now) id (route_of p))) }
    ensures ids { IfOk result (λ found. IfSome found (TellsIds (V.image view.now))) }
    ensures none { IfOk result (λ found. IfNone found
        (NoneIsLeft (V.image view.now) (map route_of paths.now) id)) }
    ensures refused { IfErr result (λ e. e ≡ NoMemory) }
{
    // Its contract says that what the view shows is within the limits of a dump.
    let _classes = view.classes();
    match first_unused(near, paths) {
        Some(start) => {
            let mut hops = Vec::new(alloc);
            hops.push(hop_of(start))?;
            add_way(view, nodes, table, start.id, id, &mut hops)?;
            Ok(Some(path_at(view.registers(), start, hops)))
        }
        None => Ok(None),
    }
}

// Returns the step that a start is.
fn hop_of(start: Start) -> Hop
    ensures { result ≡ first_hop start.number start.id }
{
    Hop {
        slot: (start.number % SLOT_SPAN) as u64,
        to: start.id,
    }
}

// Returns the path with these steps from the register of a start, which must be one of these.
fn path_at(registers: &[u64], start: Start, hops: Vec<Hop>) -> Path
    requires { start.number / slot_span < length registers.now }
    ensures register { result.register ≡ start.number / slot_span }
    ensures start { slice_get registers.now result.register ≡ Some result.start }
    ensures hops { result.hops.items ≡ hops.items }
{
    let register = (start.number / SLOT_SPAN) as u64;
    let start = registers[register as usize];
    Path {
        register,
        start,
        hops,
    }
}

// Returns the first path to the object with this id, which is that of a node, that starts like none of these paths. At each
// register that names it one of them must start that has no slots. The nodes must be the view's. Fails with NoMemory.
fn path_by_slot<V: View>(
    alloc: Global,
    view: &V,
    nodes: &NodeList,
    id: u64,
    goal: usize,
    paths: &[Path],
) -> Result<Option<Path>, Refusal>
    requires nodes { AreNodes (V.image view.now) (V.places view.now) nodes.now }
    requires goal { node_with nodes.now id ≡ Some goal }
    requires used { NoneIsFree (V.image view.now).registers (map route_of paths.now) id }
    ensures next { IfOk result (λ found. IfSome found (λ p.
        IsNextPath (V.image view.now) (map route_of paths.now) id (route_of p))) }
    ensures ids { IfOk result (λ found. IfSome found (TellsIds (V.image view.now))) }
    ensures none { IfOk result (λ found. IfNone found
        (NoneIsLeft (V.image view.now) (map route_of paths.now) id)) }
    ensures refused { IfErr result (λ e. e ≡ NoMemory) }
{
    // Its contract says that what the view shows is within the limits of a dump.
    let _classes = view.classes();
    let reach = search_starts(alloc, view, nodes, paths, goal)?;
    let queue = reach.queue.as_slice();
    match place_in(queue, goal) {
        Some(index) => {
            let way = way_back(alloc, view, nodes, queue, index)?;
            let path = path_from_start(view.registers(), way)?;
            Ok(Some(path))
        }
        None => Ok(None),
    }
}

// Finds what is reached by the starts of none of these paths, until a node was found that is the goal. The nodes must be the
// view's. Fails with NoMemory. Reads each object at most twice, and once more for each register that names it.
fn search_starts<V: View>(
    alloc: Global,
    view: &V,
    nodes: &NodeList,
    paths: &[Path],
    goal: usize,
) -> Result<Reach, Refusal>
    requires { AreNodes (V.image view.now) (V.places view.now) nodes.now }
    ensures found { IfOk result (λ r. HasSearchedFor
        (with_starts (V.image view.now) (map route_of paths.now)) nodes.now r.queue.items goal) }
    ensures refused { IfErr result (λ e. e ≡ NoMemory) }
{
    // Its contract says that what the view shows is within the limits of a dump.
    let _classes = view.classes();
    let mut reach = nothing_found(alloc, nodes)?;
    find_starts(view, nodes, paths, &mut reach)?;
    search_on(view, nodes, &mut reach, Some(goal))?;
    Ok(reach)
}

// Returns the path that a way leads back to a start, whose register must be one of these. Fails if an allocation fails.
fn path_from_start(registers: &[u64], way: WayBack) -> Result<Path, AllocError>
    requires { way.register / slot_span < length registers.now }
    ensures register { IfOk result (λ p. p.register ≡ way.register / slot_span) }
    ensures start { IfOk result (λ p. slice_get registers.now p.register ≡ Some p.start) }
    ensures hops { IfOk result
        (λ p. p.hops.items ≡ first_hop way.register way.start ∷ reverse way.hops.items) }
{
    let mut hops = way.hops;
    let slot = (way.register % SLOT_SPAN) as u64;
    let to = way.start;
    hops.push(Hop { slot, to })?;
    hops.reverse();
    let register = (way.register / SLOT_SPAN) as u64;
    let start = registers[register as usize];
    Ok(Path {
        register,
        start,
        hops,
    })
}
