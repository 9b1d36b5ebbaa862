//! The objects of a view with their places, and how one is found by its id.
ghost use Rattle.std.specs.Prelude.{◌≡◌, ◌<◌, ◌≤◌, ◌+◌, ◌*◌, ◌++◌, List, length, map, Some, IsTrue, IfSome, IfOk, IfErr, OnOk, slice_get};
ghost use Rattle.heap_class.specs.declared.Refusal.TheVariants.{NoMemory};
ghost use Rattle.hprof_text.specs.Image.{object_limit};
ghost use Rattle.heap_questions.specs.declared.nodes.Node.{Node};
ghost use Rattle.heap_questions.specs.Search.{AreSmallerBefore, AreFrom, AreNodes, AreRising, hint_limit, node_with};
ghost use Rattle.heap_questions.specs.Hints.{AreTold, AreToldTo, IsToldAt, id_after, id_steps, node_told, node_told_by};

use heap_class::{ObjRef, Refusal};
use hprof_text::View;
use std::alloc::{AllocError, Global};
use std::marker::Model;

// The ids of two objects of a heap differ by a multiple of 8.
const ID_STEP: u64 = 8;

// The number of words of a heap: 1,024 for each of 65,536 regions.
const HEAP_WORDS: u64 = 67_108_864;

// The steps of a hint: one for each bit of a word.
const HINT_STEPS: u64 = 64;

// An object of a view: its place and its id.
#[derive(Clone, Copy)]
pub(crate) struct Node {
    pub(crate) at: ObjRef,
    pub(crate) id: u64,
}

// Where nodes stand at 64 steps, of nodes whose ids rise: the number of nodes before these, and for each step whether one stands
// there, as bits.
#[derive(Clone, Copy)]
struct Hint {
    before: u32,
    bits: u64,
}

// The objects of a view with their places, in order. If ids rise, as those of a heap do, hints tell where an id stands, and `told`
// says that what they tell needs no look at the nodes. Contracts see the list.
#[derive(Drop)]
pub(crate) struct NodeList {
    nodes: Vec<Node>,
    rising: bool,
    first: u64,
    hints: Vec<Hint>,
    told: bool,
}

impl Model for NodeList {
    ghost use Rattle.std.specs.Prelude.{List, IsTrue};
    ghost use Rattle.heap_questions.specs.declared.nodes.Node.{Node};
    ghost use Rattle.heap_questions.specs.Search.{AreRising};
    ghost use Rattle.heap_questions.specs.Hints.{AreTold};

    ghost Value = { List Node };

    ghost view = { λ n. n.nodes.items };

    ghost invariant = { λ n. (IsTrue n.rising → AreRising n.nodes.items)
        × (IsTrue n.told → AreTold n.first n.hints.items n.nodes.items) };
}

// Returns the objects of a view, in order. Fails with NoMemory.
fn nodes_of<V: View>(alloc: Global, view: &V) -> Result<Vec<Node>, Refusal>
    ensures nodes { IfOk result (λ ns. AreNodes (V.image view.now) (V.places view.now) ns.items) }
    ensures few { IfOk result (λ ns. length ns.items ≤ object_limit) }
    ensures refused { IfErr result (λ e. e ≡ NoMemory) }
{
    // Its contract says that what the view shows is within the limits of a dump.
    let _classes = view.classes();
    let mut nodes = Vec::new(alloc);
    let mut here = view.first();
    while let Some(at) = here {
        nodes.push(Node {
            at,
            id: view.id(at),
        })?;
        here = view.next(at);
    }
    Ok(nodes)
}

// Tells whether the ids of nodes rise, as those of a heap do.
fn are_rising(nodes: &[Node]) -> bool
    ensures { IsTrue result → AreRising nodes.now }
{
    for i in 1..nodes.len() {
        if nodes[i].id < nodes[i - 1].id {
            return false;
        }
    }
    true
}

// Finds the first node with this id: by halves if ids rise.
fn node_with(nodes: &[Node], rising: bool, id: u64) -> Option<usize>
    requires { IsTrue rising → AreRising nodes.now }
    ensures { result ≡ node_with nodes.now id }
{
    if !rising {
        return nodes.iter().position(|node| node.id == id);
    }
    let first = first_by_halves(nodes, id);
    if first < nodes.len() && nodes[first].id == id {
        Some(first)
    } else {
        None
    }
}

// Finds the first node whose id is at least this by halves, of nodes whose ids rise.
fn first_by_halves(nodes: &[Node], id: u64) -> usize
    requires { AreRising nodes.now }
    ensures within { result ≤ length nodes.now }
    ensures below { AreSmallerBefore nodes.now result id }
    ensures above { AreFrom nodes.now result id }
{
    nodes.partition_point(|node| node.id < id)
}

// Returns the id of the first node, or 0 if there is none.
fn first_id(nodes: &[Node]) -> u64 {
    match nodes.first() {
        Some(node) => node.id,
        None => 0,
    }
}

// Finds the node with this id by hints alone.
fn told_with(hints: &[Hint], first: u64, id: u64) -> Option<usize>
    ensures { (ns : List Node) → AreTold first hints.now ns → result ≡ node_with ns id }
{
    let steps = id_steps(first, id);
    if id_after(first, steps) == id {
        node_told(hints, steps)
    } else {
        None
    }
}

// Returns the number of steps from an id to another, which may be any number if the other is smaller.
fn id_steps(first: u64, id: u64) -> u64
    ensures { result ≡ id_steps first id }
{
    id.wrapping_sub(first) / ID_STEP
}

// Returns the id that is `steps` steps from the first.
fn id_after(first: u64, steps: u64) -> u64
    ensures { result ≡ id_after first steps }
{
    first.wrapping_add(steps.wrapping_mul(ID_STEP))
}

// Returns the node that the hints tell for an id that is `steps` steps from the first, if they tell one.
fn node_told(hints: &[Hint], steps: u64) -> Option<usize>
    ensures { result ≡ node_told hints.now steps }
{
    let place = steps / HINT_STEPS;
    if place < hints.len() as u64 {
        node_told_by(hints[place as usize], (steps % HINT_STEPS) as u32)
    } else {
        None
    }
}

// Returns the node that a hint tells for one of its steps, if it tells one.
fn node_told_by(hint: Hint, step: u32) -> Option<usize>
    requires { step < 64 }
    ensures { result ≡ node_told_by hint step }
{
    if (hint.bits >> step) % 2 == 0 {
        return None;
    }
    let below = hint.bits & ((1u64 << step) - 1);
    Some(hint.before as usize + below.count_ones() as usize)
}

// Tells whether the hints tell where each node stands, and nothing else.
fn are_told(nodes: &[Node], first: u64, hints: &[Hint]) -> bool
    requires { length hints.now ≤ hint_limit }
    ensures { IsTrue result → AreTold first hints.now nodes.now }
{
    let mut node = 0;
    for place in 0..hints.len() {
        match node_behind(nodes, first, hints, place, hints[place], node) {
            Some(next) => node = next,
            None => return false,
        }
    }
    node == nodes.len()
}

// Returns the node behind those of the hint at this place, which begin at `from`, if it tells where they stand, and nothing else.
fn node_behind(
    nodes: &[Node],
    first: u64,
    hints: &[Hint],
    place: usize,
    hint: Hint,
    from: usize,
) -> Option<usize>
    requires few { place < hint_limit }
    requires there { slice_get hints.now place ≡ Some hint }
    requires within { from ≤ length nodes.now }
    requires told { AreToldTo first hints.now nodes.now (place * 64) from }
    ensures within { IfSome result (λ n. n ≤ length nodes.now) }
    ensures told { IfSome result (AreToldTo first hints.now nodes.now ((place + 1) * 64)) }
{
    let mut node = from;
    let mut step = 0;
    let mut rest = hint.bits;
    while rest != 0 {
        let zeros = rest.trailing_zeros();
        let steps = place as u64 * HINT_STEPS + (step + zeros) as u64;
        if !is_told_at(nodes, first, hints, steps, node) {
            return None;
        }
        rest = rest >> zeros >> 1;
        step += zeros + 1;
        node += 1;
    }
    Some(node)
}

// Tells whether the hints tell this node for an id this many steps from the first, and it has that id.
fn is_told_at(nodes: &[Node], first: u64, hints: &[Hint], steps: u64, node: usize) -> bool
    ensures { IsTrue result → IsToldAt first hints.now nodes.now steps node }
{
    if node >= nodes.len() {
        return false;
    }
    let id = nodes[node].id;
    id_steps(first, id) == steps && id_after(first, steps) == id && is_told(hints, steps, node)
}

// Tells whether the hints tell this node for an id this many steps from the first.
fn is_told(hints: &[Hint], steps: u64, node: usize) -> bool
    ensures { IsTrue result → node_told hints.now steps ≡ Some node }
{
    match node_told(hints, steps) {
        Some(found) => found == node,
        None => false,
    }
}

// Returns the hints of nodes of which the first has this id. Fails with NoMemory.
fn hints_of(alloc: Global, nodes: &[Node], first: u64) -> Result<Vec<Hint>, Refusal>
    requires { length nodes.now ≤ object_limit }
    ensures few { IfOk result (λ hs. length hs.items ≤ hint_limit) }
    ensures refused { IfErr result (λ e. e ≡ NoMemory) }
{
    let none = Hint { before: 0, bits: 0 };
    let mut hints = vec![in alloc; none; hint_count(nodes)]?;
    for node in 0..nodes.len() {
        let steps = id_steps(first, nodes[node].id);
        let place = steps / HINT_STEPS;
        if place < hints.len() as u64 {
            let hint = hints[place as usize];
            hints[place as usize] = hint_with(hint, node as u32, (steps % HINT_STEPS) as u32);
        }
    }
    Ok(hints)
}

// Returns how many hints the nodes need: one for each 64 steps from the first id to the last, but not for more than a heap has
// words.
fn hint_count(nodes: &[Node]) -> usize
    ensures { result ≤ hint_limit }
{
    match (nodes.first(), nodes.last()) {
        (Some(first), Some(last)) => {
            let steps = id_steps(first.id, last.id).min(HEAP_WORDS);
            (steps / HINT_STEPS) as usize + 1
        }
        _ => 0,
    }
}

// Adds a node that stands at one of the steps of a hint.
fn hint_with(hint: Hint, node: u32, step: u32) -> Hint
    requires { step < 64 }
{
    let before = if hint.bits == 0 { node } else { hint.before };
    let bits = hint.bits | 1u64 << step;
    Hint { before, bits }
}

// Returns the id of a node.
fn id_of(nodes: &[Node], node: usize) -> u64
    requires { node < length nodes.now }
    ensures { (n : Node) → slice_get nodes.now node ≡ Some n → result ≡ n.id }
{
    nodes[node].id
}

// Returns the place of a node.
fn place_of(nodes: &[Node], node: usize) -> ObjRef
    requires { node < length nodes.now }
    ensures { (n : Node) → slice_get nodes.now node ≡ Some n → result ≡ n.at }
{
    nodes[node].at
}

// Adds the ids of nodes, in order. Fails if an allocation fails.
fn add_ids(nodes: &[Node], ids: &mut Vec<u64>) -> Result<(), AllocError>
    ensures { OnOk result (ids.new.items ≡ ids.old.items ++ map (λ n. n.id) nodes.now) }
{
    for node in nodes {
        ids.push(node.id)?;
    }
    Ok(())
}

impl NodeList {
    // Lists the objects of a view. Fails with NoMemory. Reads each object's id once.
    pub(crate) fn new<V: View>(alloc: Global, view: &V) -> Result<NodeList, Refusal>
        ensures nodes { IfOk result (λ ns. AreNodes (V.image view.now) (V.places view.now) ns) }
        ensures refused { IfErr result (λ e. e ≡ NoMemory) }
    {
        let nodes = nodes_of(alloc, view)?;
        let rising = are_rising(nodes.as_slice());
        let first = first_id(nodes.as_slice());
        let hints = hints_of(alloc, nodes.as_slice(), first)?;
        let told = are_told(nodes.as_slice(), first, hints.as_slice());
        Ok(NodeList {
            nodes,
            rising,
            first,
            hints,
            told,
        })
    }

    // Returns the number of objects.
    pub(crate) fn len(&self) -> usize
        ensures { result ≡ length self.now }
    {
        self.nodes.len()
    }

    // Finds the first node with this id.
    pub(crate) fn find(&self, id: u64) -> Option<usize>
        ensures { result ≡ node_with self.now id }
    {
        if self.told {
            told_with(self.hints.as_slice(), self.first, id)
        } else {
            node_with(self.nodes.as_slice(), self.rising, id)
        }
    }

    // Returns the place of a node.
    pub(crate) fn place(&self, node: usize) -> ObjRef
        requires { node < length self.now }
        ensures { (n : Node) → slice_get self.now node ≡ Some n → result ≡ n.at }
    {
        place_of(self.nodes.as_slice(), node)
    }

    // Returns the id of a node.
    pub(crate) fn id(&self, node: usize) -> u64
        requires { node < length self.now }
        ensures { (n : Node) → slice_get self.now node ≡ Some n → result ≡ n.id }
    {
        id_of(self.nodes.as_slice(), node)
    }

    // Adds the ids of the nodes, in order. Fails if an allocation fails.
    pub(crate) fn add_ids(&self, ids: &mut Vec<u64>) -> Result<(), AllocError>
        ensures { OnOk result (ids.new.items ≡ ids.old.items ++ map (λ n. n.id) self.now) }
    {
        add_ids(self.nodes.as_slice(), ids)
    }
}
