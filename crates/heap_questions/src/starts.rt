//! Where paths start: at a register, by a slot of what it names.
ghost use Rattle.std.specs.Prelude.{◌≡◌, ◌+◌, ◌*◌, ◌<◌, ◌==◌, ◌&&◌, [], false, not, length, map, slice_get, IfErr, OnOk};
ghost use Rattle.std.specs.List.{list_any};
ghost use Rattle.std.specs.Option.{option_map_or};
ghost use Rattle.heap_class.specs.declared.Refusal.TheVariants.{NoMemory};
ghost use Rattle.hprof_text.specs.Image.{IsKnown, register_limit};
ghost use Rattle.heap_questions.specs.Graph.{slot_refers};
ghost use Rattle.heap_questions.specs.Hops.{slots_of};
ghost use Rattle.heap_questions.specs.PathsApart.{route_of};
ghost use Rattle.heap_questions.specs.Search.{AreNodes, IsBeginning, IsNodeOfRegister, IsSearch, IsSearching, slot_span};
ghost use Rattle.heap_questions.specs.Starts.{starts_by, with_starts};

use crate::nodes::NodeList;
use crate::paths::{Hop, Path};
use crate::references::is_reference_slot;
use crate::search::{Reach, SLOT_SPAN, offer};
use heap_class::{FirstClasses, ObjKind, Refusal};
use hprof_text::View;

// Finds what the starts name that are those of none of these paths. Nothing may have been found. The nodes must be the view's.
// Fails with NoMemory.
pub(crate) fn find_starts<V: View>(
    view: &V,
    nodes: &NodeList,
    paths: &[Path],
    reach: &mut Reach,
) -> Result<(), Refusal>
    requires nodes { AreNodes (V.image view.now) (V.places view.now) nodes.now }
    requires none { reach.old.queue.items ≡ [] }
    requires search { IsSearching (with_starts (V.image view.now) (map route_of paths.now))
        nodes.now reach.old.seen.items [] 0 }
    ensures search { OnOk result (IsSearch (with_starts (V.image view.now) (map route_of paths.now))
        nodes.now reach.new.seen.items reach.new.queue.items 0) }
    ensures refused { IfErr result (λ e. e ≡ NoMemory) }
{
    // Its contract says that what the view shows is within the limits of a dump.
    let _classes = view.classes();
    let registers = view.registers();
    for r in 0..registers.len() {
        match nodes.find(registers[r]) {
            Some(node) => find_slots(view, nodes, paths, reach, r, node)?,
            None => {}
        }
    }
    Ok(())
}

// Finds what the starts name of a register that names a node's object. The starts of those before it must have been looked at.
// Fails with NoMemory.
fn find_slots<V: View>(
    view: &V,
    nodes: &NodeList,
    paths: &[Path],
    reach: &mut Reach,
    register: usize,
    node: usize,
) -> Result<(), Refusal>
    requires nodes { AreNodes (V.image view.now) (V.places view.now) nodes.now }
    requires node { IsNodeOfRegister (V.image view.now) nodes.now register node }
    requires search { IsBeginning (with_starts (V.image view.now) (map route_of paths.now))
        nodes.now reach.old.seen.items reach.old.queue.items (register * slot_span) }
    ensures search { OnOk result (IsBeginning
        (with_starts (V.image view.now) (map route_of paths.now))
        nodes.now reach.new.seen.items reach.new.queue.items ((register + 1) * slot_span)) }
    ensures refused { IfErr result (λ e. e ≡ NoMemory) }
{
    let at = nodes.place(node);
    let classes = view.classes();
    let kind = view.kind(at);
    let words = view.words(at);
    for slot in 0..words.len() {
        if is_free_start(&classes, kind, words, slot, paths, register as u64) {
            offer(nodes, reach, words[slot], start_number(register, slot))?;
        }
    }
    Ok(())
}

// Tells whether a slot of an object of this kind, which a register names, refers to an object, and none of these paths starts so.
fn is_free_start(
    classes: &FirstClasses<'_>,
    kind: ObjKind,
    words: &[u64],
    slot: usize,
    paths: &[Path],
    register: u64,
) -> bool
    requires known { IsKnown classes.now kind (length words.now) }
    requires within { slot < length words.now }
    ensures { result ≡ (slot_refers classes.now kind slot
        && not (list_any (λ p. starts_by register slot (route_of p)) paths.now)) }
{
    is_reference_slot(classes, kind, words.len() as u64, slot as u64)
        && !is_start_used(paths, register, slot as u64)
}

// Tells whether one of these paths starts at this register by this slot.
pub(crate) fn is_start_used(paths: &[Path], register: u64, slot: u64) -> bool
    ensures { result ≡ list_any (λ p. starts_by register slot (route_of p)) paths.now }
{
    paths.iter().any(|path| starts_by(path, register, slot))
}

// Tells whether a path starts at this register by this slot.
fn starts_by(path: &Path, register: u64, slot: u64) -> bool
    ensures { result ≡ starts_by register slot (route_of path.now) }
{
    path.register == register && begins_with(path.hops.as_slice(), slot)
}

// Tells whether this slot is the first that is followed.
#[tactic(auto, using(crate::proofs::Hops::first_slot))]
fn begins_with(hops: &[Hop], slot: u64) -> bool
    ensures { result ≡ option_map_or (λ t. t == slot) (slice_get (slots_of hops.now) 0) false }
{
    match hops.first() {
        Some(first) => first.slot == slot,
        None => false,
    }
}

// Returns the number of the start at a register by a slot.
pub(crate) fn start_number(register: usize, slot: usize) -> u32
    requires register { register < register_limit }
    requires slot { slot < slot_span }
    ensures { result ≡ register * slot_span + slot }
{
    register as u32 * SLOT_SPAN + slot as u32
}
