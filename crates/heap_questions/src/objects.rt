//! One object as a dump shows it.
ghost use Rattle.std.specs.Prelude.{◌≡◌, ◌<◌, Some, slice_get};
ghost use Rattle.heap_class.specs.Classes.{slot_kinds_of};
ghost use Rattle.hprof_text.specs.Image.{IsKnown};
ghost use Rattle.heap_questions.specs.Graph.{object_with};
ghost use Rattle.heap_questions.specs.Search.{AreNodes};

use crate::nodes::NodeList;
use heap_class::{FirstClasses, Kind, ObjKind};
use hprof_text::{ShownObject, View};

/// Returns the object with this id, or None if there is none. Reads each id before it once. Takes no memory.
pub fn object_with<V: View>(view: &V, id: u64) -> Option<ShownObject<'_>>
    ensures { result ≡ object_with (V.image view.now) id }
{
    // Its contract says that what the view shows is within the limits of a dump.
    let _classes = view.classes();
    let mut passed = 0usize;
    let mut here = view.first();
    while let Some(at) = here {
        if view.id(at) == id {
            return Some(view.object(at));
        }
        passed += 1;
        here = view.next(at);
    }
    None
}

// Returns the object with this id, or None if there is none. The nodes must be the view's.
pub(crate) fn shown_with<'a, V: View>(
    view: &'a V,
    nodes: &NodeList,
    id: u64,
) -> Option<ShownObject<'a>>
    requires { AreNodes (V.image view.now) (V.places view.now) nodes.now }
    ensures { result ≡ object_with (V.image view.now) id }
{
    match nodes.find(id) {
        Some(node) => Some(view.object(nodes.place(node))),
        None => None,
    }
}

/// Returns the kind of a slot of an object of this kind with `words` words. The class must exist, and the object must have the
/// slot.
pub fn slot_kind(classes: &FirstClasses<'_>, kind: ObjKind, words: u64, slot: u64) -> Kind
    requires known { IsKnown classes.now kind words }
    requires within { slot < words }
    ensures { slice_get (slot_kinds_of classes.now kind words) slot ≡ Some result }
{
    match kind {
        ObjKind::Instance(class) => classes.slots(class as u64)[slot as usize],
        ObjKind::Array(_) => Kind::Object,
        ObjKind::Prim(kind) => kind,
    }
}
