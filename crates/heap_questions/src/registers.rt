//! What the registers name.
ghost use Rattle.std.specs.Prelude.{◌≡◌, map, IfOk, IfErr};
ghost use Rattle.std.specs.Option.{option_map};
ghost use Rattle.heap_class.specs.declared.Refusal.TheVariants.{NoMemory};
ghost use Rattle.heap_questions.specs.Graph.{object_with};
ghost use Rattle.heap_questions.specs.Registers.{object_named};
ghost use Rattle.heap_questions.specs.Search.{AreNodes};

use crate::nodes::NodeList;
use heap_class::{ObjKind, Refusal};
use hprof_text::View;
use std::alloc::Global;

/// The word of a register, and the kind of the object that it names, if it names one.
#[derive(Clone, Copy)]
pub struct NamedObject {
    pub id: u64,
    pub kind: Option<ObjKind>,
}

/// Returns what each register names, in order. Fails with NoMemory if an allocation fails. Reads each id once.
pub fn named_by_registers<V: View>(alloc: Global, view: &V) -> Result<Vec<NamedObject>, Refusal>
    ensures named { IfOk result (λ all. all.items
        ≡ map (object_named (V.image view.now)) (V.image view.now).registers) }
    ensures refused { IfErr result (λ e. e ≡ NoMemory) }
{
    let nodes = NodeList::new(alloc, view)?;
    let registers = view.registers();
    let mut all = Vec::with_capacity(alloc, registers.len())?;
    for r in 0..registers.len() {
        let id = registers[r];
        let kind = kind_with(view, &nodes, id);
        all.push(NamedObject { id, kind })?;
    }
    Ok(all)
}

// Returns the kind of the object with this id, or None if there is none.
fn kind_with<V: View>(view: &V, nodes: &NodeList, id: u64) -> Option<ObjKind>
    requires { AreNodes (V.image view.now) (V.places view.now) nodes.now }
    ensures { result ≡ option_map (λ o. o.kind) (object_with (V.image view.now) id) }
{
    match nodes.find(id) {
        Some(node) => Some(view.kind(nodes.place(node))),
        None => None,
    }
}
