//! What names an object.
ghost use Rattle.std.specs.Prelude.{◌≡◌, ◌++◌, ◌<◌, length, IfOk, IfErr, OnOk};
ghost use Rattle.heap_class.specs.declared.Refusal.TheVariants.{NoMemory};
ghost use Rattle.hprof_text.specs.Image.{IsKnown};
ghost use Rattle.heap_questions.specs.Graph.{slot_refers};
ghost use Rattle.heap_questions.specs.Referrers.{dumped, naming_registers, naming_slots, referrers_of};

use heap_class::{FirstClasses, ObjKind, Refusal};
use hprof_text::View;
use std::alloc::Global;

/// What names an object.
#[derive(Clone, Copy)]
pub enum Referrer {
    /// A slot of the object with this id.
    Slot { object: u64, slot: u64 },
    /// A register, by its number among all registers.
    Register(u64),
}

// Tells whether a slot of an object of this kind, which has `words` words, holds a reference.
#[tactic(auto, unfolding(crate::specs::Graph::slot_refers))]
pub(crate) fn is_reference_slot(
    classes: &FirstClasses<'_>,
    kind: ObjKind,
    words: u64,
    slot: u64,
) -> bool
    requires known { IsKnown classes.now kind words }
    requires within { slot < words }
    ensures { result ≡ slot_refers classes.now kind slot }
{
    match kind {
        ObjKind::Instance(class) => classes.slots(class as u64)[slot as usize].is_reference(),
        ObjKind::Array(_) => true,
        ObjKind::Prim(kind) => kind.is_reference(),
    }
}

/// Returns all registers and slots that name `id`: registers by number, then slots in the order of a dump. Fails with
/// NoMemory if an allocation fails. Reads each object once.
pub fn referrers<V: View>(alloc: Global, view: &V, id: u64) -> Result<Vec<Referrer>, Refusal>
    ensures all { IfOk result (λ all. all.items ≡ referrers_of (V.image view.now) id) }
    ensures refused { IfErr result (λ e. e ≡ NoMemory) }
{
    let classes = view.classes();
    let mut all = Vec::new(alloc);
    add_registers(view.registers(), id, &mut all)?;
    let mut passed = 0u64;
    let mut here = view.first();
    while let Some(at) = here {
        add_slots(
            &classes,
            view.id(at),
            view.kind(at),
            view.words(at),
            id,
            &mut all,
        )?;
        passed += 1;
        here = view.next(at);
    }
    Ok(all)
}

// Adds the registers that name `id`. Fails with NoMemory.
fn add_registers(registers: &[u64], id: u64, all: &mut Vec<Referrer>) -> Result<(), Refusal>
    ensures added { OnOk result (all.new.items
        ≡ all.old.items ++ naming_registers id registers.now) }
    ensures refused { IfErr result (λ e. e ≡ NoMemory) }
{
    for r in 0..registers.len() {
        if registers[r] == id {
            all.push(Referrer::Register(r as u64))?;
        }
    }
    Ok(())
}

// Adds the slots of an object that name `id`. Fails with NoMemory.
fn add_slots(
    classes: &FirstClasses<'_>,
    object: u64,
    kind: ObjKind,
    words: &[u64],
    id: u64,
    all: &mut Vec<Referrer>,
) -> Result<(), Refusal>
    requires { IsKnown classes.now kind (length words.now) }
    ensures added { OnOk result (all.new.items ≡ all.old.items
        ++ naming_slots classes.now id (dumped object kind words.now)) }
    ensures refused { IfErr result (λ e. e ≡ NoMemory) }
{
    for slot in 0..words.len() {
        if words[slot] == id && is_reference_slot(classes, kind, words.len() as u64, slot as u64) {
            all.push(Referrer::Slot {
                object,
                slot: slot as u64,
            })?;
        }
    }
    Ok(())
}
