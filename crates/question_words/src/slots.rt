//! A slot of the objects of a class.
ghost use Rattle.std.specs.Prelude.{◌≡◌};
ghost use Rattle.question_words.specs.ClassSlots.{class_slot, wanted_refusal};

use heap_class::{ClassNo, FirstClasses, Refusal};
use heap_questions::Wanted;

/// Tells whether a slot of the objects of a class holds a reference: an array of references may have any slot. Fails with NoClass
/// if the class isn't there, and with BadSlot if its objects have no such slot.
#[tactic(auto, unfolding(crate::specs::ClassSlots::class_slot))]
pub fn class_slot(classes: &FirstClasses<'_>, class: ClassNo, slot: u64) -> Result<bool, Refusal>
    ensures { result ≡ class_slot classes.now class slot }
{
    if class >= classes.len() {
        return Err(Refusal::NoClass);
    }
    if classes.is_array(class) {
        return Ok(true);
    }
    match classes.slots(class).get(slot as usize) {
        Some(kind) => Ok(kind.is_reference()),
        None => Err(Refusal::BadSlot),
    }
}

/// Returns why no objects can be listed, or None if they can.
#[tactic(auto, unfolding(crate::specs::ClassSlots::wanted_refusal))]
pub fn wanted_refusal(classes: &FirstClasses<'_>, wanted: Wanted) -> Option<Refusal>
    ensures { result ≡ wanted_refusal classes.now wanted }
{
    match wanted {
        Wanted::All => None,
        Wanted::OfClass(class) => {
            if class < classes.len() {
                None
            } else {
                Some(Refusal::NoClass)
            }
        }
        Wanted::Holding { class, slot, .. } => class_slot(classes, class, slot).err(),
    }
}
