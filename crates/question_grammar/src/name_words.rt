//! The classes and slots that words name, by number or by name.
ghost use Rattle.std.specs.Prelude.{◌≡◌, ◌<◌, ◌^◌, length};
ghost use Rattle.std.specs.List.{position_from};
ghost use Rattle.std.specs.Str.{bytes_eq};
ghost use Rattle.heap_class.specs.Classes.{fields_of};
ghost use Rattle.question_grammar.specs.NameWords.{class_and_slot_named, class_named, class_of_id, class_of_word, id_and_slot_named, instance_of, slot_named, slot_of_object, slot_of_object_named, slot_of_word};

use heap_class::{ClassNo, FirstClasses, ObjKind};
use heap_world::World;
use question_words::{field_name, id_of};
use session_grammar::number::number_of;
use session_grammar::words::is_word;

// Returns the class that a word names, by its number or its name, or None if it names none.
#[tactic(auto, unfolding(crate::specs::NameWords::class_of_word))]
pub(crate) fn class_of(classes: &FirstClasses<'_>, word: &[u8]) -> Option<ClassNo>
    ensures { result ≡ class_of_word classes.now word.now }
{
    match number_of(word) {
        Some(class) => Some(class),
        None => class_named(classes, word),
    }
}

// Returns the number of the class with this name.
#[tactic(auto, unfolding(crate::specs::NameWords::class_named))]
pub(crate) fn class_named(classes: &FirstClasses<'_>, name: &[u8]) -> Option<ClassNo>
    ensures { result ≡ class_named classes.now name.now }
{
    for class in 0..classes.len() {
        if is_word(classes.name(class), name) {
            return Some(class);
        }
    }
    None
}

// Returns the class and the slot that two words name.
#[tactic(auto, unfolding(crate::specs::NameWords::class_and_slot_named))]
pub(crate) fn class_and_slot_named(
    classes: &FirstClasses<'_>,
    class: &[u8],
    slot: &[u8],
) -> Option<(ClassNo, u64)>
    ensures { result ≡ class_and_slot_named classes.now class.now slot.now }
{
    let class = class_of(classes, class)?;
    Some((class, slot_of(classes, class, slot)?))
}

/// Returns the slot of the instances of a class that a word names, by its number or its name, or None if it names none.
#[tactic(auto, unfolding(crate::specs::NameWords::slot_of_word))]
pub fn slot_of(classes: &FirstClasses<'_>, class: ClassNo, word: &[u8]) -> Option<u64>
    ensures { result ≡ slot_of_word classes.now class word.now }
{
    match number_of(word) {
        Some(slot) => Some(slot),
        None => slot_named(classes, class, word),
    }
}

// Returns the first slot with this name of the instances of a class, or None if they have none or the class isn't there.
fn slot_named(classes: &FirstClasses<'_>, class: ClassNo, name: &[u8]) -> Option<u64>
    ensures { result ≡ slot_named classes.now class name.now }
{
    if class < classes.len() {
        slot_up(classes, class, name)
    } else {
        None
    }
}

// Returns the first slot with this name of the instances of a class, which must be there.
fn slot_up(classes: &FirstClasses<'_>, class: ClassNo, name: &[u8]) -> Option<u64>
    requires { class < length classes.now }
    ensures { result ≡ slot_named classes.now class name.now }
{
    let mut here = Some(class);
    let mut first = 0;
    for depth in 0..classes.len() {
        let Some(above) = here else {
            return None;
        };
        if let Some(slot) = field_named(classes, above, name, first) {
            return Some(slot);
        }
        first += classes.field_count(above);
        here = classes.sup(above);
    }
    None
}

// Returns the slot of the first own field of a class with this name, if the first of its fields is slot `first`.
fn field_named(classes: &FirstClasses<'_>, class: ClassNo, name: &[u8], first: u64) -> Option<u64>
    requires there { class < length classes.now }
    requires few { first < 2 ^ 32 }
    ensures { result
        ≡ position_from (λ f. bytes_eq f.name name.now) first (fields_of classes.now class) }
{
    for field in 0..classes.field_count(class) {
        if is_word(field_name(classes, class, field), name) {
            return Some(first + field);
        }
    }
    None
}

// Returns the id and the slot that two words name.
#[tactic(auto, unfolding(crate::specs::NameWords::id_and_slot_named))]
pub(crate) fn id_and_slot_named(world: &World, id: &[u8], slot: &[u8]) -> Option<(u64, u64)>
    ensures { result ≡ id_and_slot_named world.now id.now slot.now }
{
    let id = id_of(id)?;
    Some((id, slot_of_object(world, id, slot)?))
}

// Returns the slot of the object with this id that a word names, by its number or its name, or None if it names none.
#[tactic(auto, unfolding(crate::specs::NameWords::slot_of_object))]
fn slot_of_object(world: &World, id: u64, word: &[u8]) -> Option<u64>
    ensures { result ≡ slot_of_object world.now id word.now }
{
    match number_of(word) {
        Some(slot) => Some(slot),
        None => slot_of_object_named(world, id, word),
    }
}

// Returns the first slot with this name of the object with this id, dead or not.
#[tactic(auto, unfolding(crate::specs::NameWords::slot_of_object_named))]
pub(crate) fn slot_of_object_named(world: &World, id: u64, name: &[u8]) -> Option<u64>
    ensures { result ≡ slot_of_object_named world.now id name.now }
{
    let class = class_of_id(world, id)?;
    slot_named(&world.classes().all(), class, name)
}

// Returns the class of the instance with this id, dead or not.
fn class_of_id(world: &World, id: u64) -> Option<ClassNo>
    ensures { result ≡ class_of_id world.now id }
{
    let regions = world.regions();
    match regions.find(id) {
        Some(at) => class_of_kind(regions.kind(at)),
        None => None,
    }
}

// Returns the class of an instance, or None of an array.
fn class_of_kind(kind: ObjKind) -> Option<ClassNo>
    ensures { result ≡ instance_of kind }
{
    match kind {
        ObjKind::Instance(class) => Some(class as u64),
        _ => None,
    }
}
