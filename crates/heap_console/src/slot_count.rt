//! How many slots there are, for a line that names another.
use heap_questions::{Wanted, object_with};
use heap_trail::Machine;
use heap_world::{REGISTERS_EACH, World};
use question_grammar::{Bookmarks, Question, question_in};
use question_words::{At, moment_at, view_of};
use session_grammar::command::next_number;
use session_grammar::words::{Words, is_word};

// The register of which a line names a slot of the object.
#[derive(Clone, Copy)]
pub(crate) struct NamedRegister {
    m: u64,
    r: u64,
}

/// Returns the register that a line `load`, `store` or `put` names as that of the object whose slot it names, or None if what was
/// read is no such line, or several lines.
pub(crate) fn register_named(read: &[u8]) -> Option<NamedRegister> {
    let (_, line) = read.split_last()?;
    if line.contains(&b'\n') {
        return None;
    }
    let mut words = Words::new(line);
    let keyword = words.next_word()?;
    let m = next_number(&mut words)?;
    if is_word(keyword, b"load") {
        let _to = next_number(&mut words)?;
    } else if !is_word(keyword, b"store") && !is_word(keyword, b"put") {
        return None;
    }
    let r = next_number(&mut words)?;
    Some(NamedRegister { m, r })
}

/// Returns how many slots there are of which a line names one: those of the class that a question names, or of the object that it
/// names, or that this register names. Returns None if that isn't known.
pub(crate) fn slots_of(
    machine: &Machine,
    bookmarks: &Bookmarks,
    line: &[u8],
    register: Option<NamedRegister>,
) -> Option<u64> {
    match question_in(bookmarks, machine.world(), line) {
        Some(question) => slots_asked(machine, question),
        None => slots_of_register(machine.world(), register),
    }
}

// Returns how many slots there are of which a question names one.
fn slots_asked(machine: &Machine, question: Question) -> Option<u64> {
    match question {
        Question::Values { class, .. } | Question::Writes { class, .. } => {
            slots_of_class(machine.world(), class)
        }
        Question::Objects { wanted, .. } | Question::When { wanted, .. } => {
            slots_wanted(machine.world(), wanted)
        }
        Question::Wrote { to, id, .. } | Question::Watch { id, to, .. } => {
            slots_of_object(machine, to, id)
        }
        _ => None,
    }
}

// Returns how many slots the instances of a class have.
fn slots_of_class(world: &World, class: u64) -> Option<u64> {
    let classes = world.classes().all();
    if class >= classes.len() || classes.is_array(class) {
        return None;
    }
    Some(classes.slots(class).len() as u64)
}

// Returns how many slots the objects have that are wanted for what one of them holds.
fn slots_wanted(world: &World, wanted: Wanted) -> Option<u64> {
    match wanted {
        Wanted::Holding { class, .. } => slots_of_class(world, class),
        _ => None,
    }
}

// Returns how many slots the object with this id has: in the current state, dead or not, or in that of a place, if it is live.
fn slots_of_object(machine: &Machine, to: Option<u64>, id: u64) -> Option<u64> {
    match to {
        None => slots_now(machine.world(), id),
        Some(place) => slots_at(machine, place, id),
    }
}

// Returns how many slots the object with this id has in the current state.
fn slots_now(world: &World, id: u64) -> Option<u64> {
    let regions = world.regions();
    let at = regions.find(id)?;
    Some(regions.len(at))
}

// Returns how many slots the object with this id has in the retained state at a place.
fn slots_at(machine: &Machine, place: u64, id: u64) -> Option<u64> {
    let moment = moment_at(machine, At::Place(place)).ok()?;
    let view = view_of(machine, &moment).ok()?;
    let object = object_with(&view, id)?;
    Some(object.words().len() as u64)
}

/// Returns how many slots the object has that a register names.
pub(crate) fn slots_of_register(world: &World, register: Option<NamedRegister>) -> Option<u64> {
    let NamedRegister { m, r } = register?;
    let index = REGISTERS_EACH.saturating_mul(m).saturating_add(r);
    let id = world.registers().get(index as usize)?;
    slots_now(world, *id)
}
