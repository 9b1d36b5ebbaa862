//! The first retained state with a given number of live objects of a class, or more: a walk over the records, the newest first,
//! with a pin that shows the state after each step.
ghost use Rattle.std.specs.Prelude.{◌≡◌, ◌≤◌, ◌+◌, nat_le, length, if◌then◌else◌, false, IfOk, IfErr};
ghost use Rattle.heap_class.specs.declared.Refusal.TheVariants.{NoMemory};
ghost use Rattle.heap_questions.specs.declared.wanted.Wanted.TheVariants.{OfClass};
ghost use Rattle.heap_trail.specs.Trail.{retained, rewound};
ghost use Rattle.heap_questions.specs.FirstPlaces.{HasMany, IsFirstPlace, SeesWritten, is_finish, made_place, makes_of_class, many_before, place_if};
ghost use Rattle.heap_questions.specs.ObjectLists.{objects_wanted};

use crate::past::firsts::place_if;
use crate::past::seen::past_pin;
use crate::past::writes::kind_at;
use crate::wanted::{Wanted, is_of_class, is_wanted};
use heap_class::{ClassNo, ObjRef, Refusal};
use heap_pins::Pin;
use heap_step::Undo;
use heap_trail::Machine;
use heap_world::World;
use hprof_text::View;
use std::alloc::Global;

/// Returns the place of the oldest state that has at least `least` live objects of a class, of the state of `ago` steps ago and
/// those of the `count` steps before it, or None if none of them has as many. They must be retained. Fails with NoMemory if an
/// allocation fails. Reads each record since the oldest of these states once, and each object of the newest state, and of each
/// before a step that ended a cycle, once.
pub fn first_many(
    alloc: Global,
    machine: &Machine,
    ago: u64,
    count: u64,
    class: ClassNo,
    least: u64,
) -> Result<Option<u64>, Refusal>
    requires { ago + count ≤ retained machine.now.trail }
    ensures first { IfOk result (λ first.
        IsFirstPlace (HasMany least (OfClass class)) (rewound ago machine.now.trail) count first) }
    ensures refused { IfErr result (λ e. e ≡ NoMemory) }
{
    let place = machine.place();
    let world = machine.world();
    let mut pin = past_pin(alloc, machine, ago)?;
    let mut many = count_wanted(&machine.view(&pin), Wanted::OfClass(class));
    let mut first = place_if_many(many, least, place - ago, None);
    for n in 0..count {
        let left = machine.record_ago(ago + n);
        let made = makes_of_class(&pin, world, left, class);
        pin.walk_back(world, left)?;
        many = many_before(&machine.view(&pin), left, class, many, made);
        first = place_if_many(many, least, place - (ago + n + 1), first);
    }
    Ok(first)
}

// Returns how many objects of a view are wanted. Reads each object once. Takes no memory.
fn count_wanted<V: View>(view: &V, wanted: Wanted) -> u64
    ensures { result ≡ length (objects_wanted wanted (V.image view.now)) }
{
    // Its contract says that what the view shows is within the limits of a dump.
    let _classes = view.classes();
    let mut count = 0u64;
    let mut passed = 0usize;
    let mut here = view.first();
    while let Some(at) = here {
        count += one_if(is_wanted(wanted, view.kind(at), view.words(at)));
        passed += 1;
        here = view.next(at);
    }
    count
}

// Returns 1 or 0.
fn one_if(yes: bool) -> u64
    ensures { result ≡ (if yes then 1 else 0) }
{
    if yes { 1 } else { 0 }
}

// Returns the place of a state if it has at least `least`, else that of a newer one.
fn place_if_many(many: u64, least: u64, place: u64, newer: Option<u64>) -> Option<u64>
    ensures { result ≡ place_if (nat_le least many) place newer }
{
    place_if(many >= least, place, newer)
}

// Tells whether the step that left this record made an object of a class. The pin must show the state after the step.
fn makes_of_class(pin: &Pin, world: &World, left: &Undo, class: ClassNo) -> bool
    requires { SeesWritten pin.now world.now left.now }
    ensures { result ≡ makes_of_class pin.now world.now left.now class }
{
    match made_place(left) {
        Some(at) => is_of_class(kind_at(pin, world, at), class),
        None => false,
    }
}

// Returns the place of the object that the step with this record made, if it did.
fn made_place(left: &Undo) -> Option<ObjRef>
    ensures { result ≡ made_place left.now }
{
    match left {
        Undo::New { at, .. } => Some(*at),
        _ => None,
    }
}

// Returns how many live objects of a class a state has, before the step that left this record, from how many there are after it.
// A view shows the state.
fn many_before<V: View>(view: &V, left: &Undo, class: ClassNo, many: u64, made: bool) -> u64
    requires { is_finish left.now ≡ false → (if made then 1 else 0) ≤ many }
    ensures { result ≡ many_before (V.image view.now) left.now class many made }
{
    match left {
        Undo::Finish { .. } => count_wanted(view, Wanted::OfClass(class)),
        _ => many - one_if(made),
    }
}
