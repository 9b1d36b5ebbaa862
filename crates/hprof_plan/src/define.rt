//! Classes of a session, defined one after another, and the lines that define them.
ghost use Rattle.std.specs.Prelude.{◌≡◌, ◌≤◌, ◌<◌, ◌+◌, ◌∷◌, ◌++◌, [], length, true, IfOk, OnOk};
ghost use Rattle.std.specs.Option.{option_map_or};
ghost use Rattle.heap_class.specs.Classes.{array_class, instance_class, is_instance_class, slots_of};
ghost use Rattle.heap_class.specs.Limits.{AreClassLimits, slot_limit};
ghost use Rattle.hprof_plan.specs.Accepted.{next_name};
ghost use Rattle.hprof_plan.specs.Names.{AreGiven, given_name};
ghost use Rattle.hprof_plan.specs.Defined.{AreDefined};
ghost use Rattle.hprof_plan.specs.Right.{AreRight};

use crate::names::given_name;
use heap_class::{ClassLimits, ClassNo, Classes, Fields, Name, NewClass, Refusal};
use heap_step::Event;
use indexmap::IndexSet;
use session_lines::Lines;
use std::alloc::{AllocError, Global};

/// Classes, their names, and the lines that define them.
#[derive(Drop)]
pub(crate) struct Defined {
    pub(crate) classes: Classes,
    pub(crate) names: IndexSet<Name>,
    pub(crate) lines: Lines,
}

/// Returns no classes.
pub(crate) fn none_defined(alloc: Global, limits: ClassLimits) -> Defined
    ensures defined { AreDefined limits result }
    ensures none { result.classes ≡ [] }
{
    // Only the contract uses it.
    let _limits = limits;
    Defined {
        classes: Classes::new(alloc),
        names: IndexSet::new(alloc),
        lines: Lines::new(alloc),
    }
}

/// Defines an instance class and appends its line. Fails if an allocation fails.
pub(crate) fn define_class(
    alloc: Global,
    limits: ClassLimits,
    defined: &mut Defined,
    name: &[u8],
    sup: Option<ClassNo>,
    fields: Fields,
) -> Result<(), AllocError>
    requires limits { AreClassLimits limits }
    requires long { 22 ≤ limits.name_bytes }
    requires state { AreDefined limits defined.old }
    requires room { length defined.old.classes < limits.classes }
    requires super_is { option_map_or (is_instance_class defined.old.classes) sup true ≡ true }
    requires right { AreRight limits fields }
    requires slots { length fields + length (option_map_or (slots_of defined.old.classes) sup [])
        ≤ slot_limit }
    ensures defined { OnOk result (AreDefined limits defined.new) }
    ensures class { OnOk result
        (defined.new.classes
        ≡ defined.old.classes
        ++ instance_class (next_name limits defined.old.classes name.now) sup fields ∷ []) }
{
    let number = defined.classes.len();
    let given = give_name(alloc, limits, &mut defined.names, number, name)?;
    let class = NewClass {
        name: &given,
        sup,
        fields: &fields,
    };
    match defined.classes.define(limits, class) {
        Ok(_) => {
            let name = given;
            defined.lines.push(&Event::Class { name, sup, fields })?;
            Ok(())
        }
        Err(refusal) => Err(memory_error(refusal)),
    }
}

// Gives the class with this number its name, or another in its place, and returns it. Fails if an allocation fails.
fn give_name(
    alloc: Global,
    limits: ClassLimits,
    names: &mut IndexSet<Name>,
    number: u64,
    name: &[u8],
) -> Result<Name, AllocError>
    requires { AreGiven limits number names.old.keys }
    ensures name { IfOk result (λ n. n ≡ given_name limits names.old.keys number name.now) }
    ensures names { IfOk result (λ n. names.new.keys ≡ names.old.keys ++ n ∷ []) }
{
    let wanted = Name::new(alloc, name)?;
    let is_given = names.contains(&wanted);
    let given = given_name(alloc, limits, is_given, number, name)?;
    let copy = given.duplicate(alloc)?;
    names.insert(copy)?;
    Ok(given)
}

// Returns the error of an allocation that failed, which is why no class was defined.
fn memory_error(refusal: Refusal) -> AllocError
    requires { refusal ≡ Refusal.NoMemory }
{
    // Only the contract uses it.
    let _refusal = refusal;
    AllocError
}

/// Defines an array class and appends its line. Fails if an allocation fails.
pub(crate) fn define_array_class(
    alloc: Global,
    limits: ClassLimits,
    defined: &mut Defined,
    name: &[u8],
) -> Result<(), AllocError>
    requires limits { AreClassLimits limits }
    requires long { 22 ≤ limits.name_bytes }
    requires state { AreDefined limits defined.old }
    requires room { length defined.old.classes < limits.classes }
    ensures defined { OnOk result (AreDefined limits defined.new) }
    ensures class { OnOk result
        (defined.new.classes
        ≡ defined.old.classes ++ array_class (next_name limits defined.old.classes name.now) ∷ []) }
{
    let number = defined.classes.len();
    let given = give_name(alloc, limits, &mut defined.names, number, name)?;
    match defined.classes.define_array(limits, &given) {
        Ok(_) => {
            defined.lines.push(&Event::ArrayClass { name: given })?;
            Ok(())
        }
        Err(refusal) => Err(memory_error(refusal)),
    }
}
