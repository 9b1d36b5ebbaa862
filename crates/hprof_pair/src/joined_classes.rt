//! The classes of a second dump in a heap that has those of a first.
ghost use Rattle.std.specs.Prelude.{◌≡◌, ◌≢◌, ◌≤◌, ◌<◌, List, length, map, position, slice_get, take, true, None, Some, IfOk, OnOk};
ghost use Rattle.std.specs.List.{list_any};
ghost use Rattle.std.specs.Str.{bytes_eq};
ghost use Rattle.heap_class.specs.Classes.{Class, IsDefined, fields_of, is_array_class};
ghost use Rattle.heap_class.specs.Limits.{AreClassLimits};
ghost use Rattle.heap_class.specs.declared.Refusal.TheVariants.{NoMemory};
ghost use Rattle.hprof_plan.specs.Accepted.{class_event};
ghost use Rattle.hprof_pair.specs.JoinedClasses.{Joined, and_class, and_defined, and_found, class_line, classes_joined, number_of_line, over, renamed, super_over};
ghost use Rattle.hprof_pair.specs.JoinedSoFar.{AreJoined, IsDefinedAs};

use crate::shapes::class_in;
use heap_class::{ClassLimits, ClassNo, Classes, Field, Fields, Name, NewClass, Refusal};
use heap_step::Event;
use hprof_plan::given_name;
use session_lines::push_event;
use std::alloc::{AllocError, Global};

/// The classes of a heap that has those of two dumps.
#[derive(Drop)]
pub(crate) struct JoinedClasses {
    /// The classes of the heap.
    pub(crate) classes: Classes,
    /// The lines that define them, in order.
    pub(crate) known: Vec<Name>,
    /// The lines that define those that aren't of the first dump.
    pub(crate) text: Vec<u8>,
    /// The number in the heap of each class of the second dump, if it has one.
    pub(crate) numbers: Vec<Option<ClassNo>>,
}

/// Returns the classes of the second dump, the first `count` of its plan, in a heap with these limits that has those of the first.
/// Fails if an allocation fails.
pub(crate) fn join_classes(
    alloc: Global,
    limits: ClassLimits,
    first: Classes,
    second: &Classes,
    count: u64,
) -> Result<JoinedClasses, AllocError>
    requires limits { AreClassLimits limits }
    requires long { 22 ≤ limits.name_bytes }
    requires count { count ≤ length second.now }
    ensures { IfOk result (λ j. AreJoined first j (classes_joined limits first (take count
        second.now))) }
{
    let known = lines_of(alloc, &first)?;
    let mut joined = JoinedClasses {
        classes: first,
        known,
        text: Vec::new(alloc),
        numbers: Vec::new(alloc),
    };
    for k in 0..count {
        join_class(alloc, limits, &mut joined, second, k)?;
    }
    Ok(joined)
}

// Returns the lines that define classes.
fn lines_of(alloc: Global, classes: &Classes) -> Result<Vec<Name>, AllocError>
    ensures { IfOk result (λ lines. lines.items ≡ map class_line classes.now) }
{
    let mut lines = Vec::new(alloc);
    for k in 0..classes.len() {
        let line = line_over(alloc, classes, k, classes.sup(k))?;
        lines.push(line)?;
    }
    Ok(lines)
}

// Returns the line that defines class k with this super.
fn line_over(
    alloc: Global,
    classes: &Classes,
    k: ClassNo,
    sup: Option<ClassNo>,
) -> Result<Name, AllocError>
    requires { k < length classes.now }
    ensures { (c : Class) → slice_get classes.now k ≡ Some c
        → IfOk result (λ line. line ≡ class_line (over c sup)) }
{
    let event = event_over(alloc, classes, k, sup)?;
    let mut text = Vec::new(alloc);
    push_event(&mut text, &event)?;
    Ok(Name::from_vec(text))
}

// Returns the event that defines class k with this super.
fn event_over(
    alloc: Global,
    classes: &Classes,
    k: ClassNo,
    sup: Option<ClassNo>,
) -> Result<Event, AllocError>
    requires { k < length classes.now }
    ensures { (c : Class) → slice_get classes.now k ≡ Some c
        → IfOk result (λ e. e ≡ class_event (over c sup)) }
{
    let name = Name::new(alloc, classes.name(k))?;
    if classes.is_array(k) {
        return Ok(Event::ArrayClass { name });
    }
    let fields = fields_of(alloc, classes, k)?;
    Ok(Event::Class { name, sup, fields })
}

// Returns the own fields of class k.
fn fields_of(alloc: Global, classes: &Classes, k: ClassNo) -> Result<Fields, AllocError>
    requires { k < length classes.now }
    ensures { IfOk result (λ fields. fields ≡ fields_of classes.now k) }
{
    let mut fields = Vec::new(alloc);
    for i in 0..classes.field_count(k) {
        let id = classes.field_name_id(k, i);
        let name = Name::new(alloc, classes.name_at(id - 1))?;
        let kind = classes.field_kind(k, i);
        fields.push(Field { name, kind })?;
    }
    Ok(Fields::from_vec(fields))
}

// Looks at class k of the second dump: it has the number of the class that the same line defines, or is defined, if the heap takes
// it.
fn join_class(
    alloc: Global,
    limits: ClassLimits,
    joined: &mut JoinedClasses,
    second: &Classes,
    k: ClassNo,
) -> Result<(), AllocError>
    requires limits { AreClassLimits limits }
    requires number { k < length second.now }
    ensures { (first : List Class) (s : Joined) (c : Class) → AreJoined first joined.old s
        → slice_get second.now k ≡ Some c
        → OnOk result (AreJoined first joined.new (and_class limits s c)) }
{
    // Its contract says that array classes have no super.
    let _number = second.len();
    match super_over(joined.numbers.as_slice(), second.sup(k)) {
        Some(sup) => {
            let number = number_over(alloc, limits, joined, second, k, sup)?;
            joined.numbers.push(number)?;
            Ok(())
        }
        None => {
            joined.numbers.push(None)?;
            Ok(())
        }
    }
}

// Returns the number in the heap of a class's super, or none if there is no super. Returns None if the super has no number there.
fn super_over(numbers: &[Option<ClassNo>], sup: Option<ClassNo>) -> Option<Option<ClassNo>>
    ensures { result ≡ super_over numbers.now sup }
{
    match sup {
        Some(above) => match class_in(numbers, above) {
            Some(number) => Some(Some(number)),
            None => None,
        },
        None => Some(None),
    }
}

// Returns the number of the class that the line of class k of the second dump with this super defines. Defines one, if there is
// none and the heap takes it.
fn number_over(
    alloc: Global,
    limits: ClassLimits,
    joined: &mut JoinedClasses,
    second: &Classes,
    k: ClassNo,
    sup: Option<ClassNo>,
) -> Result<Option<ClassNo>, AllocError>
    requires limits { AreClassLimits limits }
    requires number { k < length second.now }
    requires bare { is_array_class second.now k ≡ true → sup ≡ None }
    ensures { (first : List Class) (s : Joined) (c : Class) → AreJoined first joined.old s
        → slice_get second.now k ≡ Some c
        → IfOk result (λ o. IsDefinedAs first joined.old.numbers.items o joined.new
        (and_found limits s (over c sup) (number_of_line s.classes (over c sup)))) }
{
    let line = line_over(alloc, second, k, sup)?;
    match number_of_line(joined.known.as_slice(), &line) {
        Some(number) => Ok(Some(number)),
        None => define_class(alloc, limits, joined, second, k, sup),
    }
}

// Returns the number of the class that a line defines, if it is one of these.
fn number_of_line(lines: &[Name], line: &Name) -> Option<ClassNo>
    ensures { result ≡ position (bytes_eq line.now) lines.now }
{
    for (k, known) in lines.iter().enumerate() {
        if line == known {
            return Some(k as u64);
        }
    }
    None
}

// Defines class k of the second dump with this super, by its name or another in its place, if the heap takes it. Returns its
// number.
fn define_class(
    alloc: Global,
    limits: ClassLimits,
    joined: &mut JoinedClasses,
    second: &Classes,
    k: ClassNo,
    sup: Option<ClassNo>,
) -> Result<Option<ClassNo>, AllocError>
    requires limits { AreClassLimits limits }
    requires number { k < length second.now }
    requires bare { is_array_class second.now k ≡ true → sup ≡ None }
    ensures { (first : List Class) (s : Joined) (c : Class) → AreJoined first joined.old s
        → slice_get second.now k ≡ Some c
        → IfOk result (λ o. IsDefinedAs first joined.old.numbers.items o joined.new
        (and_defined limits s (renamed limits s.classes (over c sup)))) }
{
    let number = joined.classes.len();
    let is_given = has_name(&joined.classes, second.name(k));
    let name = given_name(alloc, limits, is_given, number, second.name(k))?;
    match define_named(alloc, limits, &mut joined.classes, second, k, sup, &name)? {
        Ok(number) => {
            let line = line_over(alloc, &joined.classes, number, sup)?;
            joined.text.extend_from_slice(line.as_bytes())?;
            joined.known.push(line)?;
            Ok(Some(number))
        }
        Err(refusal) => none_defined(refusal),
    }
}

// Tells whether a class has the name.
fn has_name(classes: &Classes, name: &[u8]) -> bool
    ensures { result ≡ list_any (λ c. bytes_eq c.name name.now) classes.now }
{
    for k in 0..classes.len() {
        if classes.name(k) == name {
            return true;
        }
    }
    false
}

// Defines class k of the second dump with this super by this name, unless it is refused.
fn define_named(
    alloc: Global,
    limits: ClassLimits,
    classes: &mut Classes,
    second: &Classes,
    k: ClassNo,
    sup: Option<ClassNo>,
    name: &Name,
) -> Result<Result<ClassNo, Refusal>, AllocError>
    requires limits { AreClassLimits limits }
    requires number { k < length second.now }
    requires bare { is_array_class second.now k ≡ true → sup ≡ None }
    ensures { (c : Class) → slice_get second.now k ≡ Some c
        → IfOk result (IsDefined limits
        (record { name = name.now; sup = sup; fields = c.fields; is_array = c.is_array })
        classes.old classes.new) }
{
    // Its contract says that array classes have no fields.
    let _number = second.len();
    if second.is_array(k) {
        return Ok(classes.define_array(limits, name));
    }
    let fields = fields_of(alloc, second, k)?;
    let fields = &fields;
    Ok(classes.define(limits, NewClass { name, sup, fields }))
}

// Returns no number for a class that is refused. Fails if that is because an allocation failed.
fn none_defined(refusal: Refusal) -> Result<Option<ClassNo>, AllocError>
    ensures { IfOk result (λ o. (o ≡ None) × (refusal ≢ NoMemory)) }
{
    match refusal {
        Refusal::NoMemory => Err(AllocError),
        _ => Ok(None),
    }
}
