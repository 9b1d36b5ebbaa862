//! Classes and sizes of objects.
ghost use Rattle.std.specs.Prelude.{◌≡◌, None};
ghost use Rattle.session_lines.specs.Laws.{HasLine};
ghost use Rattle.hprof_pair.specs.Shapes.{class_in, is_same_shape, making, shape_in, shape_made};

use heap_class::{ClassNo, Kind};
use heap_step::Event;
use hprof_session::MADE;

/// The class and the size of an object: the same of two objects that one event could make.
#[derive(Clone, Copy, PartialEq, Eq, Debug)]
pub enum Shape {
    /// An instance of a class.
    Instance(ClassNo),
    /// An array of references of a class, with its number of elements.
    Array(ClassNo, u64),
    /// An array of values of a kind, with its number of elements.
    Values(Kind, u64),
}

/// Returns the class and size of the object that an event makes.
pub(crate) fn shape_made(event: Event) -> Option<Shape>
    ensures { result ≡ shape_made event }
{
    match event {
        Event::New { m: _, r: _, class } => Some(Shape::Instance(class)),
        Event::NewArray {
            m: _,
            r: _,
            class,
            len,
        } => Some(Shape::Array(class, len)),
        Event::NewPrim {
            m: _,
            r: _,
            kind,
            len,
        } => Some(Shape::Values(kind, len)),
        _ => None,
    }
}

/// Returns the event that makes such an object in register 5.
pub(crate) fn making(shape: Shape) -> Event
    ensures event { result ≡ making shape }
    ensures line { HasLine result }
{
    let (m, r) = (0, MADE);
    match shape {
        Shape::Instance(class) => Event::New { m, r, class },
        Shape::Array(class, len) => Event::NewArray { m, r, class, len },
        Shape::Values(kind, len) => Event::NewPrim { m, r, kind, len },
    }
}

/// Tells whether two objects have the same class and size.
pub(crate) fn is_same_shape(a: Shape, b: Shape) -> bool
    ensures { result ≡ is_same_shape a b }
{
    match (a, b) {
        (Shape::Instance(a), Shape::Instance(b)) => a == b,
        (Shape::Array(a, m), Shape::Array(b, n)) => a == b && m == n,
        (Shape::Values(a, m), Shape::Values(b, n)) => a.type_code() == b.type_code() && m == n,
        _ => false,
    }
}

/// Returns the number of class k of a dump in the heap, if it has one there.
pub(crate) fn class_in(numbers: &[Option<ClassNo>], k: ClassNo) -> Option<ClassNo>
    ensures { result ≡ class_in numbers.now k }
{
    match numbers.get(k as usize) {
        Some(number) => *number,
        None => None,
    }
}

/// Returns the class and size in a heap where the classes of the dump have these numbers.
pub(crate) fn shape_in(numbers: &[Option<ClassNo>], shape: Shape) -> Option<Shape>
    ensures { result ≡ shape_in numbers.now shape }
{
    match shape {
        Shape::Instance(k) => match class_in(numbers, k) {
            Some(class) => Some(Shape::Instance(class)),
            None => None,
        },
        Shape::Array(k, len) => match class_in(numbers, k) {
            Some(class) => Some(Shape::Array(class, len)),
            None => None,
        },
        Shape::Values(kind, len) => Some(Shape::Values(kind, len)),
    }
}
