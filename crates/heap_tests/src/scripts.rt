//! What tests begin with: the class of points, the making of one, and the dump of one.
use heap_class::{Field, Fields, Kind, Name};
use heap_step::Event;
use std::alloc::{AllocError, Global};

/// The dump of a point with x 7, which one register names, by hand from the format. Its opening has 143 bytes: the header, 31;
/// the names `Point`, `x` and `y`, 22 and twice 18; the class, 33; and the trace, 21. Its segment has 149, its end 9.
pub const ONE_POINT: &[u8] = b"\
JAVA PROFILE 1.0.2\0\0\0\0\x08\0\0\0\0\0\0\0\0\
\x01\0\0\0\0\0\0\0\x0d\0\0\0\0\0\0\0\x01Point\
\x01\0\0\0\0\0\0\0\x09\0\0\0\0\0\0\0\x02x\
\x01\0\0\0\0\0\0\0\x09\0\0\0\0\0\0\0\x03y\
\x02\0\0\0\0\0\0\0\x18\0\0\0\x01\0\0\0\0\0\x10\0\0\0\0\0\x01\0\0\0\0\0\0\0\x01\
\x05\0\0\0\0\0\0\0\x0c\0\0\0\x01\0\0\0\0\0\0\0\0\
\x1c\0\0\0\0\0\0\0\x8c\
\x20\0\0\0\0\0\x10\0\0\0\0\0\x01\
\0\0\0\0\0\0\0\0\0\0\0\0\0\0\0\0\0\0\0\0\0\0\0\0\0\0\0\0\0\0\0\0\0\0\0\0\0\0\0\0\0\0\0\0\0\0\
\0\0\0\0\0\x08\0\0\0\0\0\x02\0\0\0\0\0\0\0\x02\x0a\0\0\0\0\0\0\0\x03\x0a\
\x05\0\0\0\0\0\x10\0\0\
\x21\0\0\0\0\x10\0\0\0\0\0\0\x01\0\0\0\0\0\x10\0\0\0\0\0\x08\0\0\0\x07\0\0\0\0\
\xff\0\0\0\0\x10\0\0\0\
\x2c\0\0\0\0\0\0\0\0";

/// Creates the definition of the class of points, which have two ints `x` and `y`.
pub fn point(alloc: Global) -> Result<Event, AllocError> {
    let mut fields = Vec::new(alloc);
    push_x_and_y(alloc, &mut fields)?;
    Ok(Event::Class {
        name: Name::new(alloc, b"Point")?,
        sup: None,
        fields: Fields::from_vec(fields),
    })
}

// Adds two int fields, `x` and `y`.
fn push_x_and_y(alloc: Global, fields: &mut Vec<Field>) -> Result<(), AllocError> {
    push_int(alloc, fields, b"x")?;
    push_int(alloc, fields, b"y")
}

// Adds an int field.
fn push_int(alloc: Global, fields: &mut Vec<Field>, name: &[u8]) -> Result<(), AllocError> {
    let name = Name::new(alloc, name)?;
    let kind = Kind::Int;
    fields.push(Field { name, kind })?;
    Ok(())
}

/// Returns the making of an instance of the first class in a register.
pub fn new(r: u64) -> Event {
    Event::New { m: 0, r, class: 0 }
}

/// Creates a write to x of the point in the first register.
pub fn put_x(value: u64) -> Event {
    Event::Put {
        m: 0,
        target: 0,
        slot: 0,
        value,
    }
}
