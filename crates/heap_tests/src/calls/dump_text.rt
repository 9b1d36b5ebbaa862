//! The dump of one point in a list, byte for byte, by hand from the format.
use crate::scripts::{ONE_POINT, point};
use heap_class::{Classes, IdSize, NewClass, ObjKind};
use heap_step::Event;
use heap_world::NARROW_LIMITS;
use hprof_text::{ListView, ListedObject, piece_of, text_len};
use std::alloc::Global;
use std::test::Fail;

// The id of the point.
const ID: u64 = 0x1000_0000;

#[test]
fn one_point(rt: HostRuntime) -> Result<(), Fail> {
    assert!(rt; is_dumped(rt.alloc()));
    Ok(())
}

// Returns whether the dump of one point, which the second register names, has its pieces.
fn is_dumped(alloc: Global) -> bool {
    let mut classes = Classes::new(alloc);
    let mut registers = Vec::new(alloc);
    let mut objects = Vec::new(alloc);
    let made = has_class(alloc, &mut classes)
        && registers.push(0).is_ok()
        && registers.push(ID).is_ok()
        && has_object(alloc, &mut objects);
    let view = ListView::new(IdSize::Eight, classes, registers, objects);
    made && has_pieces(alloc, &view)
}

// Defines the class of points. Returns whether that was done.
fn has_class(alloc: Global, classes: &mut Classes) -> bool {
    let class = point(alloc);
    match &class {
        Ok(Event::Class { name, fields, .. }) => {
            let sup = None;
            classes
                .define(NARROW_LIMITS.classes, NewClass { name, sup, fields })
                .is_ok()
        }
        _ => false,
    }
}

// Adds one point. Returns whether that was done.
fn has_object(alloc: Global, objects: &mut Vec<ListedObject>) -> bool {
    match [7, 0].to_vec(alloc) {
        Ok(words) => {
            let kind = ObjKind::Instance(0);
            objects
                .push(ListedObject {
                    id: ID,
                    kind,
                    words,
                })
                .is_ok()
        }
        Err(_) => false,
    }
}

// Returns whether a dump has the pieces of one point, and nothing more.
fn has_pieces(alloc: Global, view: &Option<ListView>) -> bool {
    let Some(view) = view else {
        return false;
    };
    text_len(view) == 301
        && has_bytes(alloc, view, 0, &ONE_POINT[..143], false)
        && has_bytes(alloc, view, 1, &ONE_POINT[143..292], false)
        && has_bytes(alloc, view, 2, &ONE_POINT[292..], true)
        && has_bytes(alloc, view, 3, &[], true)
}

// Returns whether a piece has these bytes, and is the last or isn't.
fn has_bytes(alloc: Global, view: &ListView, index: u64, bytes: &[u8], last: bool) -> bool {
    match piece_of(alloc, view, index, 0) {
        Ok(piece) => piece.bytes.as_slice() == bytes && piece.last == last,
        Err(_) => false,
    }
}
