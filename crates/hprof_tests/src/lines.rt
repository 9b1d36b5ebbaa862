//! Lines as docs/SESSIONS.md has them.
use heap_class::{Field, Fields, Kind, Name};
use heap_step::Event;
use session_lines::{Lines, push_event};
use std::alloc::{AllocError, Global};
use std::test::*;

#[test]
fn definitions(rt: HostRuntime) {
    let alloc = rt.alloc();
    assert!(rt; has_nodes_line(alloc, None, b"class Node - next:object val:int\n"));
    assert!(rt; has_nodes_line(alloc, Some(12), b"class Node 12 next:object val:int\n"));
    assert!(rt; has_array_line(alloc, b"[LNode;", b"array [LNode;\n"));
}

// Tells whether a definition of nodes has this line.
fn has_nodes_line(alloc: Global, sup: Option<u64>, wanted: &[u8]) -> bool {
    match nodes(alloc, sup) {
        Ok(event) => has_line(alloc, &event, wanted),
        Err(_) => false,
    }
}

// Returns the definition of a class of nodes, each with a reference and an int.
fn nodes(alloc: Global, sup: Option<u64>) -> Result<Event, AllocError> {
    let mut fields = Vec::new(alloc);
    push_field(alloc, &mut fields, b"next", Kind::Object)?;
    push_field(alloc, &mut fields, b"val", Kind::Int)?;
    let (name, fields) = (Name::new(alloc, b"Node")?, Fields::from_vec(fields));
    Ok(Event::Class { name, sup, fields })
}

// Adds a field.
fn push_field(
    alloc: Global,
    fields: &mut Vec<Field>,
    name: &[u8],
    kind: Kind,
) -> Result<(), AllocError> {
    let name = Name::new(alloc, name)?;
    fields.push(Field { name, kind })?;
    Ok(())
}

// Tells whether an event has this line.
fn has_line(alloc: Global, event: &Event, wanted: &[u8]) -> bool {
    match line(alloc, event) {
        Ok(text) => text.as_slice() == wanted,
        Err(_) => false,
    }
}

// Returns the line of an event.
fn line(alloc: Global, event: &Event) -> Result<Vec<u8>, AllocError> {
    let mut text = Vec::new(alloc);
    push_event(&mut text, event)?;
    Ok(text)
}

// Tells whether a class of arrays has this line.
fn has_array_line(alloc: Global, name: &[u8], wanted: &[u8]) -> bool {
    match Name::new(alloc, name) {
        Ok(name) => has_line(alloc, &Event::ArrayClass { name }, wanted),
        Err(_) => false,
    }
}

#[test]
fn new_objects(rt: HostRuntime) {
    let alloc = rt.alloc();
    let (m, r, class, len) = (1, 2, 3, 40);
    assert!(rt; has_line(alloc, &Event::New { m, r, class }, b"new 1 2 3\n"));
    assert!(rt;
        has_line(
            alloc,
            &Event::NewArray { m, r, class, len },
            b"newarray 1 2 3 40\n"
        )
    );
    let kind = Kind::Double;
    assert!(rt;
        has_line(
            alloc,
            &Event::NewPrim { m, r, kind, len },
            b"newprim 1 2 double 40\n"
        )
    );
}

#[test]
fn reads_and_writes(rt: HostRuntime) {
    let alloc = rt.alloc();
    let (m, to, from, slot) = (1, 2, 3, 4);
    assert!(rt; has_line(alloc, &Event::Load { m, to, from, slot }, b"load 1 2 3 4\n"));
    let (target, source, value) = (5, 6, u64::MAX);
    let store = Event::Store {
        m,
        target,
        slot,
        source,
    };
    assert!(rt; has_line(alloc, &store, b"store 1 5 4 6\n"));
    let put = Event::Put {
        m,
        target,
        slot,
        value,
    };
    assert!(rt; has_line(alloc, &put, b"put 1 5 4 18446744073709551615\n"));
}

#[test]
fn registers(rt: HostRuntime) {
    let alloc = rt.alloc();
    let (m, to, from_m, from, r) = (0, 1, 2, 3, 7);
    let moved = Event::Move {
        m,
        to,
        from_m,
        from,
    };
    assert!(rt; has_line(alloc, &moved, b"move 0 1 2 3\n"));
    assert!(rt; has_line(alloc, &Event::Clear { m, r }, b"clear 0 7\n"));
}

#[test]
fn steps_of_a_cycle(rt: HostRuntime) {
    let alloc = rt.alloc();
    assert!(rt; has_line(alloc, &Event::Snap, b"snap\n"));
    assert!(rt; has_line(alloc, &Event::Mark, b"mark\n"));
    assert!(rt; has_line(alloc, &Event::Drain, b"drain\n"));
    assert!(rt; has_line(alloc, &Event::Finish, b"finish\n"));
    assert!(rt; has_line(alloc, &Event::Sweep { region: 255 }, b"sweep 255\n"));
}

#[test]
fn one_line_after_another(rt: HostRuntime) -> Result<(), Fail> {
    let mut lines = Lines::new(rt.alloc());
    lines.push(&Event::Snap).ok().ok_or("memory")?;
    lines
        .push(&Event::Clear { m: 0, r: 10 })
        .ok()
        .ok_or("memory")?;
    assert_eq!(rt; lines.as_slice(), b"snap\nclear 0 10\n".as_slice());
    lines.clear();
    assert!(rt; lines.as_slice().is_empty());
    Ok(())
}
