//! A dump that was worked out by hand from the format, and lines as docs/SESSIONS.md has them.
use heap_class::IdSize;
use hprof_reader::{Fault, Record, Root, SubRecord};
use hprof_session::{
    Item, PLACES, Survey, Walk, item_at, push_fetch, push_keep, push_place, walk_over,
};
use session_lines::Lines;
use std::alloc::Global;
use std::test::*;

// The records of a dump with identifiers of 4 bytes, behind its header: a name, a segment with two roots, a segment with one, and
// the end. The roots are of a sticky class, a monitor and an object that nothing is known of.
const RECORDS: &[u8] = b"\
\x01\0\0\0\0\0\0\0\x06\0\0\0\x0aAb\
\x1c\0\0\0\x01\0\0\0\x0a\x05\0\0\0\x20\x07\0\0\0\x30\
\x0c\0\0\0\x02\0\0\0\x05\xff\0\0\0\x40\
\x2c\0\0\0\0\0\0\0\0";

#[test]
fn items_of_a_dump(rt: HostRuntime) -> Result<(), Fail> {
    let next = item_at(walk_of(RECORDS)).ok().flatten().ok_or("a name")?;
    let (tag, time, body) = (0x01, 0, b"\0\0\0\x0aAb".as_slice());
    assert_eq!(rt; next.0, Item::Record(Record { tag, time, body }));
    let next = item_at(next.1).ok().flatten().ok_or("a segment")?;
    let (tag, time, body) = (0x1c, 1, b"\x05\0\0\0\x20\x07\0\0\0\x30".as_slice());
    assert_eq!(rt; next.0, Item::Record(Record { tag, time, body }));
    let next = item_at(next.1).ok().flatten().ok_or("a class")?;
    assert_eq!(rt; next.0, root(0x05, 0x20));
    let next = item_at(next.1).ok().flatten().ok_or("a monitor")?;
    assert_eq!(rt; next.0, root(0x07, 0x30));
    let next = item_at(next.1).ok().flatten().ok_or("a heap dump")?;
    let next = item_at(next.1).ok().flatten().ok_or("a root")?;
    assert_eq!(rt; next.0, root(0xff, 0x40));
    let next = item_at(next.1).ok().flatten().ok_or("the end's record")?;
    assert_eq!(rt; item_at(next.1), Ok(None));
    Ok(())
}

// Returns a walk over records.
fn walk_of(rest: &[u8]) -> Walk<'_> {
    Walk {
        ids: IdSize::Four,
        segment: &[],
        rest,
    }
}

// Returns a root of this kind, of which nothing more is said.
fn root(tag: u8, id: u64) -> Item<'static> {
    let more = b"".as_slice();
    Item::Sub(SubRecord::Root(Root { tag, id, more }))
}

#[test]
fn surveys_of_whole_dumps(rt: HostRuntime) {
    let (items, place, fault) = (7, 31 + 57, None);
    let whole = Survey {
        items,
        place,
        fault,
    };
    assert_eq!(rt; survey(RECORDS), whole);
    let (items, place) = (0, 31);
    let empty = Survey {
        items,
        place,
        fault,
    };
    assert_eq!(rt; survey(b""), empty);
}

// Returns what a walk over records behind a header of 31 bytes comes to.
fn survey(rest: &[u8]) -> Survey {
    let (ids, segment) = (IdSize::Four, b"".as_slice());
    walk_over(Walk { ids, segment, rest }, 31)
}

#[test]
fn surveys_end_at_a_fault(rt: HostRuntime) {
    // The last record lacks a byte.
    let (items, place, fault) = (6, 31 + 48, Some(Fault::Short));
    let cut = Survey {
        items,
        place,
        fault,
    };
    assert_eq!(rt; survey(&RECORDS[..56]), cut);
    // The second root has a tag that no sub-record has.
    let other = b"\x1c\0\0\0\x01\0\0\0\x0a\x05\0\0\0\x20\x0a\0\0\0\x30\x2c\0\0\0\0\0\0\0\0";
    let (items, place, fault) = (2, 31 + 14, Some(Fault::Tag));
    let unknown = Survey {
        items,
        place,
        fault,
    };
    assert_eq!(rt; survey(other), unknown);
    // The segment ends within its second root, and another record follows.
    let short = b"\x1c\0\0\0\x01\0\0\0\x09\x05\0\0\0\x20\x07\0\0\0\x2c\0\0\0\0\0\0\0\0";
    let (items, place, fault) = (2, 31 + 14, Some(Fault::Short));
    let within = Survey {
        items,
        place,
        fault,
    };
    assert_eq!(rt; survey(short), within);
}

#[test]
fn places_of_objects(rt: HostRuntime) {
    let alloc = rt.alloc();
    let first = b"newarray 0 0 7 1024\nnewarray 0 4 7 1024\nstore 0 0 0 4\n";
    assert!(rt; has_place(alloc, 0, first));
    assert!(rt; has_place(alloc, 1, b""));
    assert!(rt; has_place(alloc, 1024, b"newarray 0 4 7 1024\nstore 0 0 1 4\n"));
    let second = b"newarray 0 1 7 1024\nnewarray 0 4 7 1024\nstore 0 1 0 4\n";
    assert!(rt; has_place(alloc, 1_048_576, second));
    assert!(rt; has_place(alloc, PLACES - 1, b""));
}

// Tells whether these lines make the place of object n, if the arrays have class 7.
fn has_place(alloc: Global, n: u64, wanted: &[u8]) -> bool {
    let mut lines = Lines::new(alloc);
    push_place(&mut lines, 7, n).is_ok() && lines.as_slice() == wanted
}

#[test]
fn objects_are_kept_and_fetched(rt: HostRuntime) {
    let alloc = rt.alloc();
    assert!(rt; has_keep(alloc, 0, b"store 0 4 0 5\n"));
    assert!(rt; has_keep(alloc, 2047, b"store 0 4 1023 5\n"));
    // The object in slot 3 of the array in slot 2 of the array that register 1 names.
    assert!(rt; has_fetch(alloc, 1_050_627, b"load 0 4 1 2\nload 0 6 4 3\n"));
    assert!(rt; has_fetch(alloc, PLACES - 1, b"load 0 4 3 1023\nload 0 6 4 1023\n"));
}

// Tells whether this line keeps object n.
fn has_keep(alloc: Global, n: u64, wanted: &[u8]) -> bool {
    let mut lines = Lines::new(alloc);
    push_keep(&mut lines, n).is_ok() && lines.as_slice() == wanted
}

// Tells whether these lines have register 6 name object n.
fn has_fetch(alloc: Global, n: u64, wanted: &[u8]) -> bool {
    let mut lines = Lines::new(alloc);
    push_fetch(&mut lines, n, 6).is_ok() && lines.as_slice() == wanted
}
