//! Records worked out by hand from the format.
use heap_class::{IdSize, Kind};
use hprof_reader::{
    Fault, Instance, ObjectArray, PrimArray, Root, SubRecord, header_at, record_at, sub_record_at,
};
use std::test::*;

// A dump of a JVM in small, with identifiers of 4 bytes.
const SMALL: &[u8] = b"JAVA PROFILE 1.0.2\0\
\0\0\0\x04\0\0\x01\x80\0\0\0\x02\
\x01\0\0\0\x05\0\0\0\x06\0\0\0\x0aAb\
\x63\0\0\0\0\0\0\0\x01!\
\x0c\0\0\0\0\0\0\0\x0e\x04\0\0\0\x30\0\0\0\x01\x05\0\0\0\x20\
\x2c\0\0\0\0\0\0\0\0";

#[test]
fn records_of_a_small_dump(rt: HostRuntime) -> Result<(), Fail> {
    let (header, rest) = header_at(SMALL).ok().ok_or("a dump")?;
    assert_eq!(rt; header.ids, IdSize::Four);
    assert_eq!(rt; header.time, 0x180_0000_0002);
    let (name, rest) = record_at(rest).ok().ok_or("a record")?;
    assert_eq!(rt; name.tag, 1);
    assert_eq!(rt; name.time, 5);
    assert_eq!(rt; name.body, b"\0\0\0\x0aAb".as_slice());
    let (unknown, rest) = record_at(rest).ok().ok_or("a record")?;
    assert_eq!(rt; unknown.tag, 0x63);
    assert_eq!(rt; unknown.body, b"!".as_slice());
    let (_heap, rest) = record_at(rest).ok().ok_or("a record")?;
    let (end, rest) = record_at(rest).ok().ok_or("a record")?;
    assert_eq!(rt; end.tag, 0x2c);
    assert!(rt; rest.is_empty());
    assert_eq!(rt; record_at(rest), Err(Fault::Short));
    Ok(())
}

#[test]
fn headers_of_no_dump(rt: HostRuntime) {
    assert_eq!(rt;
        header_at(b"JAVA PROFILE 1.0.1\0\0\0\0\x04\0\0\0\0\0\0\0\0"),
        Err(Fault::Header)
    );
    assert_eq!(rt;
        header_at(b"JAVA PROFILE 1.0.2\0\0\0\0\x05\0\0\0\0\0\0\0\0"),
        Err(Fault::Header)
    );
    assert_eq!(rt;
        header_at(b"JAVA PROFILE 1.0.2\0\0\0\0\x08\0\0\0\0\0\0\0"),
        Err(Fault::Short)
    );
}

#[test]
fn roots(rt: HostRuntime) -> Result<(), Fail> {
    let bytes = b"\x02\0\0\0\x30\0\0\0\x01\0\0\0\x07\x05\0\0\0\x40\xff";
    let (local, rest) = sub_record_at(IdSize::Four, bytes).ok().ok_or("a root")?;
    let more = b"\0\0\0\x01\0\0\0\x07".as_slice();
    let (tag, id) = (2, 0x30);
    assert_eq!(rt; local, SubRecord::Root(Root { tag, id, more }));
    let (class, rest) = sub_record_at(IdSize::Four, rest).ok().ok_or("a root")?;
    let (tag, id, more) = (5, 0x40, b"".as_slice());
    assert_eq!(rt; class, SubRecord::Root(Root { tag, id, more }));
    assert_eq!(rt; sub_record_at(IdSize::Four, rest), Err(Fault::Short));
    assert_eq!(rt;
        sub_record_at(IdSize::Four, b"\x09\0\0\0\x30"),
        Err(Fault::Tag)
    );
    Ok(())
}

// An instance, an array of references, and an array of shorts.
const OBJECTS: &[u8] = b"\x21\0\0\0\x30\0\0\0\x01\0\0\0\x20\0\0\0\x03abc\
\x22\0\0\0\x38\0\0\0\x02\0\0\0\x02\0\0\0\x28\0\0\0\0\0\0\0\x30\
\x23\0\0\0\x40\0\0\0\x03\0\0\0\x02\x09\x01\x02\x03\x04";

#[test]
fn objects(rt: HostRuntime) -> Result<(), Fail> {
    let (instance, rest) = sub_record_at(IdSize::Four, OBJECTS)
        .ok()
        .ok_or("an instance")?;
    let (id, trace, class, values) = (0x30, 1, 0x20, b"abc".as_slice());
    let wanted = Instance {
        id,
        trace,
        class,
        values,
    };
    assert_eq!(rt; instance, SubRecord::Instance(wanted));
    let (array, rest) = sub_record_at(IdSize::Four, rest).ok().ok_or("an array")?;
    let (id, trace, count, class) = (0x38, 2, 2, 0x28);
    let elements = b"\0\0\0\0\0\0\0\x30".as_slice();
    let wanted = ObjectArray {
        id,
        trace,
        count,
        class,
        elements,
    };
    assert_eq!(rt; array, SubRecord::ObjectArray(wanted));
    let (shorts, rest) = sub_record_at(IdSize::Four, rest).ok().ok_or("an array")?;
    let (id, trace, count, kind) = (0x40, 3, 2, Kind::Short);
    let elements = b"\x01\x02\x03\x04".as_slice();
    let wanted = PrimArray {
        id,
        trace,
        count,
        kind,
        elements,
    };
    assert_eq!(rt; shorts, SubRecord::PrimArray(wanted));
    assert!(rt; rest.is_empty());
    assert_eq!(rt;
        sub_record_at(IdSize::Four, b"\x23\0\0\0\x40\0\0\0\x03\0\0\0\x02\x03\x01"),
        Err(Fault::Type)
    );
    Ok(())
}

// A class with a constant (an int), two static fields (a boolean and an object) and a field (a long), and one byte more.
const CLASS: [u8; 71] =
    *b"\x20\0\0\0\x20\0\0\0\x01\0\0\0\x10\0\0\0\x11\0\0\0\0\0\0\0\x12\0\0\0\0\0\0\0\0\0\0\0\x0c\
\0\x01\0\x07\x0a\0\0\0\x2a\
\0\x02\0\0\0\x0b\x04\x01\0\0\0\x0c\x02\0\0\0\x30\
\0\x01\0\0\0\x0d\x0b!";

// Returns how many sub-records there are before the end or the first fault.
fn count(bytes: &[u8]) -> usize {
    let mut rest = bytes;
    for found in 0..bytes.len() {
        match sub_record_at(IdSize::Four, rest) {
            Ok((_, after)) => rest = after,
            Err(_) => return found,
        }
    }
    bytes.len()
}

#[test]
fn a_class(rt: HostRuntime) -> Result<(), Fail> {
    let (class, rest) = sub_record_at(IdSize::Four, &CLASS).ok().ok_or("a class")?;
    assert_eq!(rt; rest, b"!".as_slice());
    let SubRecord::Class(class) = class else {
        return Err("a class".into());
    };
    assert_eq!(rt; class.head.super_id, 0x10);
    assert_eq!(rt; class.head.loader, 0x11);
    assert_eq!(rt; class.head.domain, 0x12);
    assert_eq!(rt; class.head.size, 12);
    assert_eq!(rt; class.constants.count, 1);
    assert_eq!(rt;
        class.statics.bytes,
        b"\0\0\0\x0b\x04\x01\0\0\0\x0c\x02\0\0\0\x30".as_slice()
    );
    assert_eq!(rt; class.fields.bytes, b"\0\0\0\x0d\x0b".as_slice());
    Ok(())
}

#[test]
fn cut_records_are_short(rt: HostRuntime) {
    assert!(rt; are_beginnings_short());
    assert!(rt; are_headers_short());
}

// Tells whether each beginning of the class is short.
fn are_beginnings_short() -> bool {
    for end in 0..CLASS.len() - 1 {
        if sub_record_at(IdSize::Four, &CLASS[..end]) != Err(Fault::Short) {
            return false;
        }
    }
    true
}

// Tells whether no beginning of a header is a header.
fn are_headers_short() -> bool {
    for end in 0..31 {
        if header_at(&SMALL[..end]) != Err(Fault::Short) {
            return false;
        }
    }
    true
}

#[test]
fn each_byte_changed(rt: HostRuntime) {
    assert_eq!(rt; count_changed(0x20), 1);
    assert!(rt; count_changed(0) <= 2);
    assert!(rt; count_changed(1) <= 2);
    assert!(rt; count_changed(0x0b) <= 2);
    assert!(rt; count_changed(0x7f) <= 2);
    assert!(rt; count_changed(0xff) <= 2);
}

// Returns how many sub-records there are, at most, if one byte of the class has this value.
fn count_changed(value: u8) -> usize {
    let mut most = 0;
    for at in 0..CLASS.len() {
        let mut bytes = CLASS;
        bytes[at] = value;
        most = most.max(count(&bytes));
    }
    most
}
