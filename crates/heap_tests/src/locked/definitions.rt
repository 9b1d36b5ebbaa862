//! Audits of definitions of classes: of short ones, and of long ones, which aren't kept whole.
use super::scenes::{Scene, play_scene};
use super::shared::{Stage, did};
use heap_class::Kind;
use heap_lock::{Action, Event, Heap, Receipt, Seat, Verdict, audit};
use heap_runtime::define_class;
use std::alloc::Global;
use std::sync::Wait;
use std::test::*;

// A class whose fields have one kind: its name, the kind, and the names of its fields.
#[derive(Clone, Copy)]
struct Shape {
    name: &'static [u8],
    kind: Kind,
    fields: &'static [&'static [u8]],
}

// A class, another one, and what audits say of a receipt of the first one's definition beside each.
#[derive(Clone, Copy)]
struct Case {
    class: Shape,
    other: Shape,
    said: (Verdict, Verdict),
}

// A name of 64 letters.
const LONG: &[u8] = b"LLLLLLLLLLLLLLLLLLLLLLLLLLLLLLLLLLLLLLLLLLLLLLLLLLLLLLLLLLLLLLLL";

// Eight names of 32 letters together, and of 33.
const SHORT: &[&[u8]] = &[
    b"aaaa", b"bbbb", b"cccc", b"dddd", b"eeee", b"ffff", b"gggg", b"hhhh",
];

const LONGER: &[&[u8]] = &[
    b"aaaa", b"bbbb", b"cccc", b"dddd", b"eeee", b"ffff", b"gggg", b"hhhhh",
];

// Nine names of one letter.
const NINE: &[&[u8]] = &[b"a", b"b", b"c", b"d", b"e", b"f", b"g", b"h", b"i"];

const TOLD: (Verdict, Verdict) = (Verdict::Holds, Verdict::Fails);

const UNTOLD: (Verdict, Verdict) = (Verdict::Dropped, Verdict::Dropped);

// Definitions that are kept whole, and others: of names with the same letters, of another kind, of a field more; then definitions
// with a letter and with a field too many.
const CASES: &[Case] = &[
    Case {
        class: Shape {
            name: b"Point",
            kind: Kind::Int,
            fields: &[b"x", b"y"],
        },
        other: Shape {
            name: b"Poin",
            kind: Kind::Int,
            fields: &[b"tx", b"y"],
        },
        said: TOLD,
    },
    Case {
        class: Shape {
            name: b"Line",
            kind: Kind::Int,
            fields: &[b"ab", b"c"],
        },
        other: Shape {
            name: b"Line",
            kind: Kind::Int,
            fields: &[b"a", b"bc"],
        },
        said: TOLD,
    },
    Case {
        class: Shape {
            name: LONG,
            kind: Kind::Int,
            fields: SHORT,
        },
        other: Shape {
            name: LONG,
            kind: Kind::Long,
            fields: SHORT,
        },
        said: TOLD,
    },
    Case {
        class: Shape {
            name: b"None",
            kind: Kind::Int,
            fields: &[],
        },
        other: Shape {
            name: b"None",
            kind: Kind::Int,
            fields: &[b"x"],
        },
        said: TOLD,
    },
    Case {
        class: Shape {
            name: LONG,
            kind: Kind::Int,
            fields: LONGER,
        },
        other: Shape {
            name: LONG,
            kind: Kind::Int,
            fields: SHORT,
        },
        said: UNTOLD,
    },
    Case {
        class: Shape {
            name: b"Nine",
            kind: Kind::Int,
            fields: NINE,
        },
        other: Shape {
            name: b"Nine",
            kind: Kind::Int,
            fields: &[],
        },
        said: UNTOLD,
    },
];

/// Defines the class of each case twice, the second time in vain. Returns whether audits say what they should.
pub fn defining<L: Heap, R: Wait>(stage: &Stage<'_, L, R>, user: &mut Seat<L>) -> bool {
    for case in CASES {
        if !is_audited(stage, user, case) || !is_audited(stage, user, case) {
            return false;
        }
    }
    true
}

// Defines the class of a case. Returns whether audits say of the receipt what they should.
fn is_audited<L: Heap, R: Wait>(stage: &Stage<'_, L, R>, user: &mut Seat<L>, case: &Case) -> bool {
    let Some(event) = definition(stage.alloc, case.class) else {
        return false;
    };
    match did(stage.rt, stage.shared, user, event) {
        Some(receipt) => {
            says(stage, case.class, receipt, case.said.0)
                && says(stage, case.other, receipt, case.said.1)
        }
        None => false,
    }
}

// Returns the definition of a class, or None if an allocation fails.
fn definition(alloc: Global, class: Shape) -> Option<Event> {
    let mut fields = Vec::new(alloc);
    for field in class.fields {
        fields.push((*field, class.kind)).ok()?;
    }
    define_class(alloc, class.name, None, fields.as_slice()).ok()
}

// Returns whether an audit says this of a receipt beside the definition of a class.
fn says<L: Heap, R: Wait>(
    stage: &Stage<'_, L, R>,
    class: Shape,
    receipt: Receipt,
    said: Verdict,
) -> bool {
    match definition(stage.alloc, class) {
        Some(event) => {
            let kept = stage.shared.lock(stage.rt);
            audit(&*kept, &[(Action::Step(event), receipt)]) == said
        }
        None => false,
    }
}

#[test]
fn definitions_are_audited(rt: HostRuntime) -> Result<(), Fail> {
    assert!(rt; play_scene(&rt, rt.alloc(), Scene::Defining));
    Ok(())
}
