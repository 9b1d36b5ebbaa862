//! What is told of a dump that was converted. A write that fails changes nothing.
use crate::conversion::Converted;
use hprof_reader::Fault;

// A count, the words for what is counted, if it is one and if it isn't, and which of these are meant.
type Count = (u64, &'static str, &'static str, &'static str);

/// Tells on standard error, as the program of this name, what of a dump is left out, in one line, if anything is. The session
/// is for a heap with an area, or without one.
pub fn tell_left_out<R: Eprint>(rt: &R, program: &str, path: &str, area: bool, left: &Converted) {
    let counts = counts_of(area, left);
    if left.fault.is_none() && counts.iter().all(|it| it.0 == 0) {
        return;
    }
    let _ = eprint!(rt; "{program}: {path}: ");
    let mut is_first = true;
    for (count, one, many, which) in counts {
        let words = if count == 1 { one } else { many };
        is_first = tell_count(rt, is_first, count, words, which);
    }
    if let Some((fault, place)) = left.fault {
        if !is_first {
            let _ = eprint!(rt; ", ");
        }
        let words = fault_words(fault);
        let _ = eprint!(rt; "{words} at byte {place}");
    }
    let _ = eprintln!(rt; "");
}

// Returns the counts of what is left out, in the order in which they are told.
fn counts_of(area: bool, left: &Converted) -> [Count; 8] {
    let cut = if area {
        "cut to 2,097,147 elements"
    } else {
        "cut to 1,024 elements"
    };
    let unnumbered = "of classes without a number";
    let unmade = "to what isn't made";
    let unkept = "that no object has";
    [
        (left.arrays, "array", "arrays", cut),
        (left.classes, "class", "classes", "over 4,096"),
        (left.again, "object", "objects", "with the id of another"),
        (left.objects, "object", "objects", unnumbered),
        (left.references, "reference", "references", unmade),
        (left.roots, "root", "roots", "of what isn't made"),
        (left.fields, "field", "fields", "behind 64 slots"),
        (left.statics, "static field", "static fields", unkept),
    ]
}

// Tells one count, unless it is 0.
fn tell_count<R: Eprint>(rt: &R, is_first: bool, count: u64, words: &str, which: &str) -> bool {
    if count == 0 {
        return is_first;
    }
    if !is_first {
        let _ = eprint!(rt; ", ");
    }
    let _ = eprint!(rt; "{count} {words} {which}");
    false
}

// Returns the words for a fault.
fn fault_words(fault: Fault) -> &'static str {
    match fault {
        Fault::Short => "a record is cut",
        Fault::Header => "no header of a dump",
        Fault::Tag => "no sub-record has this tag",
        Fault::Type => "no kind has this code",
    }
}
