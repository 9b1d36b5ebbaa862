//! Which objects of a view are listed.
ghost use Rattle.std.specs.Prelude.{◌≡◌};
ghost use Rattle.heap_questions.specs.Wanted.{holds, is_of_class, is_wanted};

use heap_class::{ClassNo, ObjKind};

/// Which objects of a view are listed.
#[derive(Clone, Copy)]
pub enum Wanted {
    /// All.
    All,
    /// The instances, or the arrays, of a class.
    OfClass(ClassNo),
    /// Those of a class that have a word in a slot.
    Holding {
        class: ClassNo,
        slot: u64,
        word: u64,
    },
}

// Tells whether an object of this kind is one of a class.
pub(crate) fn is_of_class(kind: ObjKind, class: ClassNo) -> bool
    ensures { result ≡ is_of_class kind class }
{
    match kind {
        ObjKind::Instance(own) | ObjKind::Array(own) => own as u64 == class,
        ObjKind::Prim(_) => false,
    }
}

// Tells whether an object of this kind with these words is listed.
pub(crate) fn is_wanted(wanted: Wanted, kind: ObjKind, words: &[u64]) -> bool
    ensures { result ≡ is_wanted wanted kind words.now }
{
    match wanted {
        Wanted::All => true,
        Wanted::OfClass(class) => is_of_class(kind, class),
        Wanted::Holding { class, slot, word } => is_of_class(kind, class)
            && holds(words, slot, word),
    }
}

// Tells whether an object with these words has a word in a slot.
fn holds(words: &[u64], slot: u64, word: u64) -> bool
    ensures { result ≡ holds words.now slot word }
{
    match words.get(slot as usize) {
        Some(held) => *held == word,
        None => false,
    }
}
