//! One object as a view shows it.
ghost use Rattle.std.specs.Prelude.{◌≡◌};
ghost use Rattle.hprof_text.specs.Image.{DumpedObject};

use heap_class::ObjKind;
use std::marker::Model;

/// An object that a view shows. Contracts see its id, its kind and its words.
#[derive(Drop)]
pub struct ShownObject<'a> {
    id: u64,
    kind: ObjKind,
    words: &'a [u64],
}

impl<'a> Model for ShownObject<'a> {
    ghost use Rattle.hprof_text.specs.Image.{DumpedObject};

    ghost Value = { DumpedObject };

    ghost view = { λ o. record { id = o.id; kind = o.kind; words = o.words.now } };
}

impl<'a> ShownObject<'a> {
    /// Returns the object with this id, this kind and these words.
    #[inline(always)]
    pub fn new(id: u64, kind: ObjKind, words: &'a [u64]) -> ShownObject<'a>
        ensures { result ≡ record { id = id; kind = kind; words = words.now } }
    {
        ShownObject { id, kind, words }
    }

    /// Returns the id of the object.
    #[inline(always)]
    pub fn id(&self) -> u64
        ensures { result ≡ self.now.id }
    {
        self.id
    }

    /// Returns the kind of the object.
    #[inline(always)]
    pub fn kind(&self) -> ObjKind
        ensures { result ≡ self.now.kind }
    {
        self.kind
    }

    /// Returns the words of the object, in slot order.
    #[inline(always)]
    pub fn words(&self) -> &[u64]
        ensures { result.now ≡ self.now.words }
    {
        self.words
    }
}
