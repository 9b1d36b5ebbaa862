//! The places of a line's fields.
ghost use Rattle.std.specs.Prelude.{◌≡◌, ◌<◌, ◌++◌, [], ◌∷◌, length, IfOk};
ghost use Rattle.session_grammar.specs.declared.spans.TheConstants.{SPAN_ROOM};

use heap_class::Kind;
use std::alloc::{AllocError, Global};
use std::marker::Model;

// The largest number of fields of a line: a field has 4 bytes or more, a line at most 32,768.
const SPAN_ROOM: usize = 8192;

/// The place of a field's name, its size, and the field's kind. It is small, since each session has room for many.
#[derive(Clone, Copy)]
pub struct FieldSpan {
    pub start: u16,
    pub size: u16,
    pub kind: Kind,
}

/// The fields of a line, none of them copied. All memory is allocated when the list is made, so that no line allocates before
/// all its fields are known to be good. Contracts see the list.
#[derive(Drop)]
pub struct FieldSpans(Vec<FieldSpan>);

impl Model for FieldSpans {
    ghost use Rattle.std.specs.Prelude.{◌≤◌, List, vec_capacity};
    ghost use Rattle.session_grammar.specs.declared.spans.FieldSpan.{FieldSpan};
    ghost use Rattle.session_grammar.specs.declared.spans.TheConstants.{SPAN_ROOM};

    ghost Value = { List FieldSpan };

    ghost view = { λ m. m.0.items };

    ghost invariant = { λ m. SPAN_ROOM ≤ vec_capacity m.0 };
}

impl FieldSpans {
    /// Creates an empty list with room for the fields of any line. Fails if the allocation fails.
    pub fn new(alloc: Global) -> Result<FieldSpans, AllocError>
        ensures { IfOk result (λ m. m ≡ []) }
    {
        Ok(FieldSpans(Vec::with_capacity(alloc, SPAN_ROOM)?))
    }

    /// Returns the fields.
    pub fn as_slice(&self) -> &[FieldSpan]
        ensures { result.now ≡ self.now }
    {
        self.0.as_slice()
    }

    /// Drops all fields.
    pub fn clear(&mut self)
        ensures { self.new ≡ [] }
    {
        self.0.clear();
    }

    /// Adds a field.
    pub fn push(&mut self, span: FieldSpan)
        requires { length self.old < SPAN_ROOM }
        ensures { self.new ≡ self.old ++ span ∷ [] }
    {
        self.0.push_reserved(span);
    }
}
