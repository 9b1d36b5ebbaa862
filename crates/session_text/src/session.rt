//! What a session keeps.
ghost use Rattle.std.specs.Prelude.{◌≡◌, [], IfOk};

use crate::buffer::Buffer;
use crate::limits::SessionLimits;
use crate::page::Page;
use session_grammar::spans::FieldSpans;
use std::alloc::{AllocError, Global};

/// What stays the same in a session: its allocator, the time that stands in the header of each dump, in milliseconds, and what
/// it may have at most.
#[derive(Clone, Copy)]
pub struct Context {
    pub alloc: Global,
    pub time: u64,
    pub limits: SessionLimits,
}

/// What a session keeps between its lines. All memory is allocated when it begins.
#[derive(Drop)]
pub struct Session {
    /// The bytes that were read and aren't answered yet.
    pub buffer: Buffer,
    /// The text that isn't written yet.
    pub page: Page,
    /// Room for the fields of a class.
    pub spans: FieldSpans,
}

impl Session {
    /// Creates a session that has read nothing. Fails if an allocation fails.
    pub fn new(alloc: Global) -> Result<Session, AllocError>
        ensures { IfOk result (λ s. (s.buffer ≡ []) × (s.page ≡ [])) }
    {
        Ok(Session {
            buffer: Buffer::new(alloc)?,
            page: Page::new(alloc)?,
            spans: FieldSpans::new(alloc)?,
        })
    }
}
