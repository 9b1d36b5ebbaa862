//! The surplus: an answer of a source that is in no batch yet.
use dump_pump::Next;

/// An answer of a source that is in no batch yet, and the largest number of parts that it had left before.
#[derive(Drop)]
pub struct Surplus {
    pub next: Next,
    pub left: u64,
}
