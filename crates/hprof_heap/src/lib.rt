//! What the heap is that the session of a dump makes.
#![tactic(auto)]

mod dump_heap;

pub use dump_heap::{session_is_taken_unless_full, session_makes_heap};
