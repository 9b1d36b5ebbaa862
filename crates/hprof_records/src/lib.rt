//! The records of HPROF: a head that is written, and heads that are followed to the end of a dump (the format comment of
//! OpenJDK's heapDumper.cpp).
#![tactic(auto)]

pub mod front;
pub mod head;
pub mod scan;
pub mod tags;

pub use front::Front;
pub use head::{HEAD_SIZE, write_head};
pub use scan::Scan;
