//! Sessions whose last state is dumped to a file, a socket or memory.
#![tactic(auto)]

mod late_outlet;
mod line;
mod outlets;
mod save;

pub use outlets::Outlets;
pub use save::{LastDump, Saved};
