//! The lines of a session that ask for events, written: each is read as the event that it was written for.
#![tactic(auto)]

mod event_lines;
mod laws;
mod lines;

pub use event_lines::push_event;
pub use laws::lines_are_read;
pub use lines::Lines;
