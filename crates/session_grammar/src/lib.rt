//! The grammar of sessions: words, numbers, fields, and the command that a line asks for.
#![tactic(auto)]

pub mod command;
mod fields;
pub mod number;
pub mod spans;
pub mod words;

/// The largest number of bytes of any line, without its LF: that of a wide heap.
pub const LINE_LIMIT: usize = 32_768;
