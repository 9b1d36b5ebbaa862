//! The command line of heapdbg: the settings that its words ask for, and what is said of words that it refuses.
#![tactic(auto)]

pub mod command_line;
pub mod line_words;
mod option_rows;
pub mod refusal;
mod save_options;
mod session_options;
pub mod settings;
mod socket_options;
mod tip;

pub use heap_class::IdSize;
