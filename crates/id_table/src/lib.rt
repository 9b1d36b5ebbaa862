//! Identifiers in the order in which they came, each once, in a table that takes little memory.
#![tactic(auto)]

mod probing;
mod table;

pub use table::IdTable;
