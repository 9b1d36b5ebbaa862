//! Outlets for the bytes of a dump and the lines of a session, inlets for bytes that come, and sources of a dump's parts.
#![tactic(auto)]

pub mod ghost_list;
pub mod inlet;
pub mod outlet;
pub mod read_inlet;
pub mod source;
pub mod transfer;
pub mod write_outlet;

pub use heap_class::LostCause;
pub use hprof_text::{PIECE_LIMIT, Piece};
// Re-exports the ghost list in which ends of dumps and sessions note what they saw. The kit has such a type in its HTTP
// server alone. Nothing else of that crate is used.
pub use http_server::Log;
pub use inlet::{Inlet, Take};
pub use outlet::Outlet;
pub use read_inlet::ReadInlet;
pub use source::{Next, Source, SourceEnd};
pub use transfer::{Pumped, pump};
pub use write_outlet::WriteOutlet;

/// The outcome of a put.
#[derive(Clone, Copy, PartialEq, Eq, Debug)]
pub enum Put {
    /// This many bytes were taken from the front, at least one.
    Took(usize),
    /// Nothing was taken.
    Failed,
}
