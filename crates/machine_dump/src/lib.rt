//! Dumps of a machine's pins: the pieces of a pin as a source, their law, and streams of them through a pipe, where the pieces
//! are made in a second thread and a gauge sees the bytes that are out.
#![tactic(auto)]

mod fresh_source;
mod gauge;
mod pin_source;
mod places;
mod size;
mod streams;
mod text;

pub use fresh_source::FreshSource;
pub use gauge::{Gauge, Silent};
pub use heap_class::LostCause;
pub use heap_trail::Machine;
pub use pin_source::{PinSource, cause_of, hand_out, parts_left};
pub use places::stream_place;
pub use size::dump_size;
pub use streams::stream_pin;
pub use text::pieces_are_text;
