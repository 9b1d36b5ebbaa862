//! What the lines do that change the heap, though they are none of the grammar of sessions.
#![tactic(auto)]

mod cycle;
mod forward_steps;
mod noted_acts;
mod redo;
mod steps;

pub use cycle::{CycleCounts, collect_answer, run_cycle};
pub use forward_steps::{forward, forward_to, nothing_to_redo};
pub use noted_acts::{rewind_to, take_step};
pub use redo::Redo;
pub use steps::Steps;
