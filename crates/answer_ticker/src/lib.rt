//! A thread beside a session at a terminal, which says for how long a line is being answered.
#![tactic(auto)]

mod inlet;
mod keyword;
mod outlet;
mod progress;
mod seconds;
mod ticker;

pub use inlet::TickedInlet;
pub use outlet::TickedOutlet;
pub use ticker::Ticker;
