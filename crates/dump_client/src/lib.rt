//! The client of a dump: it puts out what a socket gives, and tells whether that is a whole dump.
#![tactic(auto)]

pub mod fetch_gauge;
pub mod intake;
pub mod line;
pub mod word;

pub use fetch_gauge::FetchGauge;
pub use intake::{Fetched, Finish, fetch};
pub use line::write_last;
pub use word::say_word;
