//! Dumps of a shared heap through a pipe: the lock for one piece at a time, and the outlet in another thread. Dumps of its
//! current state, also for the clients of a port, three at once.
#![tactic(auto)]

mod admission;
mod asking;
pub mod dump;
pub mod failures;
pub mod guard;
pub mod laws;
pub mod listener;
pub mod socket;
pub mod source;
pub mod streams;
pub mod tending;
pub mod term;
pub mod watch;
pub mod words;

pub use dump::dump_current;
pub use dump_pipe::{AskSeat, Cancel, FeedSeat, Meter, NewMeter, OutSeat, ReadSeat};
pub use guard::{DumpGuard, Guarded};
pub use laws::streams_are_text;
pub use listener::DumpListener;
pub use socket::DumpSocket;
pub use source::ToldSource;
pub use streams::{LivePin, StreamSeats, stream};
pub use tending::tend_dumps;
pub use term::{DumpTerm, TermGuard};
pub use watch::PinWatch;
pub use words::word;
