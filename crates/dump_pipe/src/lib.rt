//! Dumps through a pipe: one thread asks a source for the parts, another puts them out, one by one or joined to batches. Two
//! words that no lock guards say how far a dump has come, and whether it is cancelled.
#![tactic(auto)]

pub mod batch;
pub mod batch_streams;
pub mod batched_source;
pub mod cancel;
pub mod cancellable;
pub mod channel;
pub mod counter;
pub mod drainer;
pub mod end_side;
pub mod feeder;
pub mod message;
pub mod meter;
pub mod meter_side;
pub mod progress;
pub mod pumps;
pub mod rule;
pub mod seats;
pub mod start;
pub mod start_rule;
pub mod start_seats;
pub mod start_side;
pub mod streams;
pub mod surplus;
pub mod word;

pub use batch::BATCH_ROOM;
pub use batch_streams::stream_batched;
pub use cancel::Cancel;
pub use cancellable::Cancellable;
pub use channel::{BothEnds, End, Knowledge, Receiver, Sender, pipe};
pub use counter::Counter;
pub use drainer::drain_pipe;
pub use feeder::feed;
pub use message::Message;
pub use meter::{Meter, NewMeter};
pub use progress::Progress;
pub use pumps::pump_counted;
pub use seats::{AskSeat, FeedSeat, OutSeat, ReadSeat};
pub use streams::stream_parts;
