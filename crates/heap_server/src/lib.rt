//! Sessions of clients over one shared heap, each in a thread of its own, and the client that asks.
#![tactic(auto)]

mod ahead;
mod beside;
pub mod client;
pub mod client_session;
pub mod copy;
mod http;
mod paced;
pub mod page_session;
pub mod report;
pub mod sessions;
mod sittings;
pub mod socket;
pub mod socket_outlet;
pub mod staying;
pub mod staying_tended;
pub mod tended;
pub mod tending;
mod time_limits;

pub use client::{Asked, Client, SendsFrom, Sent, ask};
pub use client_session::SessionEnd;
pub use copy::{Copied, copy_all};
pub use heap_lock::{Action, Blank, Heap, Refusal, Reply, Seat, Seats, Shared, UnnamedSeat};
pub use heap_page::{PagePort, PageTerms};
pub use page_session::serve_beside_page;
pub use report::{tell_sessions, word};
pub use seat_session::{AskingSeat, Joined};
pub use secret_word::Secret;
pub use sessions::{Ports, SeatEnd, Served, Terms, serve_clients, users};
pub use shared_dump::DumpListener;
pub use socket::{Half, SocketTraffic, halves};
pub use socket_outlet::SocketOutlet;
pub use staying::{SeatStay, Stayed, serve_staying};
pub use staying_tended::{StayTended, serve_staying_tended};
pub use tended::{Staff, Tended, serve_tended, workers_and_users};
pub use tending::{Duty, tend};
