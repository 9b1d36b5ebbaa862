//! The commands of a session from a seat of a shared heap: its acts, its questions and orders, and the pins of a heap that stays.
#![tactic(auto)]

mod asking;
mod held_heap;
mod joined;
mod laws;
mod staying_seat;

pub use asking::AskingSeat;
pub use heap_lock::{Action, Heap, Refusal, Reply, Seat, Shared};
pub use joined::Joined;
pub use laws::served_dumps_are_text;
pub use staying_seat::StayingSeat;
