//! The running heap under one lock, with the history of what was done, and a share of it for each seat.
#![tactic(auto)]

pub mod audits;
pub mod blank;
pub mod collector;
pub mod dumper;
pub mod dumps;
pub mod heap;
pub mod home_table;
pub mod laws;
pub mod ledger;
pub mod ledger_side;
pub mod role;
pub mod seat_table;
pub mod source;
pub mod table_side;
pub mod unnamed_seat;
pub mod witness;

pub use audits::audit;
pub use blank::{Blank, Seats};
pub use dumper::Dumper;
pub use heap::{Heap, Kept, Seat, Shared};
pub use heap_class::{LostCause, Refusal};
pub use heap_history::{Chronicle, Entry, Outcome, Receipt, Verdict};
pub use heap_mark::Phase;
pub use heap_step::{Answer, Event};
pub use heap_trail::{Action, Machine, Reply};
pub use heap_world::Config;
pub use laws::pins_give_text;
pub use role::Role;
pub use source::LockedSource;
pub use unnamed_seat::UnnamedSeat;
pub use witness::Witness;
