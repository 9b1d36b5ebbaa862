//! The chronicle of a heap: what each seat did, in order, with the answer that it was given, packed.
#![tactic(auto)]

mod acts;
pub mod audits;
mod block;
pub mod chronicle;
pub mod definition;
pub mod entry;
pub mod long;
pub mod pack;
pub mod packing;
pub mod receipt;
pub mod same;
pub mod unpacking;

pub use audits::Verdict;
pub use chronicle::Chronicle;
pub use entry::{Entry, Outcome};
pub use receipt::Receipt;
