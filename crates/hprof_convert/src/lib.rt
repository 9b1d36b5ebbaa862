//! The session of a heap dump: from the bytes of the dump to its lines, and what of it is left out.
#![tactic(auto)]

mod conversion;
mod report;

pub use conversion::{Converted, Failure, convert, elements_with, left_out_of};
pub use report::tell_left_out;
