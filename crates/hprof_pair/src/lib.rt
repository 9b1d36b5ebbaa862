//! The session of two heap dumps of one program: the heap of the first, which a pin keeps, and then that of the second, in which
//! each object that stayed has its id.
#![tactic(auto)]

mod changes;
mod conversion;
mod dump;
mod events;
mod joined_classes;
mod known;
mod left_out;
mod pair;
mod roots;
mod session;
mod shapes;
mod ways;

pub use conversion::{BothConverted, PairFailure, convert_pair};
