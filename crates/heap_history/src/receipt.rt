//! What a seat is told of its act.
use crate::entry::Outcome;

/// What the seat of an act is told: the turn, which is the number of the entry, counted from 1, and the answer.
#[derive(Clone, Copy, PartialEq, Eq, Debug)]
pub struct Receipt {
    pub seat: u64,
    pub turn: u64,
    pub answer: Outcome,
}
