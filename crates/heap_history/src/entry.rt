//! What a seat did, and what it was answered.
use heap_class::Refusal;
use heap_step::Answer;
use heap_trail::Action;

/// What an act was answered.
#[derive(Clone, Copy, PartialEq, Eq, Debug)]
pub enum Outcome {
    /// What the step answers.
    Answered(Answer),
    /// The place after a rewind.
    Place(u64),
    /// Why nothing was done.
    Refused(Refusal),
}

/// An act: whose it was, what was asked, and what was answered.
#[derive(Drop)]
pub struct Entry {
    pub seat: u64,
    pub action: Action,
    pub answer: Outcome,
}
