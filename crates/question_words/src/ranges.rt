//! The steps and the slots that questions are about.

/// The retained steps that a question is about.
#[derive(Clone, Copy)]
pub enum Span {
    /// All of them.
    AllSteps,
    /// Those after one place up to another: None is the place of the current state.
    Between { after: Option<u64>, to: Option<u64> },
}

/// The slots of an object that a question lists.
#[derive(Clone, Copy)]
pub enum SlotRange {
    /// All of them.
    AllSlots,
    /// Those from a slot on, by number: how many, or as many as there are.
    FromSlot { first: u64, count: u64 },
}
