//! The knowledge of a start's seats.

/// What a seat of a start was told, for contracts alone: whether the thread has begun, or nothing yet. No value of it is made.
pub enum StartSide {
    /// The seat that begins: whether it was told to go on.
    Begins(Option<bool>),
    /// The seat that waits: whether it was told that the thread has begun.
    Waits(Option<bool>),
    /// Both seats as one: what the first was told, and what the second was.
    Both(Option<bool>, Option<bool>),
    /// No seat.
    Spent,
}
