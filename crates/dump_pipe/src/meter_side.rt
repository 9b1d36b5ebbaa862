//! The knowledge of a meter's seats.

/// The knowledge of a seat of a meter, for contracts alone. No value of it is made.
pub enum MeterSide {
    /// A new meter, with no seat but this one.
    Whole,
    /// The bytes that the out seat added.
    Out(u64),
    /// The sum that a reader read last.
    Read(u64),
    /// Whether the asker asked.
    Ask(bool),
    /// Whether a feeder found that the asker had asked.
    Feed(bool),
    /// A feeder and the asker as one seat: whether the first found that the second had asked, and whether it did.
    Met(bool, bool),
}
