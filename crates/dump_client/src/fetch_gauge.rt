//! Gauges, which see a dump come in.

/// A gauge of a fetch, which sees the dump come in, such as a line on a terminal. No contract says what it does.
pub trait FetchGauge {
    /// Sees the number of bytes that are out. It is asked after each read.
    fn show(&mut self, bytes: u64);
}
