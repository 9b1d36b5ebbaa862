//! How many lines of a file were read, on a terminal.
use std::time::{Clock, Duration, Instant};

// The shortest time in milliseconds between two counts.
const INTERVAL: u64 = 1_000;

// The number of lines between two looks at the clock.
const LINES: u64 = 1_024;

/// A line on standard error with a number of lines, written anew about once a second. It is silent before it begins, and if the
/// clock can't be read. A write that fails changes nothing.
#[derive(Drop)]
pub(crate) struct LineCount<'a, R> {
    rt: &'a R,
    last: Option<Instant>,
    is_shown: bool,
}

impl<'a, R> LineCount<'a, R> {
    /// Creates a count that has not begun.
    pub(crate) fn new(rt: &'a R) -> LineCount<'a, R> {
        LineCount {
            rt,
            last: None,
            is_shown: false,
        }
    }
}

impl<R: Clock + Eprint> LineCount<'_, R> {
    /// Begins to count.
    pub(crate) fn begin(&mut self) {
        self.last = Instant::now(self.rt).ok();
    }

    /// Writes the count anew, if it is time.
    pub(crate) fn show(&mut self, lines: u64) {
        if lines % LINES == 0 {
            self.show_now(lines);
        }
    }

    /// Writes the count anew, if it is time. Looks at the clock at each call.
    pub(crate) fn show_now(&mut self, lines: u64) {
        if self.is_due() {
            self.write(lines);
        }
    }

    /// Leaves the line that was written last, so that others can follow.
    pub(crate) fn leave(&mut self) {
        if self.is_shown {
            let _ = eprintln!(self.rt; "");
        }
        self.is_shown = false;
    }

    /// Writes the count anew, and ends it, if it is shown.
    pub(crate) fn end(&mut self, lines: u64) {
        if self.is_shown {
            self.write(lines);
        }
        self.leave();
    }

    // Tells whether the last count has stood long enough, and notes the time if so.
    fn is_due(&mut self) -> bool {
        let Some(last) = self.last else {
            return false;
        };
        let Ok(now) = Instant::now(self.rt) else {
            return false;
        };
        if now.duration_since(last) < Duration::from_millis(INTERVAL) {
            return false;
        }
        self.last = Some(now);
        true
    }

    // Writes the count anew.
    fn write(&mut self, lines: u64) {
        self.is_shown = true;
        let _ = eprint!(self.rt; "\r{lines} lines");
    }
}
