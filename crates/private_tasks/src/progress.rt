//! The progress of a dump, on a terminal.
use dump_client::FetchGauge;
use heapdbg_options::IdSize;
use machine_dump::{Gauge, dump_size};
use session_text::Machine;
use std::alloc::Global;
use std::time::{Clock, Duration, Instant};

// The shortest time in milliseconds between two lines of progress.
const INTERVAL: u64 = 100;

/// A line on standard error with a number of bytes, and their total if that is known, written anew about ten times a second. It
/// is silent before it begins, and if the clock can't be read. A write that fails changes nothing.
#[derive(Drop)]
pub struct ProgressLine<'a, R> {
    rt: &'a R,
    size: Option<u64>,
    last: Option<Instant>,
    is_shown: bool,
}

impl<'a, R> ProgressLine<'a, R> {
    /// Creates a line that has not begun.
    pub fn new(rt: &'a R) -> ProgressLine<'a, R> {
        ProgressLine {
            rt,
            size: None,
            last: None,
            is_shown: false,
        }
    }
}

impl<R: Clock + Eprint> ProgressLine<'_, R> {
    /// Begins the line of a dump of this size, if that is known.
    pub fn begin(&mut self, size: Option<u64>) {
        self.size = size;
        self.last = Instant::now(self.rt).ok();
    }

    /// Writes the line anew, and ends it, if it was written before.
    pub fn end(&mut self, bytes: u64) {
        if self.is_shown {
            self.write_line(bytes);
            let _ = eprintln!(self.rt; "");
        }
    }

    // Tells whether the last line has stood long enough, and notes the time if so.
    fn is_due(&mut self) -> bool {
        let Some(last) = self.last else {
            return false;
        };
        let Ok(now) = Instant::now(self.rt) else {
            return false;
        };
        if now.duration_since(last) < Duration::from_millis(INTERVAL) {
            return false;
        }
        self.last = Some(now);
        true
    }

    // Writes the line anew.
    fn write_line(&mut self, bytes: u64) {
        self.is_shown = true;
        let _ = match self.size {
            Some(size) => eprint!(self.rt; "\r{bytes} of {size} bytes"),
            None => eprint!(self.rt; "\r{bytes} bytes"),
        };
    }
}

impl<R: Clock + Eprint> FetchGauge for ProgressLine<'_, R> {
    fn show(&mut self, bytes: u64) {
        if self.is_due() {
            self.write_line(bytes);
        }
    }
}

/// A gauge that shows the number of bytes of a dump that are out, and their total, on standard error, if they are to be shown.
#[derive(Drop)]
pub struct TerminalGauge<'a, R> {
    line: ProgressLine<'a, R>,
    alloc: Global,
    ids: IdSize,
    shows: bool,
}

impl<'a, R> TerminalGauge<'a, R> {
    /// Creates a gauge that has shown nothing, and shows something or doesn't. The ids of the dump have this size.
    pub fn new(rt: &'a R, alloc: Global, ids: IdSize, shows: bool) -> TerminalGauge<'a, R> {
        TerminalGauge {
            line: ProgressLine::new(rt),
            alloc,
            ids,
            shows,
        }
    }
}

impl<R: Clock + Eprint> Gauge for TerminalGauge<'_, R> {
    fn begin(&mut self, machine: &Machine) {
        if self.shows {
            self.line
                .begin(dump_size(self.alloc, machine.world(), self.ids));
        }
    }

    fn show(&mut self, bytes: u64) {
        FetchGauge::show(&mut self.line, bytes);
    }

    fn end(&mut self, bytes: u64) {
        self.line.end(bytes);
    }
}
