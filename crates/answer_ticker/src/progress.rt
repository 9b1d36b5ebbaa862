//! What is shown of a line that is being answered.
use crate::keyword::keyword_of;
use crate::seconds::{seconds_of, until_next};
use std::alloc::Global;
use std::str;
use std::time::{Clock, Duration, Instant};

// As many spaces as the longest line that is shown has bytes: with a keyword of 15 letters, and seconds of over a year.
const BLANK: &str = "                                      ";

// The line that is being answered, if one is, and what is shown of it on standard error. A write that fails changes nothing.
#[derive(Drop)]
pub(crate) struct Progress {
    keyword: Vec<u8>,
    since: Option<Instant>,
    is_shown: bool,
    // Whether the ticker waits until a line begins, and whether it is to wait no more.
    pub(crate) is_asleep: bool,
    pub(crate) is_over: bool,
}

impl Progress {
    // Creates what is shown of no line.
    pub(crate) fn new(alloc: Global) -> Progress {
        Progress {
            keyword: Vec::new(alloc),
            since: None,
            is_shown: false,
            is_asleep: false,
            is_over: false,
        }
    }

    // Notes that a line is being answered from now on. If there is no memory for its keyword, or the clock can't be read, that or
    // nothing is shown.
    pub(crate) fn begin<R: Clock>(&mut self, rt: &R, line: &[u8]) {
        self.keyword.clear();
        if self.keyword.extend_from_slice(keyword_of(line)).is_err() {
            self.keyword.clear();
        }
        self.since = Instant::now(rt).ok();
    }

    // Notes that no line is being answered any more, and clears what is shown.
    pub(crate) fn end<R: Eprint>(&mut self, rt: &R) {
        self.since = None;
        if self.is_shown {
            let _ = eprint!(rt; "\r{BLANK}\r");
        }
        self.is_shown = false;
    }

    // Shows for how many seconds the line is being answered, if it is one or more. Returns how long it takes until the next, or
    // None if no line is being answered.
    pub(crate) fn show<R: Clock + Eprint>(&mut self, rt: &R) -> Option<Duration> {
        let since = self.since?;
        let elapsed = Instant::now(rt).ok()?.duration_since(since);
        if let Some(seconds) = seconds_of(elapsed) {
            self.write(rt, seconds);
        }
        Some(until_next(elapsed))
    }

    // Writes the line anew.
    fn write<R: Eprint>(&mut self, rt: &R, seconds: u64) {
        self.is_shown = true;
        let _ = match str::from_utf8(self.keyword.as_slice()) {
            Ok(keyword) if !keyword.is_empty() => eprint!(rt; "\rheapdbg: {keyword}: {seconds} s"),
            _ => eprint!(rt; "\rheapdbg: {seconds} s"),
        };
    }
}
