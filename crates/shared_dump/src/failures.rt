//! The dumps that were refused or lost, and what is told of them.
ghost use Rattle.std.specs.Prelude.{◌≡◌, ◌+◌, ◌≤◌, length, option_to_list};
ghost use Rattle.shared_dump.specs.FailureLines.{IsLine, line_limit};

use std::sync::{Mutex, Wait};
use std::time::{Clock, Duration, Instant};

/// The most lines that are told of dumps that were refused or lost.
pub const LINE_LIMIT: u64 = 1_000;

// The milliseconds between two lines with the same word.
const PAUSE: u64 = 1_000;

/// A line about dumps that were refused or lost.
#[derive(Clone, Copy)]
pub enum Line {
    /// This number of dumps ended so.
    Ended { word: &'static str, count: u64 },
    /// Nothing is told of further ones.
    Last,
}

/// The dumps that were refused or lost and of which nothing was told yet: their word, and their number. At most 1,000 lines are
/// told.
#[derive(Drop)]
pub struct Failures {
    pub(crate) word: &'static str,
    pub(crate) count: u64,
    pub(crate) lines: u64,
    told: Option<Instant>,
    ghost limited: { lines ≤ line_limit },
}

impl Failures {
    // Creates the failures of a port at which no dump has failed.
    pub(crate) fn new() -> Failures
        ensures { result.lines ≡ 0 }
    {
        Failures {
            word: "",
            count: 0,
            lines: 0,
            told: None,
        }
    }

    // Returns the line about the dumps that are counted, if there are any and a line may still be told, and counts from 0 again.
    pub(crate) fn take_line(&mut self) -> Option<Line>
        ensures line { IsLine self.old.word.now self.old.count self.old.lines result }
        ensures lines { self.new.lines ≡ self.old.lines + length (option_to_list result) }
        ensures count { self.new.count ≡ 0 }
    {
        let (word, count) = (self.word, self.count);
        self.count = 0;
        if count == 0 || self.lines == LINE_LIMIT {
            return None;
        }
        self.lines += 1;
        if self.lines == LINE_LIMIT {
            Some(Line::Last)
        } else {
            Some(Line::Ended { word, count })
        }
    }

    // Counts a dump that ended with a word. Returns the line about those that ended with another one before, if it wasn't told.
    fn note(&mut self, word: &'static str) -> Option<Line>
        ensures lines { self.new.lines ≡ self.old.lines + length (option_to_list result) }
    {
        if word == self.word {
            self.count = self.count.saturating_add(1);
            return None;
        }
        let earlier = self.take_line();
        self.word = word;
        self.count = 1;
        self.told = None;
        earlier
    }

    // Returns the line about the dumps that are counted, unless a line with their word was told in the last second.
    fn due(&mut self, now: Instant) -> Option<Line>
        ensures lines { self.new.lines ≡ self.old.lines + length (option_to_list result) }
    {
        if let Some(told) = self.told {
            if now.duration_since(told) < Duration::from_millis(PAUSE) {
                return None;
            }
        }
        let line = self.take_line();
        if line.is_some() {
            self.told = Some(now);
        }
        line
    }
}

// Tells of the dumps that are counted, unless that was done in the last second.
pub(crate) fn tell_due<R: Clock + Eprint + Wait>(rt: &R, failures: &Mutex<Failures>) {
    let Ok(now) = Instant::now(rt) else {
        return;
    };
    let line = failures.lock(rt).due(now);
    write_line(rt, line);
}

// Writes a line on standard error.
fn write_line<R: Eprint>(rt: &R, line: Option<Line>) {
    let _ = match line {
        Some(Line::Ended { word, count: 1 }) => eprintln!(rt; "heapdbg: dump {word}"),
        Some(Line::Ended { word, count }) => {
            eprintln!(rt; "heapdbg: dump {word} ({count} times)")
        }
        Some(Line::Last) => eprintln!(rt; "heapdbg: nothing is told of further dumps"),
        None => Ok(()),
    };
}

// Counts a dump that ended with a word, and tells of it, unless that was done in the last second.
pub(crate) fn tell<R: Clock + Eprint + Wait>(
    rt: &R,
    failures: &Mutex<Failures>,
    word: &'static str,
) {
    let earlier = failures.lock(rt).note(word);
    write_line(rt, earlier);
    tell_due(rt, failures);
}

// Tells of all dumps that are counted.
pub(crate) fn tell_rest<R: Eprint + Wait>(rt: &R, failures: &Mutex<Failures>) {
    let line = failures.lock(rt).take_line();
    write_line(rt, line);
}
