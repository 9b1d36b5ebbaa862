//! Reports of the lines of a file that were refused.
use crate::columns::LINE_END;
use crate::line_count::LineCount;
use std::str;
use std::time::Clock;

/// The lines of a file that were read, of which those that are refused or no command are reported on standard error: by the file's
/// name, and the line's number, answer and text.
#[derive(Drop)]
pub struct LineReports<'a, R> {
    rt: &'a R,
    name: &'a str,
    number: u64,
    // How many more refused lines may be reported, and how many are not reported.
    left: u64,
    unreported: u64,
    count: LineCount<'a, R>,
}

// Returns a line without its end, or nothing if it is no text.
fn text_of(line: &[u8]) -> &str {
    str::from_utf8(line).unwrap_or("").trim_end()
}

// Tells whether a line that has this answer was refused or is no command.
fn is_refusal(answer: &str) -> bool {
    answer.starts_with("no ") || answer == "bad command"
}

// Tells whether there may be a refusal among answers: each has an `n`, which most other answers of a session of a dump don't have.
fn may_refuse(answers: &[u8]) -> bool {
    answers.contains(&b'n')
}

// Counts the lines of some bytes that have an end.
fn lines_in(bytes: &[u8]) -> u64 {
    bytes.iter().filter(|byte| **byte == LINE_END).count() as u64
}

// Returns a line of some lines, by its number from 0 on, or nothing if there are fewer.
fn line_at(lines: &[u8], n: u64) -> &[u8] {
    let mut number: u64 = 0;
    for line in lines.split(|byte| *byte == LINE_END) {
        if number == n {
            return line;
        }
        number = number.saturating_add(1);
    }
    b""
}

impl<'a, R> LineReports<'a, R> {
    /// Creates the reports of a file of which no line was read, which they call by this name: at most this many lines are reported.
    pub fn new(rt: &'a R, name: &'a str, most: u64) -> LineReports<'a, R> {
        LineReports {
            rt,
            name,
            number: 0,
            left: most,
            unreported: 0,
            count: LineCount::new(rt),
        }
    }

    // Returns how many lines were counted.
    pub(crate) fn number(&self) -> u64 {
        self.number
    }

    // Counts lines.
    pub(crate) fn add(&mut self, lines: u64) {
        self.number = self.number.saturating_add(lines);
    }
}

impl<R: Clock + Eprint> LineReports<'_, R> {
    /// Begins to show how many lines were read.
    pub fn begin_count(&mut self) {
        self.count.begin();
    }

    /// Ends what shows how many lines were read, and tells how many refused lines weren't reported.
    pub(crate) fn end_count(&mut self) {
        self.count.end(self.number);
        let (name, unreported) = (self.name, self.unreported);
        if unreported > 0 {
            let _ = eprintln!(self.rt; "heapdbg: {name}: {unreported} more lines refused");
        }
    }

    // Reports the line that was counted last, if its answer tells that it was refused or no command, and shows how many lines were
    // read, if it is time.
    pub(crate) fn report(&mut self, answer: &[u8], line: &[u8]) {
        let answer = text_of(answer);
        if is_refusal(answer) {
            self.report_refusal(answer, line);
        }
        self.count.show(self.number);
    }

    // Counts the lines that have these answers, a line each, reports those that were refused or no command, and shows how many
    // lines were answered, if it is time. The lines are among these, of which the first is that after the first `before` of all.
    pub(crate) fn report_all(&mut self, answers: &[u8], lines: &[u8], before: u64) {
        if may_refuse(answers) {
            self.report_each(answers, lines, before);
        } else {
            self.add(lines_in(answers));
        }
        self.count.show_now(self.number);
    }

    // Counts lines and reports them as `report_all` does, one by one.
    fn report_each(&mut self, answers: &[u8], lines: &[u8], before: u64) {
        for answer in answers.split(|byte| *byte == LINE_END) {
            let answer = text_of(answer);
            if answer.is_empty() {
                continue;
            }
            let n = self.number.saturating_sub(before);
            self.add(1);
            if is_refusal(answer) {
                self.report_at(answer, lines, n);
            }
        }
    }

    // Reports the line that was counted last, which was refused or is no command, and is line n of these.
    fn report_at(&mut self, answer: &str, lines: &[u8], n: u64) {
        // Only a line that is reported is looked for.
        let line = if self.left > 0 {
            line_at(lines, n)
        } else {
            b""
        };
        self.report_refusal(answer, line);
    }

    // Reports the line that was counted last, which was refused or is no command, with its answer, if it may be reported.
    fn report_refusal(&mut self, answer: &str, line: &[u8]) {
        if self.left == 0 {
            self.unreported = self.unreported.saturating_add(1);
            return;
        }
        self.left = self.left.saturating_sub(1);
        self.count.leave();
        let (name, number) = (self.name, self.number);
        let text = text_of(line);
        let _ = eprintln!(self.rt; "heapdbg: {name}:{number}: {answer}: {text}");
    }

    // Reports the line that was counted last with the reason why none was read after it.
    pub(crate) fn report_end(&self, reason: &str) {
        let (name, number) = (self.name, self.number);
        let _ = eprintln!(self.rt; "heapdbg: {name}:{number}: {reason}");
    }

    // Reports with the line that was counted last that no more reads were allowed than these.
    pub(crate) fn report_reads(&self, most: u64) {
        let (name, number) = (self.name, self.number);
        let _ = eprintln!(self.rt; "heapdbg: {name}:{number}: a session has at most {most} reads");
    }
}
