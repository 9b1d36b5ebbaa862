//! The headings of columns.
use std::cell::Cell;
use std::str;

/// The heading over the rows that answer the newest line: a prompt that reads the line tells an outlet that shows the rows which
/// rows they are.
#[derive(Drop)]
pub struct Heading {
    rows: Cell<Rows>,
    is_due: Cell<bool>,
}

// The rows that answer a line, by their columns.
#[derive(Clone, Copy)]
pub(crate) enum Rows {
    // Rows of several sorts, or none.
    Mixed,
    // The steps of paths.
    Hops,
    // What names an object.
    Referrers,
    Counts,
    Growth,
    Differences,
    Dominators,
    Holders,
    Registers,
    Classes,
    Objects,
    Values,
    Slots,
    Levels,
    Changes,
    Writes,
    Steps,
    Lives,
    Cycles,
    Pins,
    Cells,
    Regions,
}

impl Heading {
    /// Creates the heading of no line.
    pub fn new() -> Heading {
        Heading {
            rows: Cell::new(Rows::Mixed),
            is_due: Cell::new(false),
        }
    }

    // Notes the line that was read, or several, which have no heading.
    pub(crate) fn note(&self, read: &[u8]) {
        self.rows.set(rows_after(read));
        self.is_due.set(true);
    }

    // Returns the rows that answer the newest line.
    pub(crate) fn rows(&self) -> Rows {
        self.rows.get()
    }

    // Takes the names of the columns, so that only the first rows have them. They are empty if there are none.
    pub(crate) fn take(&self) -> &'static str {
        if self.is_due.replace(false) {
            names_of(self.rows.get())
        } else {
            ""
        }
    }
}

// Returns the rows that answer what was read: Mixed if this is no line, or several.
fn rows_after(read: &[u8]) -> Rows {
    let Some((_, line)) = read.split_last() else {
        return Rows::Mixed;
    };
    if line.contains(&b'\n') {
        return Rows::Mixed;
    }
    match str::from_utf8(line) {
        Ok(line) => rows_of(line),
        Err(_) => Rows::Mixed,
    }
}

// Returns the rows that answer a question.
fn rows_of(line: &str) -> Rows {
    match line.split_ascii_whitespace().next().unwrap_or("") {
        "histogram" | "garbage" | "kept" | "retained" => Rows::Counts,
        "growth" => Rows::Growth,
        "path" | "paths" => Rows::Hops,
        "referrers" => Rows::Referrers,
        "diff" => Rows::Differences,
        "dominators" => Rows::Dominators,
        "dominator" => Rows::Holders,
        "registers" => Rows::Registers,
        "classes" => Rows::Classes,
        "objects" => Rows::Objects,
        "values" => Rows::Values,
        "show" if has_depth(line) => Rows::Levels,
        "show" => Rows::Slots,
        "watch" => Rows::Changes,
        "writes" => Rows::Writes,
        "history" => Rows::Steps,
        "life" => Rows::Lives,
        "cycles" => Rows::Cycles,
        "pins" => Rows::Pins,
        "cells" => Rows::Cells,
        "regions" => Rows::Regions,
        _ => Rows::Mixed,
    }
}

// Tells whether a line of `show` ends in a depth, the only word behind its id.
fn has_depth(line: &str) -> bool {
    let mut words = line.split_ascii_whitespace();
    words.any(|word| word.starts_with("0x")) && words.count() == 1
}

// Returns the names of the columns of rows.
fn names_of(rows: Rows) -> &'static str {
    match rows {
        Rows::Mixed | Rows::Hops | Rows::Referrers => "",
        Rows::Counts => "OBJECTS BYTES CLASS",
        Rows::Growth => "CLASS OBJECTS BYTES OBJECTS BYTES +OBJECTS +BYTES",
        Rows::Differences => "ID CLASS SLOT OLD NEW",
        Rows::Dominators => "ID OBJECTS BYTES CLASS",
        Rows::Holders => "ID CLASS",
        Rows::Registers => "M R ID CLASS",
        Rows::Classes => "K NAME SUPER FIELDS",
        Rows::Objects => "ID CLASS SLOTS",
        Rows::Values => "VALUE OBJECTS",
        Rows::Slots => "SLOT NAME KIND VALUE",
        Rows::Levels => "LEVEL SLOT NAME KIND VALUE CLASS",
        Rows::Changes => "PLACE OLD NEW",
        Rows::Writes => "PLACE ID OLD NEW",
        Rows::Steps => "PLACE EVENT",
        Rows::Lives => "CLASS BORN LOST SWEPT",
        Rows::Cycles => "PLACE CONDEMNED SWEPT",
        Rows::Pins => "PIN PLACE STATE PIECES",
        Rows::Cells => "REGION SIZE STATE CELLS",
        Rows::Regions => "REGION CELL USED LIVE DEAD STATE",
    }
}
