//! What a person is shown in rows beside the words of the answer: classes of ids, and differences.
use crate::columns::LINE_END;
use crate::console::Console;
use crate::heading::Rows;
use crate::id_classes::IdClasses;
use question_words::id_of;
use session_grammar::command::next_number;
use session_grammar::words::{Words, is_word};
use std::alloc::{AllocError, Global};

/// Lines with what a person is shown beside the words of their rows.
#[derive(Drop)]
pub(crate) struct ShownLines {
    text: Vec<u8>,
    has_classes: bool,
}

// Where ids stand in rows, by the number of the column, and where their classes are shown.
#[derive(Clone, Copy)]
struct ClassColumn {
    id: usize,
    class: usize,
    // What stands there instead of a class that isn't known.
    blank: &'static [u8],
}

// The words that are shown beside those of rows.
#[derive(Clone, Copy)]
enum MoreWords<'a> {
    None,
    // How much objects and bytes grew.
    Differences,
    // The classes of ids.
    Classes {
        column: ClassColumn,
        classes: &'a IdClasses,
    },
}

impl ShownLines {
    /// Returns whole lines, the last without its LF, with what a person is shown beside the words of their rows. Fails if an
    /// allocation fails.
    pub(crate) fn of(
        alloc: Global,
        lines: &[u8],
        console: &Console,
    ) -> Result<ShownLines, AllocError> {
        let classes = console.hints.take_classes();
        let more = more_words(console.heading.rows(), classes.as_ref());
        let shown = ShownLines::with_words(alloc, lines, more);
        console.hints.put_classes(classes);
        shown
    }

    // Returns these lines with these words beside those of their rows. Fails if an allocation fails.
    fn with_words(
        alloc: Global,
        lines: &[u8],
        more: MoreWords<'_>,
    ) -> Result<ShownLines, AllocError> {
        let mut shown = ShownLines {
            text: Vec::new(alloc),
            has_classes: false,
        };
        let mut is_first = true;
        for line in lines.split(|byte| *byte == LINE_END) {
            if !is_first {
                shown.text.push(LINE_END)?;
            }
            is_first = false;
            shown.add_line(line, more)?;
        }
        Ok(shown)
    }

    // Adds a line with these words, if it is a row. Fails if an allocation fails.
    fn add_line(&mut self, line: &[u8], more: MoreWords<'_>) -> Result<(), AllocError> {
        let Some(row) = line.strip_prefix(b"row ") else {
            self.text.extend_from_slice(line)?;
            return Ok(());
        };
        self.text.extend_from_slice(b"row ")?;
        match more {
            MoreWords::None => self.text.extend_from_slice(row)?,
            MoreWords::Differences => add_differences(&mut self.text, row)?,
            MoreWords::Classes { column, classes } => self.add_class(row, column, classes)?,
        }
        Ok(())
    }

    // Adds a row with the class of its id. Fails if an allocation fails.
    fn add_class(
        &mut self,
        row: &[u8],
        column: ClassColumn,
        classes: &IdClasses,
    ) -> Result<(), AllocError> {
        let class = class_in(row, column.id, classes).unwrap_or(column.blank);
        let ends = add_words_around(&mut self.text, row, column.class, class)?;
        if ends && !class.is_empty() {
            self.has_classes = true;
        }
        Ok(())
    }

    /// Returns the lines, the last without its LF.
    pub(crate) fn as_slice(&self) -> &[u8] {
        self.text.as_slice()
    }

    /// Tells whether a row ends in a class that the answer doesn't have.
    pub(crate) fn has_classes(&self) -> bool {
        self.has_classes
    }
}

// Returns the words that are shown beside those of rows.
fn more_words(rows: Rows, classes: Option<&IdClasses>) -> MoreWords<'_> {
    if let Rows::Growth = rows {
        return MoreWords::Differences;
    }
    match (class_column(rows), classes) {
        (Some(column), Some(classes)) => MoreWords::Classes { column, classes },
        _ => MoreWords::None,
    }
}

// Returns where ids stand in rows whose ids are shown with their classes.
fn class_column(rows: Rows) -> Option<ClassColumn> {
    match rows {
        Rows::Slots => Some(class_behind(3, 4)),
        Rows::Hops => Some(class_behind(2, 3)),
        Rows::Referrers | Rows::Values => Some(class_behind(0, 2)),
        Rows::Differences => Some(ClassColumn {
            id: 0,
            class: 1,
            blank: b"-",
        }),
        _ => None,
    }
}

// Returns the column of an id whose class is shown at the end of a row.
fn class_behind(id: usize, class: usize) -> ClassColumn {
    ClassColumn {
        id,
        class,
        blank: b"",
    }
}

// Returns the class of the id in a column of a row, or None if no id is there or its class isn't known. Before the word `gone` it
// is that of an object of the older state.
fn class_in<'a>(row: &[u8], column: usize, classes: &'a IdClasses) -> Option<&'a [u8]> {
    let mut words = Words::new(row);
    for _ in 0..column {
        let _before = words.next_word()?;
    }
    let id = id_of(words.next_word()?)?;
    let is_gone = match words.next_word() {
        Some(word) => is_word(word, b"gone"),
        None => false,
    };
    classes.name_of(id, is_gone)
}

// Appends a row with a word before that of a column, or behind its last word if it has no such column but the one before. An empty
// word isn't appended. Tells whether the row ends in the word. Fails if an allocation fails.
fn add_words_around(
    text: &mut Vec<u8>,
    row: &[u8],
    column: usize,
    added: &[u8],
) -> Result<bool, AllocError> {
    let mut count: usize = 0;
    for word in row.split(|byte| *byte == b' ') {
        if count == column {
            add_behind(text, added)?;
        }
        if count > 0 {
            text.push(b' ')?;
        }
        text.extend_from_slice(word)?;
        count = count.saturating_add(1);
    }
    if count == column {
        add_behind(text, added)?;
    }
    Ok(count == column)
}

// Appends a space and a word, if it isn't empty. Fails if an allocation fails.
fn add_behind(text: &mut Vec<u8>, word: &[u8]) -> Result<(), AllocError> {
    if word.is_empty() {
        return Ok(());
    }
    text.push(b' ')?;
    text.extend_from_slice(word)?;
    Ok(())
}

// How many objects of a class there are in two states, and their bytes.
#[derive(Clone, Copy)]
struct Growth {
    objects: u64,
    bytes: u64,
    newer_objects: u64,
    newer_bytes: u64,
}

// Appends a row of `growth` with how much objects and bytes grew. Fails if an allocation fails.
fn add_differences(text: &mut Vec<u8>, row: &[u8]) -> Result<(), AllocError> {
    text.extend_from_slice(row)?;
    if let Some(growth) = growth_in(row) {
        add_difference(text, growth.objects, growth.newer_objects)?;
        add_difference(text, growth.bytes, growth.newer_bytes)?;
    }
    Ok(())
}

// Returns what a row of `growth` counts.
fn growth_in(row: &[u8]) -> Option<Growth> {
    let mut words = Words::new(row);
    let _class = words.next_word()?;
    let objects = next_number(&mut words)?;
    let bytes = next_number(&mut words)?;
    let newer_objects = next_number(&mut words)?;
    let newer_bytes = next_number(&mut words)?;
    Some(Growth {
        objects,
        bytes,
        newer_objects,
        newer_bytes,
    })
}

// Appends a space, and the number by which another is larger or smaller, with its sign. Fails if an allocation fails.
fn add_difference(text: &mut Vec<u8>, older: u64, newer: u64) -> Result<(), AllocError> {
    if newer >= older {
        add_signed(text, b" +", newer - older)
    } else {
        add_signed(text, b" -", older - newer)
    }
}

// Appends a sign and a number. Fails if an allocation fails.
fn add_signed(text: &mut Vec<u8>, sign: &[u8], number: u64) -> Result<(), AllocError> {
    text.extend_from_slice(sign)?;
    text.extend_from_slice(itoa::Buffer::new().format(number).as_bytes())?;
    Ok(())
}
