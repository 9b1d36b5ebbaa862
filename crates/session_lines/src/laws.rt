//! What a session reads in the lines that are written.
ghost use Rattle.session_lines.specs.Laws.{AreLinesRead};

/// States that a session reads the line of an event as that event, if the event's numbers have 64 bits and its names are words: one
/// or more bytes from `!` to `~`, and in the name of a field no colon.
pub fn lines_are_read()
    ensures { AreLinesRead }
{}
