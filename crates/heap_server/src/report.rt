//! How sessions ended, in words.
ghost use Rattle.std.specs.Prelude.{◌≡◌, OnOk};
ghost use Rattle.std.specs.Io.KnownBytes.{Appends};
ghost use Rattle.heap_server.specs.Reports.{line_of, report_of, word_of_end, word_of_ending};

use crate::client_session::SessionEnd;
use crate::sessions::SeatEnd;
use session_text::Ended;
use std::io;
use std::io::Write;

/// Returns the word of a session's end: that of its ending, or http, secret or idle.
pub fn word(end: SessionEnd) -> &'static str
    ensures { result.now ≡ word_of_end end }
{
    match end {
        SessionEnd::Ran(ended) => word_of_ending(ended),
        SessionEnd::Http => "http",
        SessionEnd::Stranger => "secret",
        SessionEnd::Idle => "idle",
    }
}

// Returns the word of an ending: quit, eof, cut, long, read, reads, write or memory.
fn word_of_ending(ended: Ended) -> &'static str
    ensures { result.now ≡ word_of_ending ended }
{
    match ended {
        Ended::Quit => "quit",
        Ended::Eof => "eof",
        Ended::CutLine => "cut",
        Ended::TooLong => "long",
        Ended::ReadFault => "read",
        Ended::TooManyReads => "reads",
        Ended::WriteFault => "write",
        Ended::NoMemory => "memory",
    }
}

// Writes the line of a session of this number.
pub(crate) fn tell_session<W: Write>(writer: &mut W, number: u64, end: SessionEnd) -> io::Result<()>
    ensures { OnOk result
        (Appends (W.contents writer.old) (W.contents writer.new) (line_of number end)) }
{
    let name = word(end);
    writeln!(writer, "session {number} {name}")
}

/// Writes a line `session I WORD` for each session, counted from 1. Fails if a write does.
pub fn tell_sessions<W: Write>(writer: &mut W, sessions: &[SeatEnd]) -> io::Result<()>
    ensures { OnOk result
        (Appends (W.contents writer.old) (W.contents writer.new) (report_of 1 sessions.now)) }
{
    for i in 0..sessions.len() {
        tell_session(writer, i as u64 + 1, sessions[i].end)?;
    }
    Ok(())
}
