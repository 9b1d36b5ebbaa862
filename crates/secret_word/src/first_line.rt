//! The wait for the first line of a client.
use crate::ends::line_end;
use crate::secret::WORD_LIMIT;
use std::net::TcpStream;
use std::sync::Wait;
use std::thread;
use std::time::{Clock, Duration, Instant};

/// The most bytes of a first line that is a secret word, with its end, CR LF.
pub const FIRST_LINE_LIMIT: usize = WORD_LIMIT + 2;

// The milliseconds between two looks at a line whose end hasn't come.
const PAUSE: u64 = 2;

// What a client has sent of its first line.
#[derive(Clone, Copy)]
enum Sight {
    // All of it, or more bytes than the line of a secret word has.
    Whole,
    // A beginning.
    Part,
    // Nothing, and it sends no more or the time is over.
    Gone,
}

/// Waits, at most for this long, until a client has sent a whole line, or as many bytes as the line of a secret word has at most.
/// Returns whether it has. Reads nothing, and leaves the socket with another time limit of its reads. May wait.
pub fn await_line<R: Clock + Wait>(rt: &R, stream: &TcpStream, limit: Duration) -> bool {
    let Ok(begun) = Instant::now(rt) else {
        return false;
    };
    for _ in rt.forever() {
        let Some(left) = time_left(rt, begun, limit) else {
            return false;
        };
        match sight_of(stream, left) {
            Sight::Whole => return true,
            Sight::Part => thread::sleep(rt, Duration::from_millis(PAUSE)),
            Sight::Gone => return false,
        }
    }
    unreachable!()
}

// Returns what is left of a time that began then, or None if it is over or there is no clock.
fn time_left<R: Clock>(rt: &R, begun: Instant, limit: Duration) -> Option<Duration> {
    let now = Instant::now(rt).ok()?;
    let spent = now.duration_since(begun);
    if spent >= limit {
        return None;
    }
    limit.checked_sub(spent)
}

// Returns what a client has sent, and leaves it there. Waits at most for this long, and only if nothing has come.
fn sight_of(stream: &TcpStream, left: Duration) -> Sight {
    let mut room = [0u8; FIRST_LINE_LIMIT];
    if stream.set_read_timeout(Some(left)).is_err() {
        return Sight::Gone;
    }
    match stream.peek(&mut room) {
        Ok(0) => Sight::Gone,
        Ok(count) => {
            if count >= FIRST_LINE_LIMIT || line_end(&room[..count]).is_some() {
                Sight::Whole
            } else {
                Sight::Part
            }
        }
        Err(_) => Sight::Gone,
    }
}
