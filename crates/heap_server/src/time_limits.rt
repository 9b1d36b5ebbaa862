//! The time limits of the sockets of sessions.
use crate::sessions::Terms;
use secret_word::await_line;
use std::net::{Shutdown, TcpStream};
use std::sync::Wait;
use std::time::{Clock, Duration};

// The milliseconds that a write waits before it is looked whether the reader has to hurry.
const LOOK: u64 = 200;

/// The number of such waits in a row, ten seconds, after which a write ends whose reader has to hurry.
pub(crate) const PATIENCE: u64 = 50;

// The most seconds in which a client has to say the secret word.
const FIRST_LINE: u64 = 10;

/// Sets how long reads and writes of a socket may wait. If its client has to say a secret word, waits first for that line, for ten
/// seconds or, if that is less, as long as a read may wait. If it hasn't come by then, no read of the socket waits any more. Reads
/// nothing. May wait.
pub(crate) fn limit_times<R: Clock + Wait>(rt: &R, stream: &TcpStream, terms: &Terms) {
    if terms.secret.is_some() && !await_line(rt, stream, first_line_time(terms.idle)) {
        let _ = stream.shutdown(Shutdown::Read);
    }
    let _ = stream.set_read_timeout(read_time(terms.idle));
    let _ = stream.set_write_timeout(Some(Duration::from_millis(LOOK)));
}

// Returns how long a client has to say the secret word, where a session that reads nothing for `idle` seconds ends, unless they are
// 0.
fn first_line_time(idle: u64) -> Duration {
    if idle == 0 {
        return Duration::from_secs(FIRST_LINE);
    }
    Duration::from_secs(idle.min(FIRST_LINE))
}

// Returns how long a read may wait.
fn read_time(idle: u64) -> Option<Duration> {
    if idle == 0 {
        return None;
    }
    Some(Duration::from_secs(idle))
}
