//! Which clients of dumps are sent one.
use secret_word::{FIRST_LINE_LIMIT, Secret, await_line};
use std::io::Read;
use std::net::TcpStream;
use std::sync::Wait;
use std::time::{Clock, Duration};

// The milliseconds in which a client has to say the secret word.
const FIRST_LINE: u64 = 250;

/// Tells whether a client may have a dump: anyone may if there is no secret word; else the first line that the client sends has to
/// be the word, and to come within a quarter of a second. That line is taken then, and nothing behind it. May wait.
pub(crate) fn is_admitted<R: Clock + Wait>(
    rt: &R,
    stream: &TcpStream,
    secret: Option<Secret>,
) -> bool {
    let Some(secret) = secret else {
        return true;
    };
    await_line(rt, stream, Duration::from_millis(FIRST_LINE)) && takes_word(stream, secret)
}

// Takes the first line that a client has sent, if it is the word. Returns whether it is. Takes nothing that stands behind it.
fn takes_word(stream: &TcpStream, secret: Secret) -> bool {
    let mut room = [0u8; FIRST_LINE_LIMIT];
    let Ok(count) = stream.peek(&mut room) else {
        return false;
    };
    let Some(size) = secret.line_size(&room[..count]) else {
        return false;
    };
    let mut reader: &TcpStream = stream;
    match reader.read(&mut room[..size]) {
        Ok(taken) => taken == size,
        Err(_) => false,
    }
}
