//! The sockets of the clients of dumps.
ghost use Rattle.std.specs.Prelude.{◌≤◌, IfOk, length};

use crate::term::DumpTerm;
use heap_lock::Heap;
use std::io;
use std::io::{ErrorKind, Write};
use std::net::TcpStream;
use std::sync::Wait;
use std::time::{Clock, Duration};

// The milliseconds before the first byte in which a client shows that it speaks first.
const FIRST_WORD: u64 = 10;

// The milliseconds that a write waits before it looks whether the dump has to end.
const LOOK: u64 = 50;

/// The socket of a client of a dump. A write waits for the client. It fails if the client sent anything before its first byte. Once
/// the dump has to end, a write that waits fails at once, and any write a twentieth of a second later. A write that fails ends the
/// dump.
#[derive(Drop)]
pub struct DumpSocket<'a, L: Heap, R: Clock + Wait> {
    stream: &'a TcpStream,
    term: &'a DumpTerm<'a, L, R>,
    begun: bool,
}

impl<'a, L: Heap, R: Clock + Wait> DumpSocket<'a, L, R> {
    /// Puts the term of a dump on a socket. Fails if the system lets no read and no write end after some time.
    pub fn new(
        stream: &'a TcpStream,
        term: &'a DumpTerm<'a, L, R>,
    ) -> io::Result<DumpSocket<'a, L, R>> {
        stream.set_read_timeout(Some(Duration::from_millis(FIRST_WORD)))?;
        stream.set_write_timeout(Some(Duration::from_millis(LOOK)))?;
        Ok(DumpSocket {
            stream,
            term,
            begun: false,
        })
    }

    // Waits some time before the first byte. Returns whether the client has sent anything then.
    fn speaks_first(&mut self) -> bool {
        if self.begun {
            return false;
        }
        self.begun = true;
        match self.stream.peek(&mut [0]) {
            Ok(count) => count > 0,
            Err(_) => false,
        }
    }

    // Writes as soon as the client takes something. Fails once the dump has to end.
    fn write_on(&mut self, buf: &[u8]) -> io::Result<usize>
        ensures { IfOk result (λ n. n ≤ length buf.now) }
    {
        for _ in 0..u64::MAX {
            match self.stream.write(buf) {
                Ok(n) => return Ok(n),
                Err(error) => {
                    if error.kind() != ErrorKind::WouldBlock {
                        return Err(error);
                    }
                }
            }
            if self.term.is_over() {
                return Err(io::Error::from(ErrorKind::ConnectionAborted));
            }
        }
        Err(io::Error::from(ErrorKind::TimedOut))
    }
}

impl<L: Heap, R: Clock + Wait> Write for DumpSocket<'_, L, R> {
    fn write(&mut self, buf: &[u8]) -> io::Result<usize> {
        if self.speaks_first() || self.term.is_cut() {
            self.term.end();
            return Err(io::Error::from(ErrorKind::ConnectionAborted));
        }
        let written = self.write_on(buf);
        match &written {
            Ok(_) => self.term.note_byte(),
            Err(error) => {
                if error.kind() != ErrorKind::Interrupted {
                    self.term.end();
                }
            }
        }
        written
    }

    fn flush(&mut self) -> io::Result<()> {
        Ok(())
    }
}
