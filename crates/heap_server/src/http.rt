//! Lines that begin an HTTP request.
ghost use Rattle.std.specs.Prelude.{◌≡◌, MatchOption};
ghost use Rattle.session_grammar.specs.Lines.{IsLineAt, NoLf};
ghost use Rattle.heap_server.specs.Http.{asks_http, is_request_line};

use memchr::memchr;
use session_grammar::command::without_cr;
use session_grammar::words::is_word;

// The byte that ends a line.
const LF: u8 = b'\n';

// The number of bytes of ` HTTP/1.` and a digit.
const VERSION_SIZE: usize = 9;

/// Returns the place of the first LF, or None.
pub(crate) fn line_end(bytes: &[u8]) -> Option<usize>
    ensures { MatchOption result (NoLf bytes.now) (λ n. IsLineAt n bytes.now) }
{
    memchr(LF, bytes)
}

/// Tells whether the first line, if it is whole and has at most `most` bytes, begins an HTTP request.
pub(crate) fn asks_http(bytes: &[u8], most: usize) -> bool
    ensures { result ≡ asks_http most bytes.now }
{
    let Some(end) = line_end(bytes) else {
        return false;
    };
    end <= most && is_request_line(without_cr(&bytes[..end]))
}

// Tells whether a line ends in ` HTTP/1.` and a digit.
fn is_request_line(line: &[u8]) -> bool
    ensures { result ≡ is_request_line line.now }
{
    let size = line.len();
    if size < VERSION_SIZE {
        return false;
    }
    let version = &line[size - VERSION_SIZE..size - 1];
    is_word(version, b" HTTP/1.") && line[size - 1].is_ascii_digit()
}
