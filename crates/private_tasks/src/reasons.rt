//! Why a file or a port can't be used, for a person at a terminal.
use std::alloc::{AllocError, Global};
use std::io::Error;

/// Says on standard error, if that is a terminal, why a file can't be opened or made. A write that fails changes nothing.
pub fn tell_path<R: AllocGlobal + Eprint>(rt: &R, is_terminal: bool, path: &str, error: &Error) {
    if is_terminal && let Ok(reason) = reason_of(rt.alloc(), error) {
        let _ = eprintln!(rt; "heapdbg: {path}: {reason}");
    }
}

// Returns the text of an error without its number. Fails if an allocation fails.
fn reason_of(alloc: Global, error: &Error) -> Result<String, AllocError> {
    let text = format!(in alloc; "{error}")?;
    let reason = text.as_str().split(" (os error").next().unwrap_or("");
    String::from_str(alloc, reason)
}

/// Says on standard error, if that is a terminal, why a file can't be used. A write that fails changes nothing.
pub(crate) fn tell_reason<R: AllocGlobal + Eprint>(
    rt: &R,
    is_terminal: bool,
    path: &str,
    reason: &str,
) {
    if is_terminal {
        let _ = eprintln!(rt; "heapdbg: {path}: {reason}");
    }
}

/// Says on standard error, if that is a terminal, why a port of this computer can't be used. A write that fails changes
/// nothing.
pub fn tell_port<R: AllocGlobal + Eprint>(rt: &R, is_terminal: bool, port: u16, error: &Error) {
    if is_terminal && let Ok(reason) = reason_of(rt.alloc(), error) {
        let _ = eprintln!(rt; "heapdbg: 127.0.0.1:{port}: {reason}");
    }
}
