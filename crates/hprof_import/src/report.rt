//! What the program tells on standard error. A write there that fails changes nothing.

/// Tells how the program is called.
pub(crate) fn usage<R: Eprint>(rt: &R) {
    let _ = eprintln!(rt; "usage: heapdbg-import [--area] FILE [--then SECOND] OUT");
}

/// Tells why a file can't be used.
pub(crate) fn tell_path<R: Eprint>(rt: &R, path: &str, reason: &str) {
    let _ = eprintln!(rt; "heapdbg-import: {path}: {reason}");
}
