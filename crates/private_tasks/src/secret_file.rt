//! The file of the secret of a served heap.
ghost use Rattle.std.specs.Prelude.{◌≡◌, ◌⊎◌, true, IfErr, IfOk, is_some};
ghost use Rattle.private_tasks.specs.declared.failure.Fault.TheVariants as fault;

use crate::failure::Fault;
use crate::reasons::{tell_path, tell_reason};
use secret_word::{FIRST_LINE_LIMIT, Secret};
use std::fs::{Files, OpenFile};
use std::io::Read;
use std::os::unix::fs::PermissionsExt;
use std::{fs, io};

// The bits of a file's mode by which others than its owner may use it.
const OTHERS: u32 = 0o077;

// The room for what a file has: one byte more than a secret with its line's end.
const ROOM: usize = FIRST_LINE_LIMIT + 1;

/// Reads the secret from the file of a path, if clients have to know one. Fails with Secret if the file can't be read, if others
/// than its owner may use it, or if it has no secret, and says why on standard error, if that is a terminal. Fails with Memory if
/// there is no path.
pub fn secret_for<R: AllocGlobal + Eprint + Files>(
    rt: &R,
    is_wanted: bool,
    path: Option<&str>,
    is_terminal: bool,
) -> Result<Option<Secret>, Fault>
    ensures secret { IfOk result (λ s. is_some s ≡ is_wanted) }
    ensures fault { IfErr result (λ f. (is_wanted ≡ true)
        × ((f ≡ fault.Secret) ⊎ (f ≡ fault.Memory))) }
{
    if !is_wanted {
        return Ok(None);
    }
    let Some(path) = path else {
        return Err(Fault::Memory);
    };
    match secret_of(rt, path, is_terminal) {
        Ok(secret) => Ok(Some(secret)),
        Err(fault) => Err(fault),
    }
}

// Reads the secret from a file. Fails with Secret.
fn secret_of<R: AllocGlobal + Eprint + Files>(
    rt: &R,
    path: &str,
    is_terminal: bool,
) -> Result<Secret, Fault>
    ensures { IfErr result (λ f. f ≡ fault.Secret) }
{
    let mut room = [0u8; ROOM];
    match read_own(rt, path, &mut room) {
        Ok(Some(size)) => match Secret::of_text(room.get(..size).unwrap_or(&[])) {
            Some(secret) => return Ok(secret),
            None => tell_reason(
                rt,
                is_terminal,
                path,
                "no word of 16 to 64 letters and digits",
            ),
        },
        Ok(None) => tell_reason(rt, is_terminal, path, "others than its owner may use it"),
        Err(error) => tell_path(rt, is_terminal, path, &error),
    }
    Err(Fault::Secret)
}

// Reads the beginning of a file that its owner alone may use, and returns the number of bytes; None if others may use it.
fn read_own<R: Files>(rt: &R, path: &str, room: &mut [u8; ROOM]) -> io::Result<Option<usize>> {
    let mut file = fs::open(rt, path)?;
    if file.metadata()?.permissions().mode() & OTHERS != 0 {
        return Ok(None);
    }
    let mut size: usize = 0;
    for _ in 0..ROOM {
        let count = file.read(&mut room[size.min(ROOM)..])?;
        if count == 0 {
            break;
        }
        size = size.saturating_add(count);
    }
    Ok(Some(size))
}
