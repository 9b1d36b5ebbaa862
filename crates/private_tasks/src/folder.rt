//! The folder of a file that is to be made.
use std::fs;
use std::fs::Files;
use std::io::Error;
use std::path::Path;

// The number of the error that a file stands where a folder is wanted.
const NO_FOLDER: i32 = 20;

/// Returns why the folder of a path isn't there, or None if it is. Makes nothing. A path that names no file has no folder to
/// look for.
pub fn missing_folder<R: Files>(rt: &R, path: &str) -> Option<Error> {
    match Path::new(path).parent() {
        Some(folder) if folder.as_str().is_empty() => None,
        Some(folder) => not_folder(rt, folder.as_str()),
        None => None,
    }
}

// Returns why a path isn't that of a folder, or None if it is.
fn not_folder<R: Files>(rt: &R, path: &str) -> Option<Error> {
    match fs::metadata(rt, path) {
        Ok(found) if found.is_dir() => None,
        Ok(_) => Some(Error::from_raw_os_error(NO_FOLDER)),
        Err(error) => Some(error),
    }
}

// Tells whether a path is that of a folder.
pub(crate) fn is_folder<R: Files>(rt: &R, path: &str) -> bool {
    not_folder(rt, path).is_none()
}
