//! The header of a dump.
ghost use Rattle.std.specs.Prelude.{◌≡◌, ◌++◌, ◌<◌, ◌^◌, List, ℕ, IfOk};
ghost use Rattle.hprof_reader.specs.Headers.{header_text, ids_of, times_at, after_name, header_parts};
ghost use Rattle.hprof_reader.specs.Reading.{Gives, IsRead};

use crate::fault::Fault;
use crate::numbers::{bytes_at, u4_at};
use heap_class::IdSize;

// The name of the format, and a zero.
const FORMAT_NAME: &[u8] = b"JAVA PROFILE 1.0.2\0";

/// The header of a dump.
#[derive(Clone, Copy, PartialEq, Eq, Debug)]
pub struct Header {
    /// The size of identifiers.
    pub ids: IdSize,
    /// The time, in milliseconds since 1970.
    pub time: u64,
}

/// Reads the header at the front of a dump. Returns it with the bytes after it. Fails with Header if no such file begins so, or
/// with Short if the bytes end within the header.
pub fn header_at(bytes: &[u8]) -> Result<(Header, &[u8]), Fault>
    ensures found { IfOk result
        (λ x. (x.0.time < 2 ^ 64) × (bytes.now ≡ header_text x.0 ++ x.1.now)) }
    ensures only { (h : Header) (rest : List ℕ) → h.time < 2 ^ 64
        → bytes.now ≡ header_text h ++ rest
        → IsRead (λ x. (x.0, x.1.now)) result h rest }
{
    read_header(bytes)
}

#[tactic(auto, unfolding(crate::specs::Headers::header_parts))]
fn read_header(bytes: &[u8]) -> Result<(Header, &[u8]), Fault>
    ensures { Gives (λ x. (x.0, x.1.now)) result (header_parts bytes.now) }
{
    let (name, rest) = bytes_at(19, bytes)?;
    if name != FORMAT_NAME {
        return Err(Fault::Header);
    }
    after_name(rest)
}

// Reads what follows the name of the format.
fn after_name(bytes: &[u8]) -> Result<(Header, &[u8]), Fault>
    ensures { Gives (λ x. (x.0, x.1.now)) result (after_name bytes.now) }
{
    let (size, rest) = u4_at(bytes)?;
    times_at(ids_of(size), rest)
}

// Reads the two halves of the time.
fn times_at(ids: Option<IdSize>, bytes: &[u8]) -> Result<(Header, &[u8]), Fault>
    ensures { Gives (λ x. (x.0, x.1.now)) result (times_at ids bytes.now) }
{
    let Some(ids) = ids else {
        return Err(Fault::Header);
    };
    let (high, rest) = u4_at(bytes)?;
    let (low, rest) = u4_at(rest)?;
    let time = high as u64 * 0x1_0000_0000 + low as u64;
    Ok((Header { ids, time }, rest))
}

// Returns identifiers of `size` bytes, if there are such.
fn ids_of(size: u32) -> Option<IdSize>
    ensures { result ≡ ids_of size }
{
    match size {
        4 => Some(IdSize::Four),
        8 => Some(IdSize::Eight),
        _ => None,
    }
}
