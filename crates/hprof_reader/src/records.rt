//! The header of a dump and its records.
ghost use Rattle.std.specs.Prelude.{◌≡◌, ◌++◌, ℕ, List, IfOk};
ghost use Rattle.hprof_reader.specs.Records.{Told, told, record_text, FitsRecord};
ghost use Rattle.hprof_reader.specs.Reading.{Gives, IsRead, record_parts};

use crate::fault::Fault;
use crate::numbers::{bytes_at, u1_at, u4_at};

/// A record of a dump.
#[derive(Clone, Copy, PartialEq, Eq, Debug)]
pub struct Record<'a> {
    /// Its tag.
    pub tag: u8,
    /// Its time, in microseconds since the header's.
    pub time: u32,
    /// The bytes of its body.
    pub body: &'a [u8],
}

/// Reads the record at the front of these bytes, of any tag. Returns it with the bytes after it. Fails with Short if no whole
/// record begins there. Takes the same time for each record.
pub fn record_at(bytes: &[u8]) -> Result<(Record<'_>, &[u8]), Fault>
    ensures found { IfOk result
        (λ x. FitsRecord (told x.0) × (bytes.now ≡ record_text (told x.0) ++ x.1.now)) }
    ensures only { (r : Told) (rest : List ℕ) → FitsRecord r → bytes.now ≡ record_text r ++ rest
        → IsRead (λ x. (told x.0, x.1.now)) result r rest }
{
    read_record(bytes)
}

#[tactic(auto, unfolding(crate::specs::Reading::record_parts))]
fn read_record(bytes: &[u8]) -> Result<(Record<'_>, &[u8]), Fault>
    ensures { Gives (λ x. (told x.0, x.1.now)) result (record_parts bytes.now) }
{
    let (tag, rest) = u1_at(bytes)?;
    let (time, rest) = u4_at(rest)?;
    let (size, rest) = u4_at(rest)?;
    let (body, rest) = bytes_at(size as u64, rest)?;
    Ok((Record { tag, time, body }, rest))
}
