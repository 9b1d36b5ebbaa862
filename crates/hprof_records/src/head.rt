//! The head of a record.
ghost use Rattle.std.specs.Prelude.{◌≡◌, ◌+◌, ◌<◌, ◌≤◌, ◌^◌, length, drop};
ghost use Rattle.hprof_records.specs.Heads.{record_of};
ghost use Rattle.hprof_records.specs.Records.{head_size};

use byteorder::{BigEndian, ByteOrder};

/// The size of a record's head in bytes: its tag, time and length.
pub const HEAD_SIZE: usize = 9;

/// Writes the head of a record over its first nine bytes: the tag, time 0, and the length of the body, which is all that stands
/// behind the head. The body must have less than 2^32 bytes.
pub fn write_head(bytes: &mut [u8], tag: u8)
    requires room { head_size ≤ length bytes.old }
    requires fits { length bytes.old < head_size + 2 ^ 32 }
    ensures { bytes.new ≡ record_of tag (drop head_size bytes.old) }
{
    let length = bytes.len() - HEAD_SIZE;
    let mut head = [0; HEAD_SIZE];
    head[0] = tag;
    BigEndian::write_u32(&mut head[5..], length as u32);
    bytes[..HEAD_SIZE].copy_from_slice(&head);
}
