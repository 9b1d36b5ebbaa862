//! The records of a dump, followed byte by byte.
ghost use Rattle.std.specs.Prelude.{◌≡◌, ◌∷◌, ◌++◌, [], ℕ, List};
ghost use Rattle.hprof_records.specs.Records.{completes, header_size};

use crate::front::{Front, HEAD_ROOM};
use crate::tags::HEAP_DUMP_END;

// The size of the header of a dump in bytes.
const HEADER_SIZE: u64 = 31;

/// How far a dump has come.
#[derive(Clone, Copy)]
pub enum Scan {
    /// This many bytes are left of the header or of a record's body, and then a record begins.
    Within(u64),
    /// The front of a record's head has come.
    Head(Front),
    /// The last record has come, and nothing after it.
    Ended,
    /// It is no dump.
    Broken,
}

impl Scan {
    /// Creates a scan of which nothing has come.
    pub fn new() -> Scan
        ensures { result ≡ Scan.Within header_size }
    {
        Scan::Within(HEADER_SIZE)
    }

    /// Follows the next bytes. What completed the dump after them is what completes it now.
    pub fn follow(&mut self, bytes: &[u8])
        ensures { (rest : List ℕ)
            → completes self.old (bytes.now ++ rest) ≡ completes self.new rest }
    {
        for byte in bytes {
            *self = self.step(*byte);
        }
    }

    /// Tells whether the dump is whole if nothing more comes.
    pub fn is_ended(&self) -> bool
        ensures { result ≡ completes self.now [] }
    {
        match self {
            Scan::Ended => true,
            Scan::Within(_) => false,
            Scan::Head(_) => false,
            Scan::Broken => false,
        }
    }

    // Returns the scan after one byte more.
    fn step(self, byte: u8) -> Scan
        ensures { (rest : List ℕ) → completes self (byte ∷ rest) ≡ completes result rest }
    {
        match self {
            Scan::Within(left) => after_byte(left, byte),
            Scan::Head(front) => after_front(front, byte),
            Scan::Ended => Scan::Broken,
            Scan::Broken => Scan::Broken,
        }
    }
}

// Returns the scan after one byte more of the header or of a body of which this many bytes are left, or of the next head.
fn after_byte(left: u64, byte: u8) -> Scan
    ensures { (rest : List ℕ) → completes (Scan.Within left) (byte ∷ rest) ≡ completes result rest }
{
    if left > 0 {
        return Scan::Within(left - 1);
    }
    Scan::Head(Front {
        bytes: [byte, 0, 0, 0, 0, 0, 0, 0],
        count: 1,
    })
}

// Returns the scan after one byte more of a head.
fn after_front(front: Front, byte: u8) -> Scan
    ensures { (rest : List ℕ) → completes (Scan.Head front) (byte ∷ rest) ≡ completes result rest }
{
    let Front { mut bytes, count } = front;
    if count < HEAD_ROOM {
        bytes[count] = byte;
        return Scan::Head(Front {
            bytes,
            count: count + 1,
        });
    }
    let size = u32::from_be_bytes([bytes[5], bytes[6], bytes[7], byte]);
    if bytes[0] != HEAP_DUMP_END {
        return Scan::Within(size as u64);
    }
    if size == 0 { Scan::Ended } else { Scan::Broken }
}
