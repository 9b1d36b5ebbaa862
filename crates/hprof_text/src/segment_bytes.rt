//! A buffer for bytes, in room that is reserved before they are written.
ghost use Rattle.std.specs.Prelude.{◌≡◌, ◌+◌, ◌<◌, ◌≤◌, ◌^◌, ◌++◌, length, drop, [], IfOk, IfErr};
ghost use Rattle.heap_class.specs.declared.Refusal.TheVariants.{NoMemory};
ghost use Rattle.hprof_text.specs.SegmentContents.{HasRoom};
ghost use Rattle.hprof_text.specs.Text.{u1, u4, id, record_of};
ghost use Rattle.byteorder.specs.Endian.{big_bytes};

use byteorder::{BigEndian, ByteOrder};
use heap_class::{IdSize, Refusal};
use hprof_records::write_head;
use std::alloc::{AllocError, Global};
use std::marker::Model;

/// A buffer with room for a number of bytes. Contracts see the bytes written, and that number.
#[derive(Drop)]
pub struct SegmentBytes {
    bytes: Vec<u8>,
    limit: usize,
}

impl Model for SegmentBytes {
    ghost use Rattle.std.specs.Prelude.{◌≤◌};
    ghost use Rattle.std.specs.Vec.{vec_capacity};
    ghost use Rattle.hprof_text.specs.SegmentContents.{Buffered};

    ghost Value = { Buffered };

    ghost view = { λ b. record { written = b.bytes.items; limit = b.limit } };

    ghost invariant = { λ b. b.limit ≤ vec_capacity b.bytes };
}

impl SegmentBytes {
    /// Creates an empty buffer with room for `limit` bytes, which are reserved at once. Fails if the allocation fails.
    pub fn new(alloc: Global, limit: usize) -> Result<SegmentBytes, AllocError>
        ensures { IfOk result (λ b. b ≡ record { written = []; limit = limit }) }
    {
        let bytes = Vec::with_capacity(alloc, limit)?;
        Ok(SegmentBytes { bytes, limit })
    }

    /// Makes room for `more` bytes behind those written, and returns NoMemory if the allocation fails.
    #[inline(always)]
    pub fn reserve(&mut self, more: usize) -> Result<(), Refusal>
        ensures written { self.new.written ≡ self.old.written }
        ensures limit { self.old.limit ≤ self.new.limit }
        ensures room { IfOk result (λ u. length self.new.written + more ≤ self.new.limit) }
        ensures refused { IfErr result (λ e. e ≡ NoMemory) }
    {
        if self.bytes.capacity() - self.bytes.len() < more {
            if self.bytes.reserve_exact(more).is_err() {
                return Err(Refusal::NoMemory);
            }
        }
        self.limit = self.bytes.capacity();
        Ok(())
    }

    /// Returns the bytes written.
    pub fn into_vec(self) -> Vec<u8>
        ensures { result.items ≡ self.written }
    {
        let SegmentBytes { bytes, limit: _ } = self;
        bytes
    }

    /// Returns the number of bytes written.
    pub fn len(&self) -> usize
        ensures { result ≡ length self.now.written }
    {
        self.bytes.len()
    }

    /// Writes the head of a record over the first nine bytes, which must be written. Its body is what was written behind them,
    /// of less than 2^32 bytes.
    pub(crate) fn set_head(&mut self, tag: u8)
        requires room { 9 ≤ length self.old.written }
        requires fits { length self.old.written < 9 + 2 ^ 32 }
        ensures written { self.new.written ≡ record_of tag (drop 9 self.old.written) }
        ensures limit { self.new.limit ≡ self.old.limit }
    {
        write_head(&mut self.bytes, tag);
    }

    /// Appends bytes, for which there must be room. Takes no memory.
    #[inline(always)]
    pub fn bytes(&mut self, bytes: &[u8])
        requires { HasRoom self.old bytes.now }
        ensures written { self.new.written ≡ self.old.written ++ bytes.now }
        ensures limit { self.new.limit ≡ self.old.limit }
    {
        // Tells the compiler that the vector doesn't grow.
        if self.bytes.capacity() - self.bytes.len() < bytes.len() {
            unreachable!()
        }
        if self.bytes.extend_from_slice(bytes).is_err() {
            unreachable!()
        }
    }

    /// Appends the low `width` bytes of a number, at most 8, the highest first. There must be room. Takes no memory.
    #[inline(always)]
    pub fn number(&mut self, width: usize, value: u64)
        requires width { width ≤ 8 }
        requires room { HasRoom self.old (big_bytes width value) }
        ensures written { self.new.written ≡ self.old.written ++ big_bytes width value }
        ensures limit { self.new.limit ≡ self.old.limit }
    {
        let mut bytes = [0; 8];
        BigEndian::write_u64(&mut bytes, value);
        match width {
            8 => self.bytes(&bytes),
            4 => self.bytes(&bytes[4..]),
            2 => self.bytes(&bytes[6..]),
            1 => self.bytes(&bytes[7..]),
            _ => self.bytes(&bytes[8 - width..]),
        }
    }

    /// Appends a number of 1 byte. There must be room. Takes no memory.
    #[inline(always)]
    pub fn u1(&mut self, value: u8)
        requires { HasRoom self.old (u1 value) }
        ensures written { self.new.written ≡ self.old.written ++ u1 value }
        ensures limit { self.new.limit ≡ self.old.limit }
    {
        self.bytes(&[value]);
    }

    /// Appends a number of 4 bytes. There must be room. Takes no memory.
    #[inline(always)]
    pub fn u4(&mut self, value: u32)
        requires { HasRoom self.old (u4 value) }
        ensures written { self.new.written ≡ self.old.written ++ u4 value }
        ensures limit { self.new.limit ≡ self.old.limit }
    {
        let mut bytes = [0; 4];
        BigEndian::write_u32(&mut bytes, value);
        self.bytes(&bytes);
    }

    /// Appends an identifier, of which the low bytes are written. There must be room. Takes no memory.
    #[inline(always)]
    pub fn id(&mut self, ids: IdSize, value: u64)
        requires { HasRoom self.old (id ids value) }
        ensures written { self.new.written ≡ self.old.written ++ id ids value }
        ensures limit { self.new.limit ≡ self.old.limit }
    {
        self.number(ids.bytes() as usize, value);
    }
}
