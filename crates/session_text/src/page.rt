//! Reply buffers: text that isn't written yet.
ghost use Rattle.std.specs.Prelude.{◌≡◌, ◌+◌, ◌*◌, ◌≤◌, ◌++◌, [], codes, take, length, IfOk};
ghost use Rattle.hex.specs.Hex.{encode_lower};
ghost use Rattle.session_text.specs.Replies.{and_number};
ghost use Rattle.session_text.specs.declared.page.TheConstants.{NUMBER_LIMIT, PAGE_LIMIT};

use crate::digits::write_digits;
use std::alloc::{AllocError, Global};
use std::marker::Model;

/// The largest number of bytes of a reply buffer.
pub const PAGE_LIMIT: usize = 8192;

/// The largest number of bytes of a space and a number.
pub const NUMBER_LIMIT: usize = 21;

/// Text that isn't written yet. All memory is allocated when the reply buffer is made. Contracts see the bytes.
#[derive(Drop)]
pub struct Page {
    bytes: Vec<u8>,
    used: usize,
}

impl Model for Page {
    ghost use Rattle.std.specs.Prelude.{◌≡◌, ℕ, ◌≤◌, List, take, length};
    ghost use Rattle.session_text.specs.declared.page.TheConstants.{PAGE_LIMIT};

    ghost Value = { List ℕ };

    ghost view = { λ p. take p.used p.bytes.items };

    ghost invariant = { λ p. (p.used ≤ PAGE_LIMIT) × (length p.bytes.items ≡ PAGE_LIMIT) };
}

impl Page {
    /// Creates an empty reply buffer. Fails if the allocation fails.
    pub fn new(alloc: Global) -> Result<Page, AllocError>
        ensures { IfOk result (λ p. p ≡ []) }
    {
        let bytes = vec![in alloc; 0; PAGE_LIMIT]?;
        Ok(Page { bytes, used: 0 })
    }

    /// Returns the bytes.
    pub fn as_slice(&self) -> &[u8]
        ensures value { result.now ≡ self.now }
        ensures most { length self.now ≤ PAGE_LIMIT }
    {
        &self.bytes[..self.used]
    }

    /// Drops all bytes.
    pub fn clear(&mut self)
        ensures { self.new ≡ [] }
    {
        self.used = 0;
    }

    /// Adds a text, for which there must be room.
    pub fn add(&mut self, text: &[u8])
        requires { length self.old + length text.now ≤ PAGE_LIMIT }
        ensures { self.new ≡ self.old ++ text.now }
    {
        place(&mut self.bytes, self.used, text);
        self.used += text.len();
    }

    /// Adds the lower-case hexadecimal digits of some bytes, for which there must be room.
    pub(crate) fn add_hex(&mut self, given: &[u8])
        requires { length self.old + 2 * length given.now ≤ PAGE_LIMIT }
        ensures { self.new ≡ self.old ++ encode_lower given.now }
    {
        place_hex(&mut self.bytes, self.used, given);
        self.used += 2 * given.len();
    }

    /// Adds a text, the lower-case hexadecimal digits of some bytes and LF, for which there must be room.
    #[inline(always)]
    pub(crate) fn add_hex_line(&mut self, text: &[u8], given: &[u8])
        requires { length self.old + (length text.now + (2 * length given.now + 1)) ≤ PAGE_LIMIT }
        ensures { self.new ≡ self.old ++ (text.now ++ (encode_lower given.now ++ codes "\n")) }
    {
        place_hex_line(&mut self.bytes, self.used, text, given);
        self.used += text.len() + 2 * given.len() + 1;
    }

    /// Adds a space and a number.
    pub fn add_number(&mut self, n: u64)
        requires { length self.old + NUMBER_LIMIT ≤ PAGE_LIMIT }
        ensures text { self.new ≡ self.old ++ and_number n }
        ensures short { length self.new ≤ length self.old + NUMBER_LIMIT }
    {
        self.add(b" ");
        self.add(itoa::Buffer::new().format(n).as_bytes());
    }
}

// Writes a text, hexadecimal digits and LF behind the bytes before a place.
#[inline(always)]
fn place_hex_line(bytes: &mut [u8], at: usize, text: &[u8], given: &[u8])
    requires { at + (length text.now + (2 * length given.now + 1)) ≤ length bytes.old }
    ensures { take (at + (length text.now + (2 * length given.now + 1))) bytes.new
        ≡ take at bytes.old ++ (text.now ++ (encode_lower given.now ++ codes "\n")) }
{
    let digits = at + text.len();
    place(bytes, at, text);
    place_hex(bytes, digits, given);
    place(bytes, digits + 2 * given.len(), b"\n");
}

// Writes a text behind the bytes before a place.
fn place(bytes: &mut [u8], at: usize, text: &[u8])
    requires { at + length text.now ≤ length bytes.old }
    ensures { take (at + length text.now) bytes.new ≡ take at bytes.old ++ text.now }
{
    bytes[at..at + text.len()].copy_from_slice(text);
}

// Writes hexadecimal digits behind the bytes before a place.
fn place_hex(bytes: &mut [u8], at: usize, given: &[u8])
    requires { at + 2 * length given.now ≤ length bytes.old }
    ensures { take (at + 2 * length given.now) bytes.new
        ≡ take at bytes.old ++ encode_lower given.now }
{
    write_digits(&mut bytes[at..at + 2 * given.len()], given);
}
