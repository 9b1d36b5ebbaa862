//! The front of a record's head.
ghost use Rattle.std.specs.Prelude.{◌≡◌, length};

/// The size in bytes of a record's head, less its last byte.
pub const HEAD_ROOM: usize = 8;

/// The first bytes of a record's head.
#[derive(Clone, Copy)]
pub struct Front {
    /// The bytes, and zeros after them.
    pub bytes: [u8; HEAD_ROOM],
    /// How many have come.
    pub count: usize,
    ghost sized: { length bytes ≡ 8 },
}
