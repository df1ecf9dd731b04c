#![tactic(auto, unfolding(numbers::specs::Field::when, numbers::specs::Field::field))]
// A box as a row of fields: one reader for any row. One writer for any row stands beside it (`layout_write`).
pub mod read;
pub mod rule;
pub mod table;

// What a box has at a place. Widths are in bytes, 8 at most.
#[derive(Clone, Copy)]
pub enum Field {
    // a number of this width
    Number(u8),
    // a width, and the value that is written; what is read is dropped
    Reserved(u8, u64),
    // the widths in version 0 and in version 1
    Wide(u8, u8),
    // a width, and the flag with which it is there
    Optional(u8, u32),
    // a width, and the least value allowed
    Least(u8, u64),
    // one byte, from and to
    Version(u8, u8),
    // three bytes
    Flags,
    Nothing,
}

// The bytes of a row, unless a value can not be written.
#[derive(Clone, Copy)]
pub struct Coded {
    pub ok: bool,
    pub len: usize,
    pub bytes: [u8; 192],
}
