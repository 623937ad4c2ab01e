use crate::kind::Kind;

// The longest name, the longest name with a mark in front, and the longest text.
pub const NAME: u16 = 64;

pub const REF: u16 = 65;

pub const TEXT: u16 = 65535;

// A command as its spelling has it: a kind, and up to two pieces behind it.
#[derive(Clone, Copy)]
pub struct Parts<'a> {
    pub kind: Kind,
    pub first: Option<Piece<'a>>,
    pub second: Option<Piece<'a>>,
}

#[derive(Clone, Copy)]
pub enum Piece<'a> {
    // a number, and the highest that it may be
    Number(u64, u64),
    // bytes, and the fewest and the most that there may be
    Row(&'a [u8], u16, u16),
}
