// Why a line is no command.
use std::alloc::{AllocError, AllocFailed};
use std::fmt;

#[derive(Clone, Copy, Debug)]
pub enum Unread<'a> {
    NoCommand(&'a str),
    // Something is missing: what.
    Missing(&'static str),
    // More stands on the line than the command takes.
    Extra(&'a str),
    // A backslash that begins no escape.
    Escape(&'a str),
    NoNumber(&'a str),
    NoDigits(&'a str),
    // What has so many bytes, and how many it may have.
    TooLong(&'static str, usize, usize),
    NoHouse(u64),
    NoText,
    NoSpelling,
    Memory,
}

impl From<AllocError> for Unread<'_> {
    fn from(_error: AllocError) -> Self {
        Unread::Memory
    }
}

// As it stands: std has two errors of memory, and `?` wants an impl for each.
impl<T: Drop> From<AllocFailed<T>> for Unread<'_> {
    fn from(_error: AllocFailed<T>) -> Self {
        Unread::Memory
    }
}

impl fmt::Display for Unread<'_> {
    fn fmt<W: fmt::Write>(&self, f: &mut fmt::Formatter<W>) -> fmt::Result {
        match self {
            Unread::NoCommand(word) => write!(f, "no such command: {word}"),
            Unread::Missing(what) => write!(f, "missing: {what}"),
            Unread::Extra(rest) => write!(f, "more than the command takes: {rest}"),
            Unread::Escape(word) => write!(f, "a backslash that begins no escape: {word}"),
            Unread::NoNumber(word) => write!(f, "not a number below 2^64: {word}"),
            Unread::NoDigits(word) => write!(f, "not pairs of hexadecimal digits: {word}"),
            Unread::TooLong(what, size, most) => {
                write!(f, "{what} of {size} bytes, at most {most}")
            }
            Unread::NoHouse(number) => write!(f, "not a house from 0 to 15: {number}"),
            Unread::NoText => f.write_str("not UTF-8: write other bytes as \\xHH"),
            Unread::NoSpelling => f.write_str("it does not fit into a command"),
            Unread::Memory => f.write_str("out of memory"),
        }
    }
}
