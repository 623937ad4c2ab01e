// What stops the program.
ghost use Rattle.std.specs.Prelude.{◌≡◌, ◌↔◌, ◌<◌, ◌≤◌, IfOk, IsOk};

use std::alloc::{AllocError, AllocFailed};
use std::num::ParseIntError;
use std::{fmt, io};

// The house refused with a number, from 1 to 999.
#[derive(Clone, Copy, Debug, PartialEq, Eq)]
pub struct Refused(pub u64);

impl TryFrom<u64> for Refused {
    type Error = Trouble;

    ghost try_from_gives = { λ number res. (IsOk res ↔ ((1 ≤ number) × (number < 1000))) × IfOk res (λ refused. refused.0 ≡ number) };

    fn try_from(number: u64) -> Result<Self, Trouble> {
        if 1 <= number && number < 1000 {
            Ok(Refused(number))
        } else {
            Err(Trouble::Fault)
        }
    }
}

impl fmt::Display for Refused {
    fn fmt<W: fmt::Write>(&self, f: &mut fmt::Formatter<W>) -> fmt::Result {
        let number = self.0;
        write!(f, "refused {number}")
    }
}

#[derive(Debug, Drop)]
pub enum Trouble {
    Usage,
    // The number of pages that was asked for is no number, or too low or too high.
    Count,
    // The file is none of bytes, as a directory.
    NoFile,
    // The file has so many bytes, which are no pages.
    Size(u64),
    // The file has so many pages, and another number was asked for.
    Differs(u64, u64),
    // What could not be done, and why.
    System(&'static str, io::Error),
    Memory,
    // The house refused to start.
    Start(Refused),
    // The house did what no house does.
    Fault,
    // A command made more acts than any should.
    Endless,
}

impl From<ParseIntError> for Trouble {
    fn from(_error: ParseIntError) -> Trouble {
        Trouble::Count
    }
}

impl From<AllocError> for Trouble {
    fn from(_error: AllocError) -> Trouble {
        Trouble::Memory
    }
}

// As it stands: std has two errors of memory, and `?` wants an impl for each.
impl<T: Drop> From<AllocFailed<T>> for Trouble {
    fn from(_error: AllocFailed<T>) -> Trouble {
        Trouble::Memory
    }
}

impl fmt::Display for Trouble {
    fn fmt<W: fmt::Write>(&self, f: &mut fmt::Formatter<W>) -> fmt::Result {
        match self {
            Trouble::Usage => f.write_str("FILE [PAGES] are the arguments"),
            Trouble::Count => f.write_str("PAGES is a number from 64 to 1048576"),
            Trouble::NoFile => f.write_str("not a plain file"),
            Trouble::Size(bytes) => {
                write!(
                    f,
                    "{bytes} bytes, not 64 to 1048576 whole pages of 512 bytes"
                )
            }
            Trouble::Differs(found, asked) => write!(f, "{found} pages, not {asked}"),
            Trouble::System(what, error) => write!(f, "cannot {what}: {error}"),
            Trouble::Memory => f.write_str("out of memory"),
            Trouble::Start(refused) => write!(f, "the house does not start: {refused}"),
            Trouble::Fault => f.write_str("the house did what no house does"),
            Trouble::Endless => f.write_str("the command does not end"),
        }
    }
}

// What the system answered, or what could not be done.
pub fn system<T: Drop>(what: &'static str, res: io::Result<T>) -> Result<T, Trouble> {
    res.map_err(|error| Trouble::System(what, error))
}
