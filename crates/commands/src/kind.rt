// The kinds of commands: each has a number, which stands in front of the command's spelling.
ghost use Rattle.std.specs.Prelude.{◌≡◌};
ghost use Rattle.commands.specs.Kind.{Decodes, kind_number};

use std::error::Error;
use std::fmt;

#[derive(Clone, Copy, Debug, PartialEq, Eq)]
pub enum Kind {
    WriteFile = 1,
    DropFile = 2,
    Commit = 3,
    Branch = 4,
    GoTo = 5,
    History = 6,
    ShowFile = 7,
    Status = 8,
    ReadFile = 9,
    Join = 10,
    Settle = 11,
    Leave = 12,
    MoveOnto = 13,
    Carry = 14,
    Forget = 15,
    Tag = 16,
    Who = 17,
    Sweep = 18,
    Fetch = 19,
}

// A number in front of which no command is spelled.
#[derive(Clone, Copy, Debug, PartialEq, Eq)]
pub struct NoKind(pub u8);

impl Kind {
    pub fn number(self) -> u8
        ensures { result ≡ kind_number self }
    {
        self as u8
    }
}

impl TryFrom<u8> for Kind {
    type Error = NoKind;

    ghost try_from_gives = { Decodes };

    fn try_from(number: u8) -> Result<Self, NoKind> {
        match number {
            1 => Ok(Kind::WriteFile),
            2 => Ok(Kind::DropFile),
            3 => Ok(Kind::Commit),
            4 => Ok(Kind::Branch),
            5 => Ok(Kind::GoTo),
            6 => Ok(Kind::History),
            7 => Ok(Kind::ShowFile),
            8 => Ok(Kind::Status),
            9 => Ok(Kind::ReadFile),
            10 => Ok(Kind::Join),
            11 => Ok(Kind::Settle),
            12 => Ok(Kind::Leave),
            13 => Ok(Kind::MoveOnto),
            14 => Ok(Kind::Carry),
            15 => Ok(Kind::Forget),
            16 => Ok(Kind::Tag),
            17 => Ok(Kind::Who),
            18 => Ok(Kind::Sweep),
            19 => Ok(Kind::Fetch),
            _ => Err(NoKind(number)),
        }
    }
}

impl fmt::Display for NoKind {
    fn fmt<W: fmt::Write>(&self, f: &mut fmt::Formatter<W>) -> fmt::Result {
        write!(f, "no command is of kind {}", self.0)
    }
}

impl Error for NoKind {}
