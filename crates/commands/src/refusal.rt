// Why a command is refused: each reason has a number, which a house tells.
ghost use Rattle.std.specs.Prelude.{◌≡◌};
ghost use Rattle.commands.specs.Refusal.{Decodes, number_of};

use std::error::Error;
use std::fmt;

#[derive(Clone, Copy, Debug, PartialEq, Eq)]
pub enum Refusal {
    // the bytes spell no command
    NoCommand = 1,
    // this house doesn't know the command yet
    NotKnown = 2,
    // no such path, name, branch, commit or house
    NotThere = 3,
    // the name has a commit already
    Taken = 4,
    // work that differs from the last commit, or is being joined
    Unclean = 5,
    // paths that clash and aren't settled, a path that doesn't clash, a commit that can't be carried, or the branch that one is on
    Clash = 6,
    // nothing has changed, or theirs is behind ours already
    NothingToDo = 7,
    // more would be kept than a quarter of the pages hold
    NoRoom = 8,
    // the other house can't be reached, or not any more
    NoLine = 9,
    // more than 4,096
    TooManyFiles = 10,
}

// A number by which no command is refused.
#[derive(Clone, Copy, Debug, PartialEq, Eq)]
pub struct NoRefusal(pub u64);

impl Refusal {
    pub fn number(self) -> u64
        ensures { result ≡ number_of self }
    {
        self as u64
    }
}

impl TryFrom<u64> for Refusal {
    type Error = NoRefusal;

    ghost try_from_gives = { Decodes };

    fn try_from(number: u64) -> Result<Self, NoRefusal> {
        match number {
            1 => Ok(Refusal::NoCommand),
            2 => Ok(Refusal::NotKnown),
            3 => Ok(Refusal::NotThere),
            4 => Ok(Refusal::Taken),
            5 => Ok(Refusal::Unclean),
            6 => Ok(Refusal::Clash),
            7 => Ok(Refusal::NothingToDo),
            8 => Ok(Refusal::NoRoom),
            9 => Ok(Refusal::NoLine),
            10 => Ok(Refusal::TooManyFiles),
            _ => Err(NoRefusal(number)),
        }
    }
}

impl fmt::Display for Refusal {
    fn fmt<W: fmt::Write>(&self, f: &mut fmt::Formatter<W>) -> fmt::Result {
        write!(f, "refused {}", self.number())
    }
}

impl fmt::Display for NoRefusal {
    fn fmt<W: fmt::Write>(&self, f: &mut fmt::Formatter<W>) -> fmt::Result {
        write!(f, "no command is refused by {}", self.0)
    }
}

impl Error for NoRefusal {}
