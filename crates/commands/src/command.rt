ghost use Rattle.std.specs.Prelude.{◌≡◌};
ghost use Rattle.commands.specs.Kind.{kind_of};

use crate::kind::Kind;

// What can be asked of a house. Names, paths and texts are lent from where the command was read.
#[derive(Clone, Copy, Debug, PartialEq, Eq)]
pub enum Command<'a> {
    // a path, bytes
    WriteFile(&'a [u8], &'a [u8]),
    DropFile(&'a [u8]),
    // a stamp, words
    Commit(u64, &'a [u8]),
    // a new branch from here
    Branch(&'a [u8]),
    GoTo(&'a [u8]),
    History,
    // a branch, a path
    ShowFile(&'a [u8], &'a [u8]),
    // what differs from the last commit
    Status,
    // a path, as it is in work
    ReadFile(&'a [u8]),
    Join(&'a [u8]),
    // a path that clashes, as it stands
    Settle(&'a [u8]),
    // work and joining given up
    Leave,
    // our commits once more, on top of a branch
    MoveOnto(&'a [u8]),
    // one commit by its id, once more here
    Carry(&'a [u8]),
    // a branch
    Forget(&'a [u8]),
    // a name that stays with this commit
    Tag(&'a [u8]),
    // which commit a path is from
    Who(&'a [u8]),
    Sweep,
    // from another house
    Fetch(u64),
}

impl Command<'_> {
    pub fn kind(self) -> Kind
        ensures { result ≡ kind_of self.entry }
    {
        match self {
            Command::WriteFile(_, _) => Kind::WriteFile,
            Command::DropFile(_) => Kind::DropFile,
            Command::Commit(_, _) => Kind::Commit,
            Command::Branch(_) => Kind::Branch,
            Command::GoTo(_) => Kind::GoTo,
            Command::History => Kind::History,
            Command::ShowFile(_, _) => Kind::ShowFile,
            Command::Status => Kind::Status,
            Command::ReadFile(_) => Kind::ReadFile,
            Command::Join(_) => Kind::Join,
            Command::Settle(_) => Kind::Settle,
            Command::Leave => Kind::Leave,
            Command::MoveOnto(_) => Kind::MoveOnto,
            Command::Carry(_) => Kind::Carry,
            Command::Forget(_) => Kind::Forget,
            Command::Tag(_) => Kind::Tag,
            Command::Who(_) => Kind::Who,
            Command::Sweep => Kind::Sweep,
            Command::Fetch(_) => Kind::Fetch,
        }
    }
}
