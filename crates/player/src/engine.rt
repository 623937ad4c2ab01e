// The house under test.
use commands::Kind;
use pages::told::{Event, Told};

// The kinds of the commands that the house knows. A command that is not known is refused.
const KNOWN: [Kind; 8] = [
    Kind::WriteFile,
    Kind::DropFile,
    Kind::Commit,
    Kind::History,
    Kind::ShowFile,
    Kind::Status,
    Kind::ReadFile,
    Kind::Leave,
];

// One step of the house: what the world tells is taken in, and one act is told.
pub fn step(memory: &mut [u64], event: Event<'_>, out: &mut [u8]) -> Told {
    house::tell(memory, event, out)
}

// Whether the house knows the commands of a kind.
pub fn is_known(kind: Kind) -> bool {
    KNOWN.contains(&kind)
}
