ghost use Rattle.std.specs.Prelude.{◌≡◌};
ghost use Rattle.commands.specs.Kind.{kind_number};
ghost use Rattle.commands.specs.Meaning.{meaning};
ghost use Rattle.commands.specs.Parse.{Answers, behind, first_row, of_kind, one_house, one_row, parsed, past_row, two_rows};

use crate::command::Command;
use crate::kind::Kind;
use crate::parts::{NAME, REF, TEXT};
use pages::bytes::number;

// What stands behind the eight bytes of a number.
fn after<'a>(text: &'a [u8]) -> &'a [u8]
    ensures { result.now ≡ behind text.now }
{
    match text.get(8..) {
        Some(rest) => rest,
        None => &[],
    }
}

// The row whose length is the number in front, and what stands behind it.
fn cut<'a>(text: &'a [u8]) -> (&'a [u8], &'a [u8])
    ensures row { result.0.now ≡ first_row text.now }
    ensures rest { result.1.now ≡ past_row text.now }
{
    let body = after(text);
    body.split_at(number(text).min(body.len() as u64) as usize)
}

// Whether the text is just one row of low to high bytes with its length in front.
fn is_row(text: &[u8], low: u16, high: u16) -> bool
    ensures { result ≡ one_row low high text.now }
{
    let size = number(text);
    text.len() >= 8
        && text.len() as u64 - 8 == size
        && u64::from(low) <= size
        && size <= u64::from(high)
}

// Whether the text is a row of 1 to `top` bytes with its length in front, and behind it just one more of low to high bytes.
fn is_two_rows(text: &[u8], top: u16, low: u16, high: u16) -> bool
    ensures { result ≡ two_rows top low high text.now }
{
    let size = number(text);
    let (_, rest) = cut(text);
    1 <= size && size <= u64::from(top) && is_row(rest, low, high)
}

// Whether the text is just the number of a house.
fn is_house(text: &[u8]) -> bool
    ensures { result ≡ one_house text.now }
{
    text.len() == 8 && number(text) < 16
}

// The command of a kind from what stands behind the kind.
fn read<'a>(kind: Kind, text: &'a [u8]) -> Option<Command<'a>>
    ensures { meaning result ≡ of_kind (kind_number kind) text.now }
{
    let size = number(text);
    let body = after(text);
    let (row, rest) = cut(text);
    let next = after(rest);
    match kind {
        Kind::WriteFile => is_two_rows(text, NAME, 0, TEXT).then_some(Command::WriteFile(
            row, next,
        )),
        Kind::DropFile => is_row(text, 1, NAME).then_some(Command::DropFile(body)),
        Kind::Commit => is_row(body, 0, TEXT).then_some(Command::Commit(size, after(body))),
        Kind::Branch => is_row(text, 1, NAME).then_some(Command::Branch(body)),
        Kind::GoTo => is_row(text, 1, NAME).then_some(Command::GoTo(body)),
        Kind::History => text.is_empty().then_some(Command::History),
        Kind::ShowFile => is_two_rows(text, REF, 1, NAME).then_some(Command::ShowFile(row, next)),
        Kind::Status => text.is_empty().then_some(Command::Status),
        Kind::ReadFile => is_row(text, 1, NAME).then_some(Command::ReadFile(body)),
        Kind::Join => is_row(text, 1, REF).then_some(Command::Join(body)),
        Kind::Settle => is_row(text, 1, NAME).then_some(Command::Settle(body)),
        Kind::Leave => text.is_empty().then_some(Command::Leave),
        Kind::MoveOnto => is_row(text, 1, REF).then_some(Command::MoveOnto(body)),
        Kind::Carry => is_row(text, 1, NAME).then_some(Command::Carry(body)),
        Kind::Forget => is_row(text, 1, NAME).then_some(Command::Forget(body)),
        Kind::Tag => is_row(text, 1, NAME).then_some(Command::Tag(body)),
        Kind::Who => is_row(text, 1, NAME).then_some(Command::Who(body)),
        Kind::Sweep => text.is_empty().then_some(Command::Sweep),
        Kind::Fetch => is_house(text).then_some(Command::Fetch(size)),
    }
}

// The command that the bytes spell, or none where they spell none.
pub fn parse<'a>(text: &'a [u8]) -> Option<Command<'a>>
    ensures is { meaning result ≡ parsed text.now }
    ensures answers { Answers text.now (meaning result) }
{
    let (first, rest) = text.split_first()?;
    let kind = Kind::try_from(*first).ok()?;
    read(kind, rest)
}
