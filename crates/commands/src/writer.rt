ghost use Rattle.std.specs.Prelude.{◌≡◌, ◌+◌, ◌≤◌, true, length, IfSome};
ghost use Rattle.commands.specs.Meaning.{meant};
ghost use Rattle.commands.specs.Parse.{if_so, within};
ghost use Rattle.pages.specs.Bytes.{all_bytes, with_length};
ghost use Rattle.commands.specs.declared.parts.Piece.TheVariants.{Row};
ghost use Rattle.commands.specs.Spell.{parts_of, piece_bytes, piece_fits, spelled_over, spelled_size, written};

use crate::command::Command;
use crate::parts::{NAME, Parts, Piece, REF, TEXT};
use pages::bytes::in_eight;

// The piece of a name or a path.
fn name<'a>(bytes: &'a [u8]) -> Piece<'a>
    ensures { result ≡ Row bytes.entry 1 64 }
{
    Piece::Row(bytes, 1, NAME)
}

// The kind and the pieces of a command, each with its limits.
fn parts<'a>(command: Command<'a>) -> Parts<'a>
    ensures { result ≡ parts_of command.entry }
{
    let (first, second) = match command {
        Command::WriteFile(path, bytes) => (Some(name(path)), Some(Piece::Row(bytes, 0, TEXT))),
        Command::DropFile(path) => (Some(name(path)), None),
        Command::Commit(stamp, words) => (
            Some(Piece::Number(stamp, u64::MAX)),
            Some(Piece::Row(words, 0, TEXT)),
        ),
        Command::Branch(branch) => (Some(name(branch)), None),
        Command::GoTo(branch) => (Some(name(branch)), None),
        Command::History => (None, None),
        Command::ShowFile(branch, path) => (Some(Piece::Row(branch, 1, REF)), Some(name(path))),
        Command::Status => (None, None),
        Command::ReadFile(path) => (Some(name(path)), None),
        Command::Join(branch) => (Some(Piece::Row(branch, 1, REF)), None),
        Command::Settle(path) => (Some(name(path)), None),
        Command::Leave => (None, None),
        Command::MoveOnto(branch) => (Some(Piece::Row(branch, 1, REF)), None),
        Command::Carry(id) => (Some(name(id)), None),
        Command::Forget(branch) => (Some(name(branch)), None),
        Command::Tag(tag) => (Some(name(tag)), None),
        Command::Who(path) => (Some(name(path)), None),
        Command::Sweep => (None, None),
        Command::Fetch(house) => (Some(Piece::Number(house, 15)), None),
    };
    Parts {
        kind: command.kind(),
        first,
        second,
    }
}

// How many bytes a row of so many bytes is spelled with, or none where it does not fit.
fn row_size(count: usize, fewest: u16, most: u16) -> Option<usize>
    ensures is { result ≡ if_so (within fewest most count) (8 + count) }
    ensures small { IfSome result (λ n. n ≤ 65543) }
{
    // As it stands: `then_some` would add first, and a closure for `then` would not know the test, without which the sum may not fit.
    if usize::from(fewest) <= count && count <= usize::from(most) {
        Some(8 + count)
    } else {
        None
    }
}

// How many bytes a piece is spelled with, or none where it does not fit.
fn measure(piece: Option<Piece>) -> Option<usize>
    ensures is { result ≡ if_so (piece_fits piece.entry) (length (piece_bytes piece.entry)) }
    ensures small { IfSome result (λ n. n ≤ 65543) }
{
    let Some(piece) = piece else {
        return Some(0);
    };
    match piece {
        Piece::Number(n, most) => if n <= most { Some(8) } else { None },
        Piece::Row(bytes, fewest, most) => row_size(bytes.len(), fewest, most),
    }
}

// Writes the bytes over the row from `at` on, and says where they end.
// As it stands: a writer that holds the row and the place would repeat these clauses at each of its methods.
fn put(out: &mut [u8], at: usize, bytes: &[u8]) -> usize
    requires { at + length bytes.now ≤ length out.old }
    ensures row { out.new ≡ written out.old at bytes.now }
    ensures end { result ≡ at + length bytes.now }
{
    let end = at + bytes.len();
    out[at..end].copy_from_slice(bytes);
    end
}

// Writes bytes with their length in front.
fn put_row(out: &mut [u8], at: usize, bytes: &[u8]) -> usize
    requires { at + (8 + length bytes.now) ≤ length out.old }
    ensures row { out.new ≡ written out.old at (with_length bytes.now) }
    ensures end { result ≡ at + (8 + length bytes.now) }
    ensures real { all_bytes bytes.now ≡ true }
{
    let middle = put(out, at, &in_eight(bytes.len() as u64));
    put(out, middle, bytes)
}

// Writes a piece over the row from `at` on, and says where it ends.
fn put_piece(out: &mut [u8], at: usize, piece: Option<Piece>) -> usize
    requires { at + length (piece_bytes piece) ≤ length out.old }
    ensures row { out.new ≡ written out.old at (piece_bytes piece.entry) }
    ensures end { result ≡ at + length (piece_bytes piece.entry) }
    ensures real { all_bytes (piece_bytes piece.entry) ≡ true }
{
    let Some(piece) = piece else {
        return at;
    };
    match piece {
        Piece::Number(n, _) => put(out, at, &in_eight(n)),
        Piece::Row(bytes, _, _) => put_row(out, at, bytes),
    }
}

// Writes the command's spelling to the front of the row and says how long it is.
// A command that does not fit, or that the row has no room for, is refused, and the row stays as it was.
pub fn spell(command: Command, out: &mut [u8]) -> Option<usize>
    ensures size { result ≡ spelled_size (meant command.entry) out.old }
    ensures row { out.new ≡ spelled_over (meant command.entry) out.old }
{
    let Parts {
        kind,
        first,
        second,
    } = parts(command);
    let first_size = measure(first)?;
    let second_size = measure(second)?;
    if out.len() < 1 + first_size + second_size {
        return None;
    }
    let behind_kind = put(out, 0, &[kind.number()]);
    let behind_first = put_piece(out, behind_kind, first);
    Some(put_piece(out, behind_first, second))
}
