// Commands as text, and bytes with escapes.
use commands::{Command, parse, spell};
use lines::{escape, hex};
use std::alloc::{AllocError, Global};
use std::fmt;

// The longest spelling: a kind, and two rows with their lengths.
const SPELLING: usize = 65700;

// The first word, and what stands behind it and one space.
pub fn cut_word(text: &str) -> (&str, &str) {
    text.split_once(' ').unwrap_or((text, ""))
}

// The number of a text that is all digits.
pub fn number_of(digits: &str) -> Option<u64> {
    if digits.as_bytes().iter().all(|b| b.is_ascii_digit()) {
        digits.parse::<u64>().ok()
    } else {
        None
    }
}

// Bytes in hexadecimal.
#[derive(Clone, Copy)]
pub struct Hex<'a>(pub &'a [u8]);

// Bytes with escapes.
#[derive(Clone, Copy)]
pub struct Escaped<'a>(pub &'a [u8]);

// Bytes with escapes, but spaces as they are.
#[derive(Clone, Copy)]
pub struct Spaced<'a>(pub &'a [u8]);

impl fmt::Display for Hex<'_> {
    fn fmt<W: fmt::Write>(&self, f: &mut fmt::Formatter<W>) -> fmt::Result {
        for byte in self.0 {
            write!(f, "{byte:02x}")?;
        }
        Ok(())
    }
}

impl fmt::Display for Escaped<'_> {
    fn fmt<W: fmt::Write>(&self, f: &mut fmt::Formatter<W>) -> fmt::Result {
        for byte in self.0 {
            match *byte {
                b'\\' => f.write_str("\\\\")?,
                b' ' => f.write_str("\\s")?,
                33..=126 => f.write_char(char::from(*byte))?,
                _ => write!(f, "\\x{byte:02x}")?,
            }
        }
        Ok(())
    }
}

impl fmt::Display for Spaced<'_> {
    fn fmt<W: fmt::Write>(&self, f: &mut fmt::Formatter<W>) -> fmt::Result {
        for (i, part) in self.0.split(|byte| *byte == b' ').enumerate() {
            if i > 0 {
                f.write_char(' ')?;
            }
            write!(f, "{}", Escaped(part))?;
        }
        Ok(())
    }
}

// A command as text.
#[derive(Clone, Copy)]
struct Spoken<'a>(Command<'a>);

impl fmt::Display for Spoken<'_> {
    fn fmt<W: fmt::Write>(&self, f: &mut fmt::Formatter<W>) -> fmt::Result {
        match self.0 {
            Command::WriteFile(path, bytes) => {
                write!(f, "write {} {}", Escaped(path), Spaced(bytes))
            }
            Command::DropFile(path) => write!(f, "drop {}", Escaped(path)),
            Command::Commit(stamp, words) => write!(f, "commit {stamp} {}", Spaced(words)),
            Command::Branch(name) => write!(f, "branch {}", Escaped(name)),
            Command::GoTo(name) => write!(f, "go to {}", Escaped(name)),
            Command::History => f.write_str("history"),
            Command::ShowFile(name, path) => write!(f, "show {} {}", Escaped(name), Spaced(path)),
            Command::Status => f.write_str("status"),
            Command::ReadFile(path) => write!(f, "read {}", Escaped(path)),
            Command::Join(name) => write!(f, "join {}", Escaped(name)),
            Command::Settle(path) => write!(f, "settle {}", Escaped(path)),
            Command::Leave => f.write_str("leave"),
            Command::MoveOnto(name) => write!(f, "move onto {}", Escaped(name)),
            Command::Carry(id) => write!(f, "carry {}", Hex(id)),
            Command::Forget(name) => write!(f, "forget {}", Escaped(name)),
            Command::Tag(name) => write!(f, "tag {}", Escaped(name)),
            Command::Who(path) => write!(f, "who {}", Escaped(path)),
            Command::Sweep => f.write_str("sweep"),
            Command::Fetch(house) => write!(f, "fetch {house}"),
        }
    }
}

// What is said to a house, as text.
#[derive(Clone, Copy)]
pub struct Said<'a>(pub &'a [u8]);

impl fmt::Display for Said<'_> {
    fn fmt<W: fmt::Write>(&self, f: &mut fmt::Formatter<W>) -> fmt::Result {
        match parse(self.0) {
            Some(command) => write!(f, "{}", Spoken(command)),
            None => write!(f, "raw {}", Hex(self.0)),
        }
    }
}

// The bytes that spell a command; none where it does not fit.
pub fn spelled(heap: Global, command: Command<'_>) -> Result<Option<Vec<u8>>, AllocError> {
    let mut row = vec![in heap; 0u8; SPELLING]?;
    match spell(command, &mut row) {
        Some(size) => {
            row.truncate(size);
            Ok(Some(row))
        }
        None => Ok(None),
    }
}

// The command of a verb and of what is behind it.
fn command_of<'a>(
    verb: &str,
    number: Option<u64>,
    first: &'a [u8],
    second: &'a [u8],
) -> Option<Command<'a>> {
    match verb {
        "write" => Some(Command::WriteFile(first, second)),
        "drop" => Some(Command::DropFile(first)),
        "commit" => Some(Command::Commit(number?, second)),
        "branch" => Some(Command::Branch(first)),
        "go" => Some(Command::GoTo(second)),
        "history" => Some(Command::History),
        "show" => Some(Command::ShowFile(first, second)),
        "status" => Some(Command::Status),
        "read" => Some(Command::ReadFile(first)),
        "join" => Some(Command::Join(first)),
        "settle" => Some(Command::Settle(first)),
        "leave" => Some(Command::Leave),
        "move" => Some(Command::MoveOnto(second)),
        "forget" => Some(Command::Forget(first)),
        "tag" => Some(Command::Tag(first)),
        "who" => Some(Command::Who(first)),
        "sweep" => Some(Command::Sweep),
        "fetch" => Some(Command::Fetch(number?)),
        _ => None,
    }
}

// What a line of text says to a house, as bytes; none where it is no command.
pub fn read_said(heap: Global, line: &str) -> Result<Option<Vec<u8>>, AllocError> {
    let (verb, rest) = cut_word(line);
    if verb == "raw" {
        return hex::bytes_of(heap, rest.as_bytes());
    }
    if verb == "carry" {
        let Some(id) = hex::bytes_of(heap, rest.as_bytes())? else {
            return Ok(None);
        };
        return spelled(heap, Command::Carry(id.as_slice()));
    }
    let (word, last) = cut_word(rest);
    let Some(first) = escape::unescaped(heap, word.as_bytes())? else {
        return Ok(None);
    };
    let Some(second) = escape::unescaped(heap, last.as_bytes())? else {
        return Ok(None);
    };
    match command_of(verb, number_of(word), first.as_slice(), second.as_slice()) {
        Some(command) => spelled(heap, command),
        None => Ok(None),
    }
}
