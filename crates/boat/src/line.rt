// A line of text as a command.
ghost use Rattle.std.specs.Prelude.{◌≡◌, ◌<◌, ◌≤◌, ◌↔◌, IfOk, IsOk, Some, vec_len};
ghost use Rattle.commands.specs.Meaning.{meant};
ghost use Rattle.commands.specs.Parse.{parsed};

use crate::unread::Unread;
use commands::laws::parsed_back;
use commands::{Command, spell};
use lines::{escape, hex};
use std::alloc::Global;
use std::mem;

const NAME: usize = 64;

const TEXT: usize = 65535;

// The longest spelling: a kind, and two rows with their lengths.
const SPELLING: usize = 1 + (8 + 65) + (8 + TEXT);

// The word, if it is there.
fn present<'a>(what: &'static str, word: &'a str) -> Result<&'a str, Unread<'a>> {
    if word.is_empty() {
        Err(Unread::Missing(what))
    } else {
        Ok(word)
    }
}

fn number_of<'a>(what: &'static str, word: &'a str) -> Result<u64, Unread<'a>> {
    let word = present(what, word)?;
    word.parse::<u64>().map_err(|_| Unread::NoNumber(word))
}

// The bytes, if they are no more than there may be.
fn limited<'a>(what: &'static str, bytes: Vec<u8>, most: usize) -> Result<Vec<u8>, Unread<'a>>
    ensures fits { IsOk result ↔ (vec_len bytes ≤ most) }
    ensures same { IfOk result (λ v. v ≡ bytes) }
{
    let size = bytes.len();
    if size <= most {
        Ok(bytes)
    } else {
        Err(Unread::TooLong(what, size, most))
    }
}

// The number of a house.
#[derive(Clone, Copy)]
struct House(u8);

impl<'a> TryFrom<&'a str> for House {
    type Error = Unread<'a>;

    ghost try_from_gives = { λ _ res. IfOk res (λ house. house.0 < 16) };

    fn try_from(word: &'a str) -> Result<House, Unread<'a>> {
        let number = number_of("house", word)?;
        if number < 16 {
            Ok(House(number as u8))
        } else {
            Err(Unread::NoHouse(number))
        }
    }
}

// What is left of a line, and where the bytes that it stands for are kept.
#[derive(Drop)]
struct Words<'a> {
    heap: Global,
    rest: &'a str,
}

impl<'a> Words<'a> {
    // The next word, which is empty where none is left; one space goes with it.
    fn word(&mut self) -> &'a str {
        let text = self.rest.trim_start_matches(' ');
        let (word, rest) = text.split_once(' ').unwrap_or((text, ""));
        self.rest = rest;
        word
    }

    // The bytes that a text with escapes stands for.
    fn unescaped(
        &self,
        what: &'static str,
        text: &'a str,
        most: usize,
    ) -> Result<Vec<u8>, Unread<'a>> {
        let bytes = escape::unescaped(self.heap, text.as_bytes())?;
        limited(what, bytes.ok_or(Unread::Escape(text))?, most)
    }

    fn named(&self, what: &'static str, word: &'a str) -> Result<Vec<u8>, Unread<'a>> {
        self.unescaped(what, present(what, word)?, NAME)
    }

    fn name(&mut self) -> Result<Vec<u8>, Unread<'a>> {
        let word = self.word();
        self.named("name", word)
    }

    fn path(&mut self) -> Result<Vec<u8>, Unread<'a>> {
        let word = self.word();
        self.named("path", word)
    }

    // A branch; before that of another house stands its number and a colon.
    fn reference(&mut self) -> Result<Vec<u8>, Unread<'a>> {
        let word = self.word();
        let Some((house, name)) = word.split_once(':') else {
            return self.named("name", word);
        };
        let house = House::try_from(house)?;
        let mut bytes = self.named("name", name)?;
        bytes.insert(0, house.0)?;
        Ok(bytes)
    }

    // All that is left, spaces too.
    fn text(&mut self, what: &'static str) -> Result<Vec<u8>, Unread<'a>> {
        let text = mem::replace(&mut self.rest, "");
        self.unescaped(what, text, TEXT)
    }

    fn number(&mut self, what: &'static str) -> Result<u64, Unread<'a>> {
        number_of(what, self.word())
    }

    fn house(&mut self) -> Result<u64, Unread<'a>> {
        let house = House::try_from(self.word())?;
        Ok(u64::from(house.0))
    }

    fn digits(&self, word: &'a str) -> Result<Vec<u8>, Unread<'a>> {
        hex::bytes_of(self.heap, word.as_bytes())?.ok_or(Unread::NoDigits(word))
    }

    fn id(&mut self) -> Result<Vec<u8>, Unread<'a>> {
        let word = present("id", self.word())?;
        limited("id", self.digits(word)?, NAME)
    }

    // The bytes of a command that is spelled already.
    fn raw(&mut self) -> Result<Vec<u8>, Unread<'a>> {
        let word = self.word();
        let bytes = self.digits(word)?;
        self.end()?;
        Ok(bytes)
    }

    // Nothing but spaces may be left.
    fn end(&self) -> Result<(), Unread<'a>> {
        let left = self.rest.trim_start_matches(' ');
        if left.is_empty() {
            Ok(())
        } else {
            Err(Unread::Extra(left))
        }
    }
}

// The command's spelling, if no word is left.
fn spelled<'a>(command: Command, words: &Words<'a>) -> Result<Vec<u8>, Unread<'a>>
    ensures { IfOk result (λ bytes. parsed bytes.items ≡ Some (meant command.entry)) }
{
    // the law that the clause rests on
    parsed_back();
    words.end()?;
    let mut bytes = vec![in words.heap; 0u8; SPELLING]?;
    let size = spell(command, bytes.as_mut_slice()).ok_or(Unread::NoSpelling)?;
    bytes.truncate(size);
    Ok(bytes)
}

// The bytes of the command on a line.
fn bytes_of<'a>(heap: Global, line: &'a str) -> Result<Vec<u8>, Unread<'a>> {
    let mut words = Words { heap, rest: line };
    match words.word() {
        "write" => spelled(
            Command::WriteFile(&words.path()?, &words.text("text")?),
            &words,
        ),
        "drop" => spelled(Command::DropFile(&words.path()?), &words),
        "commit" => spelled(
            Command::Commit(words.number("stamp")?, &words.text("words")?),
            &words,
        ),
        "branch" => spelled(Command::Branch(&words.name()?), &words),
        "go" => match words.word() {
            "to" => spelled(Command::GoTo(&words.name()?), &words),
            _ => Err(Unread::NoCommand(line)),
        },
        "history" => spelled(Command::History, &words),
        "show" => spelled(
            Command::ShowFile(&words.reference()?, &words.path()?),
            &words,
        ),
        "status" => spelled(Command::Status, &words),
        "read" => spelled(Command::ReadFile(&words.path()?), &words),
        "join" => spelled(Command::Join(&words.reference()?), &words),
        "settle" => spelled(Command::Settle(&words.path()?), &words),
        "leave" => spelled(Command::Leave, &words),
        "move" => match words.word() {
            "onto" => spelled(Command::MoveOnto(&words.reference()?), &words),
            _ => Err(Unread::NoCommand(line)),
        },
        "carry" => spelled(Command::Carry(&words.id()?), &words),
        "forget" => spelled(Command::Forget(&words.name()?), &words),
        "tag" => spelled(Command::Tag(&words.name()?), &words),
        "who" => spelled(Command::Who(&words.path()?), &words),
        "sweep" => spelled(Command::Sweep, &words),
        "fetch" => spelled(Command::Fetch(words.house()?), &words),
        "raw" => words.raw(),
        word => Err(Unread::NoCommand(word)),
    }
}

// What a line asks for.
#[derive(Drop)]
pub enum Asked {
    // That the house runs a command.
    Run(Vec<u8>),
    // That the command's bytes are printed.
    Spell(Vec<u8>),
}

// What a line asks for; a comment or an empty line asks for nothing.
pub fn asked_by<'a>(heap: Global, line: &'a [u8]) -> Result<Option<Asked>, Unread<'a>> {
    let line = std::str::from_utf8(line).map_err(|_| Unread::NoText)?;
    if line.starts_with('#') || line.trim_start_matches(' ').is_empty() {
        return Ok(None);
    }
    let asked = match line.strip_prefix("spell ") {
        Some(line) => Asked::Spell(bytes_of(heap, line)?),
        None => Asked::Run(bytes_of(heap, line)?),
    };
    Ok(Some(asked))
}
