// A day: how many houses there are, how many pages each has, and what happens.
use crate::text::{Said, cut_word, number_of, read_said};
use device::Left;
use std::alloc::{AllocError, Global};
use std::collections::BTreeMap;
use std::fmt;

// More letters than any command sends.
pub const LONG_LINE: u64 = 1000000;

const MOST_HOUSES: usize = 16;

const FEWEST_PAGES: usize = 64;

const MOST_PAGES: usize = 1048576;

// Where power stops: after so many acts, and what is left of each waiting write.
#[derive(Clone, Drop)]
pub struct Stop {
    pub acts: u64,
    pub left: Vec<Left>,
}

#[derive(Drop)]
pub enum What {
    Power,
    // a command, and how many letters the line carries
    Said(Vec<u8>, u64),
}

#[derive(Drop)]
pub struct Item {
    pub house: usize,
    pub what: What,
    pub stop: Option<Stop>,
}

// How many houses there are, and how many pages each has: one number for all, and others for some.
#[derive(Drop)]
pub struct Setting {
    pub houses: usize,
    pub pages: usize,
    pub own_pages: BTreeMap<usize, usize>,
}

#[derive(Drop)]
pub struct Day {
    pub setting: Setting,
    pub items: Vec<Item>,
    pub bad_lines: u64,
}

// What a line of a day says, apart from its command.
#[derive(Drop)]
struct Head {
    house: usize,
    letters: u64,
    stop: Option<Stop>,
}

fn outcomes(heap: Global, digits: &str) -> Result<Option<Vec<Left>>, AllocError> {
    let mut left = Vec::new(heap);
    for digit in digits.as_bytes() {
        match *digit {
            b'0'..=b'2' => left.push(Left::from(u64::from(*digit - b'0')))?,
            _ => return Ok(None),
        }
    }
    Ok(Some(left))
}

// `stops after N OUTCOMES`, behind `stops`.
fn stop_of(heap: Global, rest: &str) -> Result<Option<Stop>, AllocError> {
    let (_, rest) = cut_word(rest);
    let (count, digits) = cut_word(rest);
    let (Some(acts), Some(left)) = (number_of(count), outcomes(heap, digits)?) else {
        return Ok(None);
    };
    Ok(Some(Stop { acts, left }))
}

// `HOUSE`, `HOUSE line LETTERS`, and either with `stops after N OUTCOMES`.
fn head_of(heap: Global, text: &str) -> Result<Option<Head>, AllocError> {
    let (house, rest) = cut_word(text);
    let Some(number) = number_of(house) else {
        return Ok(None);
    };
    let mut letters = LONG_LINE;
    let mut tail = rest;
    if let ("line", more) = cut_word(rest) {
        let (count, behind) = cut_word(more);
        letters = number_of(count).unwrap_or(0);
        tail = behind;
    }
    let stop = match cut_word(tail) {
        ("stops", more) => stop_of(heap, more)?,
        _ => None,
    };
    Ok(Some(Head {
        house: number as usize,
        letters,
        stop,
    }))
}

fn item_of(heap: Global, line: &str) -> Result<Option<Item>, AllocError> {
    if let ("power", rest) = cut_word(line) {
        let Some(head) = head_of(heap, rest)? else {
            return Ok(None);
        };
        return Ok(Some(Item {
            house: head.house,
            what: What::Power,
            stop: head.stop,
        }));
    }
    let Some((front, behind)) = line.split_once(": ") else {
        return Ok(None);
    };
    let (Some(head), Some(text)) = (head_of(heap, front)?, read_said(heap, behind)?) else {
        return Ok(None);
    };
    Ok(Some(Item {
        house: head.house,
        what: What::Said(text, head.letters),
        stop: head.stop,
    }))
}

impl fmt::Display for Stop {
    fn fmt<W: fmt::Write>(&self, f: &mut fmt::Formatter<W>) -> fmt::Result {
        write!(f, " stops after {} ", self.acts)?;
        for left in self.left.iter() {
            write!(f, "{left}")?;
        }
        Ok(())
    }
}

// An item as a line of a day.
impl fmt::Display for Item {
    fn fmt<W: fmt::Write>(&self, f: &mut fmt::Formatter<W>) -> fmt::Result {
        if let What::Power = &self.what {
            f.write_str("power ")?;
        }
        write!(f, "{}", self.house)?;
        if let What::Said(_, letters) = &self.what {
            if *letters != LONG_LINE {
                write!(f, " line {letters}")?;
            }
        }
        if let Some(stop) = &self.stop {
            write!(f, "{stop}")?;
        }
        if let What::Said(text, _) = &self.what {
            write!(f, ": {}", Said(text.as_slice()))?;
        }
        Ok(())
    }
}

// The lines at the top of a day.
impl fmt::Display for Setting {
    fn fmt<W: fmt::Write>(&self, f: &mut fmt::Formatter<W>) -> fmt::Result {
        write!(f, "houses {}\npages {}\n", self.houses, self.pages)?;
        for (house, pages) in self.own_pages.iter() {
            write!(f, "pages {house} {pages}\n")?;
        }
        Ok(())
    }
}

impl Setting {
    pub fn new(heap: Global, houses: usize, pages: usize) -> Setting {
        Setting {
            houses,
            pages,
            own_pages: BTreeMap::new(heap),
        }
    }

    pub fn pages_of(&self, house: usize) -> usize {
        self.own_pages.get(&house).copied().unwrap_or(self.pages)
    }

    // At most 16 houses, each with 64 pages or more, and none that is not there with pages of its own.
    pub fn is_fit(&self) -> bool {
        let fits = |pages: usize| (FEWEST_PAGES..=MOST_PAGES).contains(&pages);
        self.houses <= MOST_HOUSES
            && fits(self.pages)
            && self
                .own_pages
                .iter()
                .all(|(house, pages)| *house < self.houses && fits(*pages))
    }

    // Takes in what stands behind `pages`, a number for all or a house and its number; false where it is neither.
    fn take_pages(&mut self, text: &str) -> Result<bool, AllocError> {
        let (first, second) = cut_word(text);
        match (number_of(first), number_of(second)) {
            (Some(pages), None) if second.is_empty() => self.pages = pages as usize,
            (Some(house), Some(pages)) => {
                self.own_pages.insert(house as usize, pages as usize)?;
            }
            _ => return Ok(false),
        }
        Ok(true)
    }
}

impl Day {
    pub fn new(heap: Global) -> Day {
        Day {
            setting: Setting::new(heap, 2, FEWEST_PAGES),
            items: Vec::new(heap),
            bad_lines: 0,
        }
    }

    // Takes in a line; false where it is none of a day.
    fn take_line(&mut self, heap: Global, line: &str) -> Result<bool, AllocError> {
        let (word, rest) = cut_word(line);
        if word.is_empty() || word.starts_with('#') {
            return Ok(true);
        }
        if word == "houses" {
            let Some(houses) = number_of(rest) else {
                return Ok(false);
            };
            self.setting.houses = houses as usize;
            return Ok(true);
        }
        if word == "pages" {
            return self.setting.take_pages(rest);
        }
        match item_of(heap, line)? {
            Some(item) => {
                self.items.push(item)?;
                Ok(true)
            }
            None => Ok(false),
        }
    }

    // A day from its text; how many lines are none of a day is counted.
    pub fn read(heap: Global, text: &str) -> Result<Day, AllocError> {
        let mut day = Day::new(heap);
        for line in text.lines() {
            if !day.take_line(heap, line)? {
                day.bad_lines = day.bad_lines.saturating_add(1);
            }
        }
        Ok(day)
    }
}
