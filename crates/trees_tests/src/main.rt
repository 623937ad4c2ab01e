// Tree rows beside an ordinary map: many random puts, finds and take-outs with short, long, equal-prefix and zero-byte paths;
// a full row; rows stored and spread again; differences. Prints how much was done and how often the two disagreed.
#![tactic(auto)]

use std::alloc::{AllocError, Global};
use std::collections::BTreeMap;
use std::fmt;
use trees::differences::{Cursor, Place, differ};
use trees::rows::{find, put, same, take_out, weight};
use trees::stored::{spread, squeeze};

#[derive(Clone, Copy, Default)]
struct Tally {
    done: u64,
    wrong: u64,
}

impl Tally {
    fn note(&mut self, right: bool) {
        self.done = self.done.wrapping_add(1);
        if !right {
            self.wrong = self.wrong.wrapping_add(1);
        }
    }
}

impl fmt::Display for Tally {
    fn fmt<W: fmt::Write>(&self, f: &mut fmt::Formatter<W>) -> fmt::Result {
        let Tally { done, wrong } = self;
        write!(f, "{done} checks, {wrong} wrong")
    }
}

// A fixed row of pseudo-random numbers.
#[derive(Drop)]
struct Generator {
    seed: u64,
}

impl Generator {
    fn next(&mut self) -> u64 {
        self.seed = self
            .seed
            .wrapping_mul(6364136223846793005)
            .wrapping_add(1442695040888963407);
        self.seed >> 33
    }
}

// A path out of few enough that they come again: few letters, zero among them, and long ones that differ at the end only.
fn some_name(heap: Global, generator: &mut Generator) -> Result<Vec<u8>, AllocError> {
    let mut bytes = [0; 64];
    let kind = generator.next() % 4;
    let size = match kind {
        0 => 1 + generator.next() % 3,
        1 => 1 + generator.next() % 64,
        2 => 64,
        _ => 7 + generator.next() % 4,
    };
    for (i, byte) in bytes.iter_mut().enumerate() {
        if kind == 0 || kind == 3 && i >= 6 || i >= 62 {
            *byte = (generator.next() % 3 * 127) as u8;
        }
    }
    Vec::from_slice(heap, &bytes[..(size % 65) as usize])
}

// One random step on both; whether they agree.
fn step(
    heap: Global,
    generator: &mut Generator,
    row: &mut [u64],
    map: &mut BTreeMap<Vec<u8>, u64>,
) -> Result<bool, AllocError> {
    let name = some_name(heap, generator)?;
    let path = name.as_slice();
    let agrees = match generator.next() % 5 {
        0 => find(row, path) == map.get(path).copied(),
        1 => take_out(row, path) == map.remove(path).is_some(),
        _ => {
            let reference = generator.next();
            let put = put(row, path, reference);
            map.insert(name, reference)?;
            put.is_ok()
        }
    };
    Ok(agrees)
}

fn weighs(map: &BTreeMap<Vec<u8>, u64>) -> u64 {
    map.keys().fold(0u64, |sum, key| {
        sum.wrapping_add(64).wrapping_add(key.len() as u64)
    })
}

// Whether a row has just what a map has.
fn matches(row: &[u64], map: &BTreeMap<Vec<u8>, u64>) -> bool {
    row.first().copied() == Some(map.len() as u64)
        && weight(row) == weighs(map)
        && map
            .iter()
            .all(|(key, value)| find(row, key.as_slice()) == Some(*value))
}

// Whether a row, stored and spread again, is the same.
fn comes_back(row: &[u64]) -> bool {
    let mut stored = [7; 41024];
    let mut again = [9; 41024];
    squeeze(row, &mut stored).is_some_and(|n| {
        n <= 40963
            && spread(&stored, &mut again)
            && same(row, &again)
            && weight(row) == weight(&again)
    })
}

// Whether a row of one file is stored word by word as the layout says: kind, files and words; nothing; the reference; the weight; the path's length, and the path.
fn one_stored() -> bool {
    let mut row = [0; 12];
    let _ = put(&mut row, b"a", 7);
    let mut stored = [9; 7];
    squeeze(&row, &mut stored) == Some(6)
        && stored
            == [
                562_954_248_388_614,
                0,
                7,
                65,
                1,
                6_989_586_621_679_009_792,
                9,
            ]
}

// Steps on an empty row and an empty map.
fn round(
    heap: Global,
    generator: &mut Generator,
    row: &mut [u64],
    tally: &mut Tally,
) -> Result<(), AllocError> {
    let mut map = BTreeMap::new(heap);
    for _ in 0..2000 {
        let right = step(heap, generator, row, &mut map)?;
        tally.note(right);
    }
    tally.note(matches(row, &map));
    tally.note(comes_back(row));
    Ok(())
}

fn random(heap: Global, tally: &mut Tally) -> Result<(), AllocError> {
    let mut generator = Generator { seed: 20261117 };
    for _ in 0..6 {
        let mut row = [0; 41024];
        round(heap, &mut generator, &mut row, tally)?;
    }
    Ok(())
}

// The path of 64 bytes with a number at its end.
fn numbered(i: u16) -> [u8; 64] {
    let mut bytes = [255; 64];
    bytes[62..].copy_from_slice(&i.to_be_bytes());
    bytes
}

// A row filled from both ends to its last place.
fn full(row: &mut [u64], tally: &mut Tally) {
    for i in 0..2048u16 {
        tally.note(put(row, &numbered(i), u64::from(i)).is_ok());
        tally.note(put(row, &numbered(4095 - i), u64::from(4095 - i)).is_ok());
    }
    tally.note(put(row, &numbered(4096), 1).is_err());
    tally.note(put(row, &numbered(17), 170).is_ok());
    tally.note(put(row, b"", 1).is_err());
    tally.note(put(row, &[1; 65], 1).is_err());
    tally.note(weight(row) == 524288);
    for i in 0..4096u16 {
        let at = u64::from(i);
        tally.note(find(row, &numbered(i)) == Some(if i == 17 { 170 } else { at }));
    }
}

// A hundred files gone, a hundred changed, a hundred new.
fn edit(row: &mut [u64]) {
    for i in 0..100u16 {
        let _ = take_out(row, &numbered(i * 3));
        let _ = put(row, &numbered(i + 2000), 5);
        let _ = put(row, &numbered(i + 5000), 6);
    }
}

#[derive(Clone, Copy, Default)]
struct Marks {
    new: u64,
    changed: u64,
    gone: u64,
}

// How many files are new, changed and gone.
fn count_marks(old: &[u64], new: &[u64]) -> Marks {
    let mut marks = Marks::default();
    let mut from = Cursor::default();
    for _ in 0..10000 {
        let Some(difference) = differ(old, new, from) else {
            break;
        };
        match difference.place {
            Place::New(_) => marks.new = marks.new.wrapping_add(1),
            Place::Changed(_) => marks.changed = marks.changed.wrapping_add(1),
            Place::Gone(_) => marks.gone = marks.gone.wrapping_add(1),
        }
        from = difference.next;
    }
    marks
}

fn main(rt: HostRuntime) -> anyhow::Result<()> {
    let mut tally = Tally::default();
    random(rt.alloc(), &mut tally)?;
    println!(rt; "random: {tally}")?;
    let mut row = [0; 41024];
    let mut tally = Tally::default();
    full(&mut row, &mut tally);
    tally.note(comes_back(&row));
    tally.note(one_stored());
    println!(rt; "full: {tally}")?;
    let old = row;
    edit(&mut row);
    let Marks { new, changed, gone } = count_marks(&old, &row);
    println!(rt; "differences: {new} new, {changed} changed, {gone} gone")?;
    Ok(())
}
