// Where two tree rows differ.
ghost use Rattle.std.specs.Prelude.{◌≡◌, ◌+◌, ◌*◌, ◌≤◌, ◌∷◌, ◌++◌, length, take, drop};
ghost use Rattle.pages.specs.Lists.{each};
ghost use Rattle.trees.specs.Differ.{difference_from, difference_here, differs as told, meets, path_in, shown};
ghost use Rattle.trees.specs.Row.{as_entry, path_of};

use crate::entries::{Entry, entries, order};
use crate::keys::Key;
use pages::words::put_bytes;
use std::cmp::Ordering;

// A place in each of two rows, in files.
// As it stands: a house is asked for the next difference between requests, so where it is stands in cells, and no iterator is kept.
#[derive(Clone, Copy, Debug, Default, PartialEq, Eq)]
pub struct Cursor {
    pub old: usize,
    pub new: usize,
}

// A file that is new or changed, by its place in the new row, or gone, by its place in the old one.
#[derive(Clone, Copy, Debug, PartialEq, Eq)]
pub enum Place {
    New(usize),
    Changed(usize),
    Gone(usize),
}

// A difference, and from where to look for the next one.
#[derive(Clone, Copy, Debug, PartialEq, Eq)]
pub struct Difference {
    pub place: Place,
    pub next: Cursor,
}

fn differs(place: Place, old: usize, new: usize) -> Option<Difference>
    ensures { result ≡ told place old new }
{
    let next = Cursor { old, new };
    Some(Difference { place, next })
}

// Whether the files at two places are there and are one.
fn alike(old: &[Entry], new: &[Entry], i: usize, j: usize) -> bool
    ensures { result ≡ meets (drop i (each as_entry old.now)) (drop j (each as_entry new.now)) }
{
    match (old.get(i), new.get(j)) {
        (Some(old), Some(new)) => old == new,
        _ => false,
    }
}

// How the files at two places differ.
fn here(old: &[Entry], new: &[Entry], i: usize, j: usize) -> Option<Difference>
    ensures { result ≡ difference_here (drop i (each as_entry old.now)) (drop j (each as_entry new.now)) i j }
{
    match (old.get(i), new.get(j)) {
        (None, None) => None,
        (None, Some(_)) => differs(Place::New(j), i, j + 1),
        (Some(_), None) => differs(Place::Gone(i), i + 1, j),
        (Some(old), Some(new)) => match order(old, new) {
            Ordering::Equal => differs(Place::Changed(j), i + 1, j + 1),
            Ordering::Less => differs(Place::Gone(i), i + 1, j),
            Ordering::Greater => differs(Place::New(j), i, j + 1),
        },
    }
}

// The first difference of two rows from a cursor on, by rising path.
pub fn differ(old: &[u64], new: &[u64], from: Cursor) -> Option<Difference>
    ensures { result ≡ difference_from old.now new.now from }
{
    let (old, new) = (entries(old), entries(new));
    let mut i = from.old;
    let mut j = from.new;
    // As it stands: `zip` and `position` on the rests would need a saturating sum for each place and the definition restated from 0.
    while alike(old, new, i, j) {
        i += 1;
        j += 1;
    }
    here(old, new, i, j)
}

// The bytes of a key's path, behind the first byte of a row; says how many there are.
fn put_path(key: &Key, out: &mut [u8; 65]) -> usize
    ensures path { out.new ≡ take 1 out.old ++ (path_of key.now ++ drop (1 + length (path_of key.now)) out.old) }
    ensures many { result ≡ length (path_of key.now) }
    ensures bound { result ≤ 64 }
{
    let many = key[8].min(64) as usize;
    put_bytes(&key[..8], many, &mut out[1..]);
    many
}

// The key of the file at a place of a row; of no path where there is none.
fn key_at(row: &[u64], i: usize) -> Key
    ensures { path_of result ≡ path_in row.now i }
{
    let from = i.saturating_mul(10).saturating_add(2);
    let mut key = [0; 9];
    if let Some(words) = row.get(from..from.saturating_add(9)) {
        key.copy_from_slice(words);
    }
    key
}

// A mark and the path of a key, in front of a row of bytes; says how many bytes that takes.
fn show_file(mark: u8, key: &Key, out: &mut [u8; 65]) -> usize
    ensures shown { take result out.new ≡ mark ∷ path_of key.now }
    ensures many { result ≡ 1 + length (path_of key.now) }
    ensures bound { result ≤ 65 }
{
    out[0] = mark;
    1 + put_path(key, out)
}

// What is shown of a difference, in front of a row of bytes: 1 new, 2 changed, 3 gone, and then the path; says how many bytes that takes.
pub fn show(old: &[u64], new: &[u64], place: Place, out: &mut [u8; 65]) -> usize
    ensures shown { take result out.new ≡ shown old.now new.now place }
    ensures many { result ≡ length (shown old.now new.now place) }
    ensures bound { result ≤ 65 }
{
    match place {
        Place::New(at) => show_file(1, &key_at(new, at), out),
        Place::Changed(at) => show_file(2, &key_at(new, at), out),
        Place::Gone(at) => show_file(3, &key_at(old, at), out),
    }
}
