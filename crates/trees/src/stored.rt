// Trees as they are stored, out of rows and back.
ghost use Rattle.std.specs.Prelude.{◌≡◌, ◌+◌, ◌*◌, ◌<◌, ◌≤◌, [], ◌∷◌, ◌++◌, length, take, drop, slice_index, sum_by};
ghost use Rattle.pages.specs.Lists.{each, flat};
ghost use Rattle.pages.specs.Words.{over};
ghost use Rattle.trees.specs.Packed.{needed, packed, spread_fits, spread_into, squeeze_answer, squeeze_into, unpacked, unpacked_all};
ghost use Rattle.trees.specs.Row.{in_words, laid};

use crate::entries::{Entry, entries};
use crate::rows::{space, weight};
use pages::object::{heading, references_in};
use std::array;

// The kind of a tree among stored objects.
pub const TREE: u16 = 2;

// How many words a path of so many bytes needs.
fn path_words(size: u64) -> usize
    ensures { result ≡ needed size }
{
    (size.min(64) as usize).div_ceil(8)
}

// How many words the paths of entries take when they are stored.
fn measure(entries: &[Entry]) -> usize
    requires { length entries.now ≤ 4096 }
    ensures { result ≡ sum_by (λ e. 1 + needed (slice_index e 8)) entries.now }
{
    entries.iter().map(|entry| 1 + path_words(entry[8])).sum()
}

// Stores the references of entries behind the first two words.
fn pack_references(entries: &[Entry], out: &mut [u64])
    requires { 2 + length entries.now ≤ length out.old }
    ensures { out.new ≡ over 2 (each (λ e. slice_index e 9) entries.now) out.old }
{
    // As it stands: by index, since std says nothing of what a slice holds after a `zip` over its `iter_mut`.
    for (i, entry) in entries.iter().enumerate() {
        out[2 + i] = entry[9];
    }
}

// Stores the path of an entry at a place, and says where it ends.
fn pack(entry: &Entry, out: &mut [u64], at: usize) -> usize
    requires { at + length (packed entry.now) ≤ length out.old }
    ensures words { out.new ≡ over at (packed entry.now) out.old }
    ensures end { result ≡ at + length (packed entry.now) }
{
    let path = at + 1;
    let end = path + path_words(entry[8]);
    out[at] = entry[8];
    out[path..end].copy_from_slice(&entry[..end - path]);
    end
}

// Stores the paths of entries from a place on.
fn pack_all(entries: &[Entry], out: &mut [u64], start: usize)
    requires { start + length (flat packed entries.now) ≤ length out.old }
    ensures { out.new ≡ over start (flat packed entries.now) out.old }
{
    let mut at = start;
    for entry in entries {
        at = pack(entry, out, at);
    }
}

// Stores a row where there is room for it; says how many words that took.
pub fn squeeze(row: &[u64], out: &mut [u64]) -> Option<usize>
    ensures answer { result ≡ squeeze_answer row.now out.old }
    ensures after { out.new ≡ squeeze_into row.now out.old }
{
    let entries = entries(row);
    let n = entries.len();
    let total = 3 + n + measure(entries);
    if total > out.len() {
        return None;
    }
    out[0] = heading(TREE, n as u16, total as u32);
    out[1] = 0;
    pack_references(entries, out);
    out[2 + n] = weight(row);
    pack_all(entries, out, 3 + n);
    Some(total)
}

// A word, or 0 where there is none.
fn word(words: &[u64], i: usize) -> u64
    ensures { result ≡ slice_index words.now i }
{
    words.get(i).copied().unwrap_or(0)
}

// A word of an entry whose path is stored at a place: of the path, which is zeros behind its own words, the path's length, or the reference.
fn word_of(stored: &[u64], at: usize, reference: u64, i: usize) -> u64
    requires { at < 65536 }
    ensures { i < 10 → result ≡ slice_index (in_words (unpacked reference (drop at stored.now))) i }
{
    let size = word(stored, at);
    match i {
        8 => size,
        9 => reference,
        _ if i < path_words(size) => word(stored, at + 1 + i),
        _ => 0,
    }
}

// The ten words of the entry with this reference whose path is stored at a place.
fn unpack(stored: &[u64], at: usize, reference: u64) -> Entry
    requires { at < 65536 }
    ensures { result ≡ in_words (unpacked reference (drop at stored.now)) }
{
    array::from_fn(|i| word_of(stored, at, reference, i))
}

// Spreads n stored entries: their references begin at the third word, and their paths behind the weight.
fn unpack_all(stored: &[u64], n: usize, body: &mut [u64])
    requires { (10 * n ≤ length body.old) × (n ≤ 4096) }
    ensures { body.new ≡ laid (unpacked_all n (drop 2 stored.now) (drop (3 + n) stored.now)) body.old }
{
    let mut at = 3 + n;
    // As it stands: std says of no slice what it holds after `chunks_exact_mut` or `as_chunks_mut`.
    for i in 0..n {
        body[10 * i..10 * i + 10].copy_from_slice(&unpack(stored, at, word(stored, 2 + i)));
        at += 1 + path_words(word(stored, at));
    }
}

// Spreads a stored tree into a row that has room for its files; says whether it has.
// As it stands: a bool, since there is one reason, and the contract states it as a test.
pub fn spread(stored: &[u64], row: &mut [u64]) -> bool
    ensures answer { result ≡ spread_fits stored.now row.old }
    ensures after { row.new ≡ spread_into stored.now row.old }
{
    let n = references_in(word(stored, 0));
    if row.len() < 2 {
        return false;
    }
    if n > space(row) as u64 {
        return false;
    }
    unpack_all(stored, n as usize, &mut row[2..]);
    row[0] = n;
    row[1] = word(stored, 2 + n as usize);
    true
}
