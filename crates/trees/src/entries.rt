// Entries of a tree row, ten words each: a key and a reference.
ghost use Rattle.std.specs.Prelude.{◌≡◌, ◌+◌, ◌*◌, ◌<◌, ◌≤◌, [], ◌∷◌, ◌++◌, length, take, drop, position, MatchResult, false};
ghost use Rattle.std.specs.Cmp.Lexicographic.{slice_cmp};
ghost use Rattle.std.specs.Ordering.{nat_cmp};
ghost use Rattle.pages.specs.Lists.{same};
ghost use Rattle.trees.specs.Order.{BelongsAt, StandsAt, halts};
ghost use Rattle.trees.specs.Row.{cut, entry, held, laid, tens};

use crate::keys::Key;
use crate::rows::count;
use std::cmp::Ordering;

pub type Entry = [u64; 10];

// The entries that a row holds.
pub fn entries(row: &[u64]) -> &[Entry]
    ensures is { result.now ≡ tens (held row.now) (drop 2 row.now) }
    ensures many { length result.now ≡ held row.now }
{
    let Some(body) = row.get(2..) else {
        return &[];
    };
    let (entries, _) = body.as_chunks::<10>();
    &entries[..count(row)]
}

// How two entries come one after another.
pub(crate) fn order(a: &Entry, b: &Entry) -> Ordering
    ensures { result ≡ slice_cmp nat_cmp (take 9 a.now) (take 9 b.now) }
{
    a[..9].cmp(&b[..9])
}

// Whether an entry stands at a key.
pub(crate) fn is_at(entry: &Entry, key: &Key) -> bool
    ensures { result ≡ same key.now (take 9 entry.now) }
{
    key.iter().zip(entry).all(|(a, b)| a == b)
}

// Whether a key comes before an entry, or is the entry's own.
fn is_up_to(key: &Key, entry: &Entry) -> bool
    ensures { result ≡ halts false key.now (take 9 entry.now) }
{
    for (word, other) in key.iter().zip(entry) {
        if word < other {
            return true;
        }
        if word > other {
            return false;
        }
    }
    true
}

// Which entry stands at a key.
pub(crate) fn index_of(entries: &[Entry], key: &Key) -> Option<usize>
    ensures { result ≡ position (λ e. same key.now (take 9 e)) entries.now }
{
    entries.iter().position(|entry| is_at(entry, key))
}

// The first entry that a key is not behind.
fn next_to(entries: &[Entry], key: &Key) -> Option<usize>
    ensures { result ≡ position (λ e. halts false key.now (take 9 e)) entries.now }
{
    entries.iter().position(|entry| is_up_to(key, entry))
}

// Where a key stands among entries, or else where it belongs.
pub(crate) fn place_of(entries: &[Entry], key: &Key) -> Result<usize, usize>
    ensures { MatchResult result (StandsAt key.now entries.now) (BelongsAt key.now entries.now) }
{
    let at = next_to(entries, key).unwrap_or(entries.len());
    match entries.get(at) {
        Some(entry) if is_at(entry, key) => Ok(at),
        _ => Err(at),
    }
}

// The ten words of an entry.
fn ten(key: &Key, reference: u64) -> Entry
    ensures { result ≡ key.now ++ reference ∷ [] }
{
    let mut words = [reference; 10];
    words[..9].copy_from_slice(key);
    words
}

// An entry more at a place among n.
// As it stands: the words and the number of entries, since std says nothing of what a slice holds after `as_chunks_mut`.
pub(crate) fn insert(body: &mut [u64], n: usize, at: usize, key: &Key, reference: u64)
    requires { (at ≤ n) × (10 * n + 10 ≤ length body.old) }
    ensures { body.new ≡ laid (take at (cut n body.old) ++ entry key.now reference ∷ drop at (cut n body.old)) body.old }
{
    body.copy_within(10 * at..10 * n, 10 * at + 10);
    body[10 * at..10 * at + 10].copy_from_slice(&ten(key, reference));
}

// Takes the entry at a place among n out.
pub(crate) fn remove(body: &mut [u64], n: usize, at: usize)
    requires { (at < n) × (10 * n ≤ length body.old) }
    ensures { body.new ≡ laid (take at (cut n body.old) ++ drop (at + 1) (cut n body.old)) body.old }
{
    body.copy_within(10 * at + 10..10 * n, 10 * at);
}

// An entry in place of the one at a place among n.
pub(crate) fn replace(body: &mut [u64], n: usize, at: usize, key: &Key, reference: u64)
    requires { (at < n) × (10 * n ≤ length body.old) }
    ensures { body.new ≡ laid (take at (cut n body.old) ++ entry key.now reference ∷ drop (at + 1) (cut n body.old)) body.old }
{
    body[10 * at..10 * at + 10].copy_from_slice(&ten(key, reference));
}
