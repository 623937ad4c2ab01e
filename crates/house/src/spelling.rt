// How what is noted is spelled, piece by piece, into a sum that is still open.
ghost use Rattle.std.specs.Prelude.{◌≡◌, ℕ, ◌*◌, ◌≤◌, List, ◌++◌, ◌==◌, length, take};
ghost use Rattle.house.specs.Control.{files_spelled};
ghost use Rattle.objects.specs.Marking.{key_words};
ghost use Rattle.pages.specs.Bytes.{eight, with_length};
ghost use Rattle.pages.specs.Lists.{each, pick};
ghost use Rattle.pages.specs.Words.{bytes_of};
ghost use Rattle.store.specs.Running.{Fed};
ghost use Rattle.trees.specs.Row.{as_entry, entries_of, path_of};

use objects::mark::Key;
use pages::bytes::in_eight;
use pages::words::put_bytes;
use store::hasher::Hasher;
use trees::entries::{Entry, entries};

// A number as eight bytes.
pub fn add_number(hasher: &mut Hasher, number: u64)
    ensures { (x : List ℕ) → Fed hasher.old x → Fed hasher.new (x ++ eight number) }
{
    hasher.add(&in_eight(number));
}

// Bytes with their length in front.
fn add_bytes(hasher: &mut Hasher, bytes: &[u8])
    ensures { (x : List ℕ) → Fed hasher.old x → Fed hasher.new (x ++ with_length bytes.now) }
{
    add_number(hasher, bytes.len() as u64);
    hasher.add(bytes);
}

// A sum, which has four words.
fn add_sum(hasher: &mut Hasher, words: &[u64])
    requires { length words.now ≡ 4 }
    ensures { (x : List ℕ) → Fed hasher.old x → Fed hasher.new (x ++ with_length (bytes_of words.now)) }
{
    let mut bytes = [0; 32];
    put_bytes(words, 32, &mut bytes);
    add_bytes(hasher, &bytes);
}

// The commit from which it comes, if there is one.
pub fn add_parents(hasher: &mut Hasher, tip: u64, parent: Key)
    ensures { (x : List ℕ) → Fed hasher.old x → Fed hasher.new (x ++ pick (tip == 0) (eight 0) (eight 1 ++ with_length (bytes_of (key_words parent)))) }
{
    if tip == 0 {
        add_number(hasher, 0);
        return;
    }
    add_number(hasher, 1);
    add_sum(hasher, &parent.words());
}

// The path of an entry.
fn add_path(hasher: &mut Hasher, entry: &Entry)
    ensures { (x : List ℕ) → Fed hasher.old x → Fed hasher.new (x ++ with_length (path_of (take 9 entry.now))) }
{
    let many = entry[8].min(64) as usize;
    let mut path = [0; 64];
    put_bytes(&entry[..8], many, &mut path);
    add_bytes(hasher, &path[..many]);
}

// The paths of entries and their files' sums, which stand side by side.
fn add_entries(hasher: &mut Hasher, entries: &[Entry], sums: &[u64])
    requires { 4 * length entries.now ≤ length sums.now }
    ensures { (x : List ℕ) → Fed hasher.old x → Fed hasher.new (x ++ files_spelled (each as_entry entries.now) sums.now) }
{
    for (i, entry) in entries.iter().enumerate() {
        add_path(hasher, entry);
        add_sum(hasher, &sums[4 * i..4 * i + 4]);
    }
}

// How many files a row has, and these.
pub fn add_files(hasher: &mut Hasher, row: &[u64], sums: &[u64])
    requires { 16384 ≤ length sums.now }
    ensures { (x : List ℕ) → Fed hasher.old x → Fed hasher.new (x ++ (eight (length (entries_of row.now)) ++ files_spelled (entries_of row.now) sums.now)) }
{
    let entries = entries(row);
    add_number(hasher, entries.len() as u64);
    add_entries(hasher, entries, sums);
}

// The first bytes of words that were said.
pub fn add_words(hasher: &mut Hasher, words: &[u64], many: usize)
    requires { (many ≤ 65535) × (many ≤ 8 * length words.now) }
    ensures { (x : List ℕ) → Fed hasher.old x → Fed hasher.new (x ++ with_length (take many (bytes_of words.now))) }
{
    let mut bytes = [0; 65_535];
    put_bytes(words, many, &mut bytes);
    add_bytes(hasher, &bytes[..many]);
}
