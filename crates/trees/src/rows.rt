// Tree rows: trees of files as words in memory.
ghost use Rattle.std.specs.Prelude.{◌≡◌, ◌+◌, ◌≤◌, Ok, Err, slice_index};
ghost use Rattle.pages.specs.Lists.{pick};
ghost use Rattle.trees.specs.declared.rows.Refused.TheVariants.{Full};
ghost use Rattle.trees.specs.Tree.{found, same_tree};
ghost use Rattle.trees.specs.Row.{entries_of, find_in, has_key, held, put_answer, put_in, put_key, reference_in, room, room_for, take_from, take_key, taken_from};

use crate::entries::{entries, index_of, insert, place_of, remove, replace};
use crate::keys::{Key, key};

// The most files that a tree has.
pub const FILES: usize = 4096;

// Why a file is not put: its path has no 1 to 64 bytes, or there is no room for one more.
#[derive(Clone, Copy, Debug, PartialEq, Eq)]
pub enum Refused {
    Path,
    Full,
}

// How many files a row has room for.
pub(crate) fn space(row: &[u64]) -> usize
    ensures { result ≡ room row.now }
{
    FILES.min(row.len().saturating_sub(2) / 10)
}

// How many files a row holds.
pub(crate) fn count(row: &[u64]) -> usize
    ensures { result ≡ held row.now }
{
    let said = row.first().copied().unwrap_or(0);
    said.min(space(row) as u64) as usize
}

// The reference at a key.
pub fn find_key(row: &[u64], key: &Key) -> Option<u64>
    ensures { result ≡ reference_in (found (entries_of row.now) key.now) }
{
    let entries = entries(row);
    let at = index_of(entries, key)?;
    Some(entries[at][9])
}

// The reference at a path.
pub fn find(row: &[u64], path: &[u8]) -> Option<u64>
    ensures { result ≡ find_in path.now row.now }
{
    find_key(row, &key(path)?)
}

// Puts an entry of this weight at its key.
pub fn put_key(row: &mut [u64], key: &Key, weight: u64, reference: u64) -> Result<(), Refused>
    ensures answer { result ≡ pick (room_for key.now reference row.old) (Ok tt) (Err Full) }
    ensures after { row.new ≡ put_key key.now weight reference row.old }
{
    let n = count(row);
    let space = space(row);
    if space == 0 {
        return Err(Refused::Full);
    }
    match place_of(entries(row), key) {
        Ok(at) => {
            replace(&mut row[2..], n, at, key, reference);
            row[0] = n as u64;
            Ok(())
        }
        Err(_) if n == space => Err(Refused::Full),
        Err(at) => {
            let sum = row[1].saturating_add(weight);
            insert(&mut row[2..], n, at, key, reference);
            row[0] = n as u64 + 1;
            row[1] = sum;
            Ok(())
        }
    }
}

// Puts a reference at a path, in place of the one that is there or as a new file.
pub fn put(row: &mut [u64], path: &[u8], reference: u64) -> Result<(), Refused>
    ensures answer { result ≡ put_answer path.now reference row.old }
    ensures after { row.new ≡ put_in path.now reference row.old }
{
    let Some(key) = key(path) else {
        return Err(Refused::Path);
    };
    put_key(row, &key, 64 + path.len() as u64, reference)
}

// Takes the entry of a key out; says whether there was one.
pub fn take_key(row: &mut [u64], key: &Key, weight: u64) -> bool
    ensures answer { result ≡ has_key key.now row.old }
    ensures after { row.new ≡ take_key key.now weight row.old }
{
    let n = count(row);
    let Some(at) = index_of(entries(row), key) else {
        return false;
    };
    let sum = row[1].saturating_sub(weight);
    remove(&mut row[2..], n, at);
    row[0] = n as u64 - 1;
    row[1] = sum;
    true
}

// Takes the file at a path out; says whether there was one.
// As it stands: a bool, as the `remove` of a set answers; a Result would call a tree without the file an error.
pub fn take_out(row: &mut [u64], path: &[u8]) -> bool
    ensures answer { result ≡ taken_from path.now row.old }
    ensures after { row.new ≡ take_from path.now row.old }
{
    match key(path) {
        Some(key) => take_key(row, &key, 64 + path.len() as u64),
        None => false,
    }
}

// Whether two rows hold the same files.
pub fn same(a: &[u64], b: &[u64]) -> bool
    ensures { result ≡ same_tree (entries_of a.now) (entries_of b.now) }
{
    entries(a) == entries(b)
}

// The weight of a row's files.
pub fn weight(row: &[u64]) -> u64
    ensures { result ≡ slice_index row.now 1 }
{
    row.get(1).copied().unwrap_or(0)
}
