// Where a command's things stand in memory, behind what marking and sweeping need, and how they are put there, moved and read.
ghost use Rattle.std.specs.Prelude.{◌≡◌, ◌+◌, ◌*◌, ◌<◌, ◌≤◌, [], ◌∷◌, ◌++◌, length, min, take, drop};
ghost use Rattle.house.specs.Control.{desk_end, emptied, entry_weight, head_word, new_head, named, path_key, path_put, reference_at, row_of, row_words, squeezed_in, sum_at};
ghost use Rattle.objects.specs.Layouts.{words_for};
ghost use Rattle.objects.specs.Marking.{begun, key_words, with_references};
ghost use Rattle.objects.specs.Plan.{map_of, plan_end, with_map};
ghost use Rattle.pages.specs.Machine.{buffer_words};
ghost use Rattle.pages.specs.Words.{over};
ghost use Rattle.trees.specs.Packed.{spread_into, squeeze_answer, squeeze_into};
ghost use Rattle.trees.specs.Row.{references};

use objects::mark::{self, Key};
use objects::pack::copy_words;
use objects::plan;
use pages::machine::BUFFER;
use trees::entries::entries;
use trees::keys::{self, key};
use trees::rows::put_key;
use trees::stored::{spread, squeeze};

// The row of the tree in work.
pub const ROW: usize = 188_640;

pub const ROW_WORDS: usize = 40_962;

pub const ROW_END: usize = 229_602;

// The key of the command's path.
pub const PATH: usize = ROW_END;

pub const PATH_END: usize = 229_611;

// Its bytes.
pub const BYTES: usize = PATH_END;

pub const END: usize = 237_803;

// The row of the tree that is compared to, in place of the map.
pub const OLD_ROW: usize = plan::MAP;

pub const OLD_ROW_END: usize = 82_146;

// A word of the head that was recalled.
pub fn head_word(memory: &[u64], at: usize) -> u64
    requires { (desk_end ≤ length memory.now) × (at < 32) }
    ensures { result ≡ head_word memory.now at }
{
    memory[plan::HEAD + at]
}

// The new head, in front of the buffer: what was laid up to a page is in its window, and it names a tree in work and a last commit.
pub fn put_head(memory: &mut [u64], page: u64, root: u64, tip: u64)
    requires { desk_end ≤ length memory.old }
    ensures { memory.new ≡ over 0 (new_head page root tip memory.old) memory.old }
{
    copy_words(memory, plan::HEAD, 0, 32);
    memory[1] = page;
    memory[2] = root;
    memory[3] = tip;
}

// The path's key is put aside.
pub fn put_path(memory: &mut [u64], path: &[u8])
    requires { desk_end ≤ length memory.old }
    ensures { memory.new ≡ path_put path.now memory.old }
{
    if let Some(key) = key(path) {
        memory[PATH..PATH_END].copy_from_slice(&key);
    }
}

// The key of the command's path.
pub fn path_key(memory: &[u64]) -> keys::Key
    requires { desk_end ≤ length memory.now }
    ensures { result ≡ path_key memory.now }
{
    let mut key = [0; 9];
    key.copy_from_slice(&memory[PATH..PATH_END]);
    key
}

// What an entry at that path weighs.
pub fn entry_weight(memory: &[u64]) -> u64
    requires { desk_end ≤ length memory.now }
    ensures { result ≡ entry_weight memory.now }
{
    memory[PATH_END - 1].saturating_add(64)
}

// The command's file is named in the row.
pub fn name_file(memory: &mut [u64], reference: u64)
    requires { desk_end ≤ length memory.old }
    ensures { memory.new ≡ named reference memory.old }
{
    let key = path_key(memory);
    let weight = entry_weight(memory);
    let _ = put_key(&mut memory[ROW..ROW_END], &key, weight, reference);
}

// A row without files that says to weigh so much.
pub fn start_row(memory: &mut [u64], at: usize, weight: u64)
    requires { at + 2 ≤ length memory.old }
    ensures { memory.new ≡ over at (0 ∷ weight ∷ []) memory.old }
{
    memory[at..at + 2].copy_from_slice(&[0, weight]);
}

// An empty tree's row.
pub fn empty_row(memory: &mut [u64], at: usize)
    requires { at + 2 ≤ length memory.old }
    ensures { memory.new ≡ emptied at memory.old }
{
    start_row(memory, at, 0);
}

// The reference of an object that starts at a page.
pub fn reference_at(page: u64) -> u64
    ensures { result ≡ reference_at page }
{
    page.saturating_mul(8).saturating_add(1)
}

// A row behind what is stored in front of it.
fn spread_behind(front: &[u64], behind: &mut [u64])
    requires { (buffer_words ≤ length front.now) × (row_words ≤ length behind.old) }
    ensures { behind.new ≡ over 0 (spread_into (take buffer_words front.now) (take row_words behind.old)) behind.old }
{
    spread(&front[..BUFFER], &mut behind[..ROW_WORDS]);
}

// The tree that was loaded stands in a row behind the buffer.
pub fn spread_row(memory: &mut [u64], at: usize)
    requires { (buffer_words ≤ at) × (at + row_words ≤ length memory.old) }
    ensures { memory.new ≡ over at (spread_into (take buffer_words memory.old) (take row_words (drop at memory.old))) memory.old }
{
    let (front, behind) = memory.split_at_mut(at);
    spread_behind(front, behind);
}

// A row is stored in front of where it stands.
fn squeeze_before(front: &mut [u64], behind: &[u64]) -> Option<usize>
    requires { (buffer_words ≤ length front.old) × (row_words ≤ length behind.now) }
    ensures answer { result ≡ squeeze_answer (take row_words behind.now) (take buffer_words front.old) }
    ensures front { front.new ≡ squeeze_into (take row_words behind.now) (take buffer_words front.old) ++ drop buffer_words front.old }
{
    squeeze(&behind[..ROW_WORDS], &mut front[..BUFFER])
}

// The row is stored in front of the buffer: how many words that takes.
pub fn squeeze_row(memory: &mut [u64]) -> Option<usize>
    requires { desk_end ≤ length memory.old }
    ensures answer { result ≡ squeeze_answer (row_of memory.old) (take buffer_words memory.old) }
    ensures memory { memory.new ≡ squeezed_in memory.old }
{
    let (front, behind) = memory.split_at_mut(ROW);
    squeeze_before(front, behind)
}

// Marks the files of a row behind the map.
fn mark_files(front: &mut [u64], first: u64, behind: &[u64])
    requires { (plan_end ≤ length front.old) × (row_words ≤ length behind.now) }
    ensures { front.new ≡ with_map (with_references first (references (take row_words behind.now)) (map_of front.old)) front.old }
{
    for entry in entries(&behind[..ROW_WORDS]) {
        mark::mark_root(front, first, entry[9]);
    }
}

// Marks what will be live where the tree in work is another one: what the head names but for that tree, and the files of the row.
pub fn mark_kept(memory: &mut [u64], first: u64)
    requires { desk_end ≤ length memory.old }
    ensures { memory.new ≡ begun first (take 7 (drop 41155 memory.old) ++ references (row_of memory.old)) memory.old }
{
    let mut roots = [0; 7];
    roots.copy_from_slice(&memory[plan::HEAD + 3..plan::HEAD + 10]);
    let (front, behind) = memory.split_at_mut(ROW);
    mark::mark_roots(front, first, &roots);
    mark_files(front, first, behind);
}

// Marks all that the head names.
pub fn mark_named(memory: &mut [u64], first: u64)
    requires { desk_end ≤ length memory.old }
    ensures { memory.new ≡ begun first (take 8 (drop 41154 memory.old)) memory.old }
{
    let mut roots = [0; 8];
    roots.copy_from_slice(&memory[plan::HEAD + 2..plan::HEAD + 10]);
    mark::mark_roots(memory, first, &roots);
}

// The sum of the file that came is put aside, as that of one of the row's files.
pub fn put_sum(memory: &mut [u64], file: usize)
    requires { desk_end ≤ length memory.old }
    ensures { memory.new ≡ over (sum_at file) (take 4 (drop 2 memory.old)) memory.old }
{
    copy_words(memory, 2, plan::COUNTS + 4 * file.min(4_095), 4);
}

// An id is put in front of the buffer.
pub fn put_id(memory: &mut [u64], id: Key)
    requires { desk_end ≤ length memory.old }
    ensures { memory.new ≡ over 0 (key_words id) memory.old }
{
    memory[..4].copy_from_slice(&id.words());
}

// So many bytes of the words of the commit that came are put in front of the buffer, behind its id.
pub fn put_logged(memory: &mut [u64], id: Key, bytes: u64)
    requires { (desk_end ≤ length memory.old) × (bytes ≤ 65535) }
    ensures { memory.new ≡ over 0 (key_words id ++ take (words_for bytes) (drop 11 memory.old)) memory.old }
{
    copy_words(memory, 11, 4, bytes.div_ceil(8) as usize);
    put_id(memory, id);
}
