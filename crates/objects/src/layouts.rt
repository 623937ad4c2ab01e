// Files, commits and names in the buffer: put together out of what they say and of bytes that stand packed behind the buffer, and read back.
ghost use Rattle.std.specs.Prelude.{◌≡◌, ◌+◌, ◌-◌, ◌*◌, ◌<◌, ◌≤◌, ◌++◌, length, take, drop};
ghost use Rattle.pages.specs.Lists.{zeros};
ghost use Rattle.pages.specs.Words.{over};
ghost use Rattle.objects.specs.Layouts.{answered, bytes_put, bytes_stand, commit_fits, commit_front, commit_of, commit_read, eight_of, file_object, file_read, in_front, key_at, kind_number, name_fits, name_of, name_read, of_kind, BytesBack, ReadBack, words_at, words_for};
ghost use Rattle.objects.specs.Marking.{key_words};

use crate::mark::Key;
use crate::pack::copy_words;
use crate::plan;
use pages::bytes::number;
use pages::object::{heading, kind_in};

// The kinds of objects, by the numbers that the format gives them; a tree is laid with the tree rows.
#[derive(Clone, Copy, Debug, PartialEq, Eq)]
enum Kind {
    File = 1,
    Commit = 3,
    Name = 4,
}

// A commit: references to its tree and its parents, of which none to two are there, and what it says; of its words so many bytes.
#[derive(Clone, Copy, Debug, PartialEq, Eq)]
pub struct Commit {
    pub tree: u64,
    pub one: u64,
    pub two: u64,
    pub id: Key,
    pub stamp: u64,
    pub tree_weight: u64,
    pub bytes: u64,
}

// A name: references to the next one of its list and to its commit, which list it is in, and how many bytes it has.
#[derive(Clone, Copy, Debug, PartialEq, Eq)]
pub struct Name {
    pub next: u64,
    pub commit: u64,
    pub list: u64,
    pub bytes: u64,
}

fn words_for(bytes: u64) -> usize
    requires { bytes ≤ 65535 }
    ensures { result ≡ words_for bytes }
{
    bytes.div_ceil(8) as usize
}

// Whether so many bytes, and not too many, stand in memory behind the buffer.
fn stands(memory: &[u64], most: u64, bytes: u64, from: usize) -> bool
    requires { most ≤ 65535 }
    ensures { result ≡ bytes_stand most bytes from memory.now }
{
    memory.len() >= plan::END
        && bytes <= most
        && from >= plan::REST
        && from <= memory.len() - words_for(bytes)
}

// Puts an object in front of the buffer: its first words, and then words that stand behind the buffer; says how many it has.
fn put_object(memory: &mut [u64], front: &[u64], from: usize, many: usize) -> u64
    requires { (length front.now ≤ from) × (from + many ≤ length memory.old) }
    ensures words { result ≡ length front.now + many }
    ensures memory { memory.new ≡ over 0 (front.now ++ take many (drop from memory.old)) memory.old }
{
    copy_words(memory, from, front.len(), many);
    memory[0..front.len()].copy_from_slice(front);
    (front.len() + many) as u64
}

// Puts a file together, and says how many words it has.
pub fn compose_file(memory: &mut [u64], sum: Key, bytes: u64, from: usize) -> Option<u64>
    ensures answer { result ≡ answered (bytes_stand 65535 bytes from memory.old) (file_object (key_words sum) bytes (words_at bytes from memory.old)) }
    ensures memory { memory.new ≡ in_front (bytes_stand 65535 bytes from memory.old) (file_object (key_words sum) bytes (words_at bytes from memory.old)) memory.old }
{
    if !stands(memory, 65_535, bytes, from) {
        return None;
    }
    let words = words_for(bytes);
    let front = [
        heading(Kind::File as u16, 0, 6 + words as u32),
        64 + bytes,
        sum.a,
        sum.b,
        sum.c,
        sum.d,
    ];
    Some(put_object(memory, &front, from, words))
}

// The first words of a commit whose own words are so many.
fn commit_front(commit: &Commit, words: u32) -> [u64; 11]
    requires { (words ≤ 8192) × (256 + commit.now.bytes + commit.now.tree_weight ≤ 9223372036854775808) }
    ensures { result ≡ commit_front words commit.now }
{
    [
        heading(Kind::Commit as u16, 3, 11 + words),
        256 + commit.bytes + commit.tree_weight,
        commit.tree,
        commit.one,
        commit.two,
        commit.id.a,
        commit.id.b,
        commit.id.c,
        commit.id.d,
        commit.stamp,
        commit.tree_weight,
    ]
}

// Puts a commit together, and says how many words it has. One that would weigh more than 2^63 is refused.
pub fn compose_commit(memory: &mut [u64], commit: Commit, from: usize) -> Option<u64>
    ensures answer { result ≡ answered (commit_fits commit from memory.old) (commit_of commit (words_at commit.bytes from memory.old)) }
    ensures memory { memory.new ≡ in_front (commit_fits commit from memory.old) (commit_of commit (words_at commit.bytes from memory.old)) memory.old }
{
    if !stands(memory, 65_535, commit.bytes, from)
        || commit.tree_weight > 9_223_372_036_854_775_552 - commit.bytes
    {
        return None;
    }
    let words = words_for(commit.bytes);
    let front = commit_front(&commit, words as u32);
    Some(put_object(memory, &front, from, words))
}

// Puts a name together, and says how many words it has.
pub fn compose_name(memory: &mut [u64], name: Name, from: usize) -> Option<u64>
    ensures answer { result ≡ answered (name_fits name from memory.old) (name_of name (words_at name.bytes from memory.old)) }
    ensures memory { memory.new ≡ in_front (name_fits name from memory.old) (name_of name (words_at name.bytes from memory.old)) memory.old }
{
    if !stands(memory, 65, name.bytes, from) || name.bytes == 0 {
        return None;
    }
    let words = words_for(name.bytes);
    let front = [
        heading(Kind::Name as u16, 2, 6 + words as u32),
        128,
        name.next,
        name.commit,
        name.list,
        name.bytes,
    ];
    Some(put_object(memory, &front, from, words))
}

// Whether the object in the buffer is of a kind.
fn is_kind(memory: &[u64], kind: Kind) -> bool
    ensures { result ≡ of_kind (kind_number kind) memory.now }
{
    memory.len() >= plan::END && kind_in(memory[0]) == kind as u64
}

// How many bytes the file in the buffer has.
pub fn read_file(memory: &[u64]) -> Option<u64>
    ensures { result ≡ file_read memory.now }
{
    if !is_kind(memory, Kind::File) {
        return None;
    }
    Some(memory[1].saturating_sub(64))
}

// Four words of memory as a key.
fn key_in(memory: &[u64], at: usize) -> Key
    requires { at + 4 ≤ length memory.now }
    ensures { result ≡ key_at at memory.now }
{
    Key {
        a: memory[at],
        b: memory[at + 1],
        c: memory[at + 2],
        d: memory[at + 3],
    }
}

// The commit in the buffer.
pub fn read_commit(memory: &[u64]) -> Option<Commit>
    ensures { result ≡ commit_read memory.now }
{
    if !is_kind(memory, Kind::Commit) {
        return None;
    }
    let tree_weight = memory[10];
    Some(Commit {
        tree: memory[2],
        one: memory[3],
        two: memory[4],
        id: key_in(memory, 5),
        stamp: memory[9],
        tree_weight,
        bytes: memory[1].saturating_sub(256).saturating_sub(tree_weight),
    })
}

// The name in the buffer.
pub fn read_name(memory: &[u64]) -> Option<Name>
    ensures { result ≡ name_read memory.now }
{
    if !is_kind(memory, Kind::Name) {
        return None;
    }
    Some(Name {
        next: memory[2],
        commit: memory[3],
        list: memory[4],
        bytes: memory[5],
    })
}

// Up to eight bytes with zeros behind them.
fn padded(bytes: &[u8]) -> [u8; 8]
    requires { length bytes.now ≤ 8 }
    ensures { result ≡ bytes.now ++ zeros (8 - length bytes.now) }
{
    let mut eight = [0; 8];
    eight[..bytes.len()].copy_from_slice(bytes);
    eight
}

// Writes bytes at a place, eight to a word, the highest first, zeros behind the last; where they don't fit nothing is written.
pub fn put_bytes(memory: &mut [u64], at: usize, bytes: &[u8])
    ensures { memory.new ≡ bytes_put at bytes.now memory.old }
{
    let words = bytes.len().div_ceil(8);
    if at > memory.len() || words > memory.len() - at {
        return;
    }
    let (eights, rest) = bytes.as_chunks::<8>();
    for (i, eight) in eights.iter().enumerate() {
        memory[at + i] = number(eight);
    }
    if !rest.is_empty() {
        memory[at + eights.len()] = number(&padded(rest));
    }
}

// What was composed is read back as it was.
pub fn reads_back()
    ensures { ReadBack }
{}

// Bytes come back out of the words that they were packed into.
pub fn bytes_come_back()
    ensures { BytesBack }
{}
