// How much a house has to keep, and how much it lacks of another, in bytes.
use crate::book::{Book, Commit};
use crate::houses::{House, Plain};
use crate::tree::Tree;
use std::alloc::{AllocError, Global};
use std::collections::BTreeSet;

// What was weighed so far; files that were seen weigh nothing more.
#[derive(Drop)]
struct Scales<'a> {
    seen: BTreeSet<&'a [u8]>,
    total: u64,
}

impl<'a> Scales<'a> {
    fn new(heap: Global) -> Scales<'a> {
        Scales {
            seen: BTreeSet::new(heap),
            total: 0,
        }
    }

    fn add(&mut self, fixed: u64, more: usize) {
        self.total = self.total.saturating_add(fixed).saturating_add(more as u64);
    }

    // The lines of a tree, and its files.
    fn tree(&mut self, tree: &'a Tree) -> Result<(), AllocError> {
        for (path, bytes) in tree.files.iter() {
            self.add(64, path.len());
            if self.seen.insert(bytes.as_slice())? {
                self.add(64, bytes.len());
            }
        }
        Ok(())
    }

    fn commit(&mut self, commit: &'a Commit) -> Result<(), AllocError> {
        self.add(256, commit.words.len());
        self.tree(&commit.tree)
    }
}

// Each different file once, each commit, each line of its tree; the same for what is in work; and the names.
pub fn of_house(book: &Book, x: &House) -> Result<u64, AllocError> {
    let mut scales = Scales::new(book.heap);
    scales.tree(&x.work)?;
    for k in x.reached(book)?.iter() {
        if let Some(commit) = book.get(*k) {
            scales.commit(commit)?;
        }
    }
    let names = x.all_refs()?.len() as u64;
    Ok(scales.total.saturating_add(names.saturating_mul(128)))
}

// What a house that reaches ours lacks of one that reaches theirs.
fn lacking(
    book: &Book,
    ours: &BTreeSet<usize>,
    theirs: &BTreeSet<usize>,
) -> Result<u64, AllocError> {
    let mut scales = Scales::new(book.heap);
    for k in ours.iter() {
        if let Some(commit) = book.get(*k) {
            scales.tree(&commit.tree)?;
        }
    }
    scales.total = 0;
    for k in theirs.difference(ours) {
        if let Some(commit) = book.get(*k) {
            scales.commit(commit)?;
        }
    }
    Ok(scales.total)
}

// How many letters a line must carry for house c to fetch from house d.
pub fn letters(plain: &Plain, c: usize, d: usize) -> Result<u64, AllocError> {
    let (Some(x), Some(y)) = (plain.houses.get(c), plain.houses.get(d)) else {
        return Ok(0);
    };
    let ours = x.reached(&plain.book)?;
    let theirs = y.reached(&plain.book)?;
    let lacks = lacking(&plain.book, &ours, &theirs)?;
    let known = (ours.len() as u64).saturating_add(theirs.len() as u64);
    let named = known.saturating_add(y.branches.len() as u64);
    Ok((lacks / 1024).saturating_add(16).saturating_add(named / 16))
}
