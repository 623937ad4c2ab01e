// All commits there ever were, numbered as they came; their ids; which come before which.
ghost use Rattle.house.specs.House.{tree_of};
ghost use Rattle.plain.specs.Files.{book_of, held_or_empty, one};
ghost use Rattle.plain.specs.Grown.{Grown};
ghost use Rattle.plain.specs.Sides.{rows};
ghost use Rattle.trees.specs.Tree.{found};
ghost use Rattle.std.specs.Prelude.{◌≡◌, ◌<◌, ◌≤◌, length, slice_index_or, false, All, IfOk, IsTrue, IsFalse, vec_len};

use crate::tree::Tree;
use pages::bytes::in_eight;
use std::alloc::{AllocError, Global};
use std::cmp::Reverse;
use std::collections::BTreeSet;
use store::hasher::sum;

#[derive(Drop)]
pub struct Commit {
    // numbers of commits, all lower than its own
    pub parents: Vec<usize>,
    pub tree: Tree,
    pub stamp: u64,
    pub words: Vec<u8>,
    pub id: [u8; 32],
}

#[derive(Drop)]
pub struct Book {
    pub heap: Global,
    pub commits: Vec<Commit>,
}

fn put_row(out: &mut Vec<u8>, bytes: &[u8]) -> Result<(), AllocError> {
    out.extend_from_slice(&in_eight(bytes.len() as u64))?;
    out.extend_from_slice(bytes)
}

fn put_tree(out: &mut Vec<u8>, tree: &Tree) -> Result<(), AllocError> {
    out.extend_from_slice(&in_eight(tree.len() as u64))?;
    for (path, bytes) in tree.files.iter() {
        put_row(out, path.as_slice())?;
        put_row(out, &sum(bytes.as_slice()))?;
    }
    Ok(())
}

pub(crate) fn is_marked(marks: &[bool], k: usize) -> bool
    ensures { result ≡ slice_index_or marks.now k false }
{
    marks.get(k).copied().unwrap_or(false)
}

// Marks these numbers; those past the end are passed over.
fn mark(marks: &mut [bool], numbers: &[usize])
    ensures len { length marks.new ≡ length marks.old }
    ensures past { All (λ k. length marks.old ≤ k) numbers.now → marks.new ≡ marks.old }
{
    for k in numbers {
        if *k < marks.len() {
            marks[*k] = true;
        }
    }
}

impl Book {
    pub fn new(heap: Global) -> Book
        ensures { vec_len result.commits ≡ 0 }
    {
        Book {
            heap,
            commits: Vec::new(heap),
        }
    }

    pub fn len(&self) -> usize
        ensures { result ≡ vec_len self.now.commits }
    {
        self.commits.len()
    }

    pub fn get(&self, k: usize) -> Option<&Commit> {
        self.commits.get(k)
    }

    // The tree of a commit; none where there is no commit.
    pub fn tree(&self, k: Option<usize>) -> Option<&Tree>
        ensures { held_or_empty result ≡ tree_of (book_of self.now) (one k) }
    {
        Some(&self.commits.get(k?)?.tree)
    }

    pub fn tree_copy(&self, k: Option<usize>) -> Result<Tree, AllocError> {
        match self.tree(k) {
            Some(tree) => tree.clone(),
            None => Ok(Tree::new(self.heap)),
        }
    }

    // What a path holds in the tree of a commit.
    pub fn found(&self, k: Option<usize>, path: &[u8]) -> Option<&[u8]>
        ensures { rows result ≡ found (tree_of (book_of self.now) (one k)) path.now }
    {
        self.tree(k)?.find(path)
    }

    pub fn id(&self, k: usize) -> [u8; 32] {
        self.commits.get(k).map_or([0; 32], |commit| commit.id)
    }

    pub fn stamp(&self, k: usize) -> u64 {
        self.commits.get(k).map_or(0, |commit| commit.stamp)
    }

    fn spelled(
        &self,
        parents: &[usize],
        tree: &Tree,
        stamp: u64,
        words: &[u8],
    ) -> Result<Vec<u8>, AllocError> {
        let mut out = Vec::new(self.heap);
        out.extend_from_slice(&in_eight(parents.len() as u64))?;
        for k in parents {
            put_row(&mut out, &self.id(*k))?;
        }
        put_tree(&mut out, tree)?;
        out.extend_from_slice(&in_eight(stamp))?;
        put_row(&mut out, words)?;
        Ok(out)
    }

    // The number of a commit, which is noted unless it is there already.
    pub fn note(
        &mut self,
        parents: Vec<usize>,
        tree: Tree,
        stamp: u64,
        words: Vec<u8>,
    ) -> Result<usize, AllocError>
        ensures number { IfOk result (λ k. k < vec_len self.new.commits) }
        ensures old_stay { Grown self.old.commits.items self.new.commits.items }
    {
        let there = self.commits.iter().position(|old| {
            old.stamp == stamp && old.parents == parents && old.words == words && old.tree == tree
        });
        if let Some(k) = there {
            return Ok(k);
        }
        let spelled = self.spelled(parents.as_slice(), &tree, stamp, words.as_slice())?;
        let k = self.commits.len();
        self.commits.push(Commit {
            parents,
            tree,
            stamp,
            words,
            id: sum(spelled.as_slice()),
        })?;
        Ok(k)
    }

    // These commits and all that come before them, as marks; a number that is no commit's is passed over.
    pub(crate) fn marks(&self, starts: &[usize]) -> Result<Vec<bool>, AllocError>
        ensures len { IfOk result (λ marks. vec_len marks ≡ vec_len self.now.commits) }
        ensures past { IfOk result (λ marks. All (λ k. vec_len self.now.commits ≤ k) starts.now → All IsFalse marks.items) }
    {
        let mut marks = vec![in self.heap; false; self.commits.len()]?;
        mark(marks.as_mut_slice(), starts);
        for (k, commit) in self.commits.iter().enumerate().rev() {
            if is_marked(marks.as_slice(), k) {
                mark(marks.as_mut_slice(), commit.parents.as_slice());
            }
        }
        Ok(marks)
    }

    // These commits and all that come before them.
    pub fn back(&self, starts: &[usize]) -> Result<BTreeSet<usize>, AllocError>
        ensures { IfOk result (λ reached. All (λ k. k < vec_len self.now.commits) reached.keys) }
    {
        let marks = self.marks(starts)?;
        (0..self.commits.len())
            .filter(|k| is_marked(marks.as_slice(), *k))
            .collect(self.heap)
    }

    // Whether commit k is j or comes from it.
    pub fn under(&self, j: usize, k: usize) -> Result<bool, AllocError>
        ensures { IfOk result (λ yes. IsTrue yes → (j < vec_len self.now.commits) × (k < vec_len self.now.commits)) }
    {
        Ok(is_marked(self.marks(&[k])?.as_slice(), j))
    }

    // The latest that both come from: no other that both come from comes from them.
    pub fn latest_common(&self, j: usize, k: usize) -> Result<Vec<usize>, AllocError> {
        let theirs = self.marks(&[j])?;
        let ours = self.marks(&[k])?;
        let mut latest = Vec::new(self.heap);
        let mut covered = self.marks(&[])?;
        for i in (0..self.commits.len()).rev() {
            if is_marked(theirs.as_slice(), i)
                && is_marked(ours.as_slice(), i)
                && !is_marked(covered.as_slice(), i)
            {
                latest.push(i)?;
                covered = self.marks(latest.as_slice())?;
            }
        }
        Ok(latest)
    }

    // Of the commits that are left, one from which no other comes: the one with the largest stamp, of several the one with the least id.
    fn next_of(&self, left: &[bool]) -> Option<usize> {
        (0..self.commits.len())
            .filter(|j| is_marked(left, *j) && self.is_free(left, *j))
            .min_by_key(|j| (Reverse(self.stamp(*j)), self.id(*j)))
    }

    // Whether no commit that is left has this one as a parent. What is left is whole: with a commit, all that comes before it.
    fn is_free(&self, left: &[bool], j: usize) -> bool {
        !left
            .iter()
            .zip(self.commits.iter())
            .any(|(there, commit)| *there && commit.parents.contains(&j))
    }

    // A commit and all before it, in the order of a log.
    pub fn log(&self, start: Option<usize>) -> Result<Vec<usize>, AllocError> {
        let mut order = Vec::new(self.heap);
        let Some(tip) = start else {
            return Ok(order);
        };
        let mut left = self.marks(&[tip])?;
        for _ in 0..self.commits.len() {
            let Some(k) = self.next_of(left.as_slice()) else {
                break;
            };
            order.push(k)?;
            if let Some(there) = left.get_mut(k) {
                *there = false;
            }
        }
        Ok(order)
    }
}
