// The files in work as an ordinary map, and a list of commits with whole trees.
use crate::answer::{Answer, Answers, refused};
use commands::{Command, Refusal};
use pages::bytes::in_eight;
use pages::told::Told;
use std::alloc::{AllocError, Global};
use std::collections::{BTreeMap, BTreeSet};
use store::hasher::sum;

const MOST_FILES: usize = 4_096;

// The one branch that there may be.
pub const BRANCH: &[u8] = b"main";

// The bytes at each path.
type Files = BTreeMap<Vec<u8>, Vec<u8>>;

#[derive(Drop)]
struct Commit {
    tree: Files,
    words: Vec<u8>,
    id: [u8; 32],
}

#[derive(Drop)]
pub struct Model {
    heap: Global,
    // How much may be kept, in bytes.
    pub room: u64,
    // The files in work.
    files: Files,
    // The oldest first: each comes from the one before it.
    commits: Vec<Commit>,
    // What the commits weigh with all their files, of which each different one is held once.
    noted: u64,
    noted_files: BTreeSet<Vec<u8>>,
}

// With 64 and what a row has.
fn add(weight: u64, row: &[u8]) -> u64 {
    weight.saturating_add(64).saturating_add(row.len() as u64)
}

// What the lines of a tree weigh.
fn lines(tree: &Files) -> u64 {
    let mut weight = 0;
    for path in tree.keys() {
        weight = add(weight, path.as_slice());
    }
    weight
}

// What comes before a path in a row of a status: the file is new, changed or gone; none if it is as it was.
fn mark(old: Option<&[u8]>, new: Option<&[u8]>) -> Option<u8> {
    match (old, new) {
        (None, Some(_)) => Some(1),
        (Some(_), None) => Some(3),
        _ if old != new => Some(2),
        _ => None,
    }
}

fn found<'a>(tree: &'a Files, path: &[u8]) -> Option<&'a [u8]> {
    Some(tree.get(path)?.as_slice())
}

fn put_row(out: &mut Vec<u8>, row: &[u8]) -> Result<(), AllocError> {
    out.extend_from_slice(&in_eight(row.len() as u64))?;
    out.extend_from_slice(row)
}

fn put_tree(out: &mut Vec<u8>, tree: &Files) -> Result<(), AllocError> {
    out.extend_from_slice(&in_eight(tree.len() as u64))?;
    for (path, bytes) in tree.iter() {
        put_row(out, path.as_slice())?;
        put_row(out, &sum(bytes.as_slice()))?;
    }
    Ok(())
}

impl Model {
    // Beside a house of so many pages, of which a quarter holds what is kept.
    pub fn new(heap: Global, pages: u64) -> Model {
        Model {
            heap,
            room: pages.saturating_mul(128),
            files: BTreeMap::new(heap),
            commits: Vec::new(heap),
            noted: 0,
            noted_files: BTreeSet::new(heap),
        }
    }

    // The commits, and in work each different file 64 and its bytes, each path 64 and its length; but for what is at a path.
    fn weight_but_for(&self, path: &[u8]) -> Result<u64, AllocError> {
        let others = self.files.iter().filter(|(p, _)| p.as_slice() != path);
        let mut different = BTreeSet::new(self.heap);
        let mut weight = self.noted;
        for (path, bytes) in others {
            let bytes = bytes.as_slice();
            weight = add(weight, path.as_slice());
            if !self.noted_files.contains(bytes) && different.insert(bytes)? {
                weight = add(weight, bytes);
            }
        }
        Ok(weight)
    }

    // How much is kept.
    pub fn weight(&self) -> Result<u64, AllocError> {
        self.weight_but_for(&[])
    }

    // How many bytes a new file at a path may have, if there is room for one.
    pub fn most_at(&self, path: &[u8]) -> Result<Option<u64>, AllocError> {
        let others = add(self.weight_but_for(path)?, path);
        Ok(self.room.checked_sub(add(others, &[])))
    }

    // What a commit without words adds: itself, the lines of its tree, and with the first one the branch's name.
    fn bare_commit(&self) -> u64 {
        let name = if self.commits.is_empty() { 128 } else { 0 };
        lines(&self.files).saturating_add(256 + name)
    }

    // How many bytes of words a commit may have, if there is room for one.
    pub fn most_words(&self) -> Result<Option<u64>, AllocError> {
        let weight = self.weight()?.saturating_add(self.bare_commit());
        Ok(self.room.checked_sub(weight))
    }

    // How many files there are.
    pub fn len(&self) -> u64 {
        self.files.len() as u64
    }

    // The path of the file at a place, by rising path.
    pub fn path_at(&self, at: u64) -> Result<Option<Vec<u8>>, AllocError> {
        match self.files.keys().nth(at as usize) {
            Some(path) => Ok(Some(path.clone()?)),
            None => Ok(None),
        }
    }

    pub fn has(&self, path: &[u8]) -> bool {
        self.files.contains_key(path)
    }

    pub fn bytes_at(&self, path: &[u8]) -> Option<&[u8]> {
        found(&self.files, path)
    }

    fn put(&mut self, path: &[u8], bytes: Vec<u8>) -> Result<Option<Vec<u8>>, AllocError> {
        Ok(self.files.insert(path.to_vec(self.heap)?, bytes)?)
    }

    fn write(&mut self, path: &[u8], bytes: &[u8]) -> Result<Told, AllocError> {
        if !self.has(path) && self.files.len() >= MOST_FILES {
            return Ok(refused(Refusal::TooManyFiles));
        }
        let before = self.put(path, bytes.to_vec(self.heap)?)?;
        if self.weight()? <= self.room {
            return Ok(Told::Done);
        }
        match before {
            Some(bytes) => {
                self.put(path, bytes)?;
            }
            None => {
                let _ = self.files.remove(path);
            }
        }
        Ok(refused(Refusal::NoRoom))
    }

    fn drop_file(&mut self, path: &[u8]) -> Told {
        match self.files.remove(path) {
            Some(_) => Told::Done,
            None => refused(Refusal::NotThere),
        }
    }

    fn read(&self, path: &[u8]) -> Result<Answer, AllocError> {
        let mut answer = Answer::bare(self.heap, Told::Done);
        match self.bytes_at(path) {
            Some(bytes) => answer.rows.push(bytes.to_vec(self.heap)?)?,
            None => answer.end = refused(Refusal::NotThere),
        }
        Ok(answer)
    }

    // VERSIONS

    // The tree of the last commit.
    fn last_tree(&self) -> Option<&Files> {
        Some(&self.commits.last()?.tree)
    }

    fn last_bytes(&self, path: &[u8]) -> Option<&[u8]> {
        found(self.last_tree()?, path)
    }

    // Whether work is as in the last commit; where there is none, whether it is empty.
    pub fn is_clean(&self) -> bool {
        match self.last_tree() {
            Some(tree) => *tree == self.files,
            None => self.files.is_empty(),
        }
    }

    // The paths of the last commit and of work.
    fn all_paths(&self) -> Result<BTreeSet<&[u8]>, AllocError> {
        let mut paths: BTreeSet<&[u8]> = BTreeSet::new(self.heap);
        if let Some(tree) = self.last_tree() {
            for path in tree.keys() {
                paths.insert(path.as_slice())?;
            }
        }
        for path in self.files.keys() {
            paths.insert(path.as_slice())?;
        }
        Ok(paths)
    }

    fn status(&self) -> Result<Answer, AllocError> {
        let mut answer = Answer::bare(self.heap, Told::Done);
        for path in self.all_paths()?.iter() {
            if let Some(kind) = mark(self.last_bytes(path), self.bytes_at(path)) {
                let mut row = vec![in self.heap; kind]?;
                row.extend_from_slice(path)?;
                answer.rows.push(row)?;
            }
        }
        Ok(answer)
    }

    // The newest first.
    fn history(&self) -> Result<Answer, AllocError> {
        let mut answer = Answer::bare(self.heap, Told::Done);
        for commit in self.commits.iter().rev() {
            let mut row = commit.id.to_vec(self.heap)?;
            row.extend_from_slice(commit.words.as_slice())?;
            answer.rows.push(row)?;
        }
        Ok(answer)
    }

    fn show(&self, name: &[u8], path: &[u8]) -> Result<Answer, AllocError> {
        let mut answer = Answer::bare(self.heap, Told::Done);
        match self.last_bytes(path) {
            Some(bytes) if name == BRANCH => answer.rows.push(bytes.to_vec(self.heap)?)?,
            _ => answer.end = refused(Refusal::NotThere),
        }
        Ok(answer)
    }

    // The sum of the parents, the files, the stamp and the words.
    fn id_of(&self, stamp: u64, words: &[u8]) -> Result<[u8; 32], AllocError> {
        let mut out = Vec::new(self.heap);
        match self.commits.last() {
            Some(parent) => {
                out.extend_from_slice(&in_eight(1))?;
                put_row(&mut out, &parent.id)?;
            }
            None => out.extend_from_slice(&in_eight(0))?,
        }
        put_tree(&mut out, &self.files)?;
        out.extend_from_slice(&in_eight(stamp))?;
        put_row(&mut out, words)?;
        Ok(sum(out.as_slice()))
    }

    // Files that no commit had so far are weighed.
    fn note_files(&mut self) -> Result<(), AllocError> {
        for bytes in self.files.values() {
            if !self.noted_files.contains(bytes) {
                self.noted = add(self.noted, bytes.as_slice());
                self.noted_files.insert(bytes.clone()?)?;
            }
        }
        Ok(())
    }

    fn commit(&mut self, stamp: u64, words: &[u8]) -> Result<Answer, AllocError> {
        if self.is_clean() {
            return Ok(Answer::bare(self.heap, refused(Refusal::NothingToDo)));
        }
        let size = words.len() as u64;
        if !matches!(self.most_words()?, Some(most) if size <= most) {
            return Ok(Answer::bare(self.heap, refused(Refusal::NoRoom)));
        }
        let id = self.id_of(stamp, words)?;
        self.noted = self
            .noted
            .saturating_add(self.bare_commit())
            .saturating_add(size);
        self.note_files()?;
        self.commits.push(Commit {
            tree: self.files.clone()?,
            words: words.to_vec(self.heap)?,
            id,
        })?;
        let mut answer = Answer::bare(self.heap, Told::Done);
        answer.rows.push(id.to_vec(self.heap)?)?;
        Ok(answer)
    }

    // Work is as in the last commit again, which has room since it had room when it was made; where there is none, it is empty.
    fn leave(&mut self) -> Result<Told, AllocError> {
        self.files = match self.commits.last() {
            Some(commit) => commit.tree.clone()?,
            None => BTreeMap::new(self.heap),
        };
        Ok(Told::Done)
    }
}

impl Answers for Model {
    fn answer(&mut self, command: Command<'_>) -> Result<Answer, AllocError> {
        let end = match command {
            Command::WriteFile(path, bytes) => self.write(path, bytes)?,
            Command::DropFile(path) => self.drop_file(path),
            Command::ReadFile(path) => return self.read(path),
            Command::Status => return self.status(),
            Command::Commit(stamp, words) => return self.commit(stamp, words),
            Command::History => return self.history(),
            Command::ShowFile(name, path) => return self.show(name, path),
            Command::Leave => self.leave()?,
            _ => refused(Refusal::NotKnown),
        };
        Ok(Answer::bare(self.heap, end))
    }
}
