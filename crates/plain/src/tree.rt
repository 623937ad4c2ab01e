// Files by rising path, and how two trees are put together.
ghost use Rattle.std.specs.BTreeMap.{btree_map_len};
ghost use Rattle.std.specs.Prelude.{◌≡◌, ◌==◌, OnOk, OnErr};
ghost use Rattle.plain.specs.Files.{held, held_or_empty};
ghost use Rattle.plain.specs.Sides.{Meets, is_clash, left, rows};
ghost use Rattle.trees.specs.Tree.{alike, found, put, same_tree, set, without};

use std::alloc::{AllocError, Global};
use std::collections::{BTreeMap, BTreeSet};

// The bytes at each path.
#[derive(Clone, PartialEq, Drop)]
pub struct Tree {
    pub files: BTreeMap<Vec<u8>, Vec<u8>>,
}

// What joining leaves at a path.
#[derive(Clone, Copy)]
pub enum Met<'a> {
    Joined(Option<&'a [u8]>),
    // ours stands
    Clash(Option<&'a [u8]>),
}

// Whether two sides have the same at a path: nothing, or the same bytes.
pub fn alike(here: Option<&[u8]>, there: Option<&[u8]>) -> bool
    ensures { result ≡ alike (rows here.entry) (rows there.entry) }
{
    here == there
}

// What is at a path where ours and theirs are put together; at a clash ours stands.
pub fn meet<'a>(
    ours: Option<&'a [u8]>,
    theirs: Option<&'a [u8]>,
    ours_changed: bool,
    theirs_changed: bool,
) -> Met<'a>
    ensures { Meets (rows ours.entry) (rows theirs.entry) ours_changed theirs_changed (is_clash result) (left result) }
{
    if alike(ours, theirs) {
        return Met::Joined(ours);
    }
    match (ours_changed, theirs_changed) {
        (true, true) => Met::Clash(ours),
        (true, false) => Met::Joined(ours),
        (false, _) => Met::Joined(theirs),
    }
}

impl Tree {
    pub fn new(heap: Global) -> Tree {
        Tree {
            files: BTreeMap::new(heap),
        }
    }

    pub fn len(&self) -> usize
        ensures { result ≡ btree_map_len self.now.files }
    {
        self.files.len()
    }

    pub fn is_empty(&self) -> bool
        ensures { result ≡ (btree_map_len self.now.files == 0) }
    {
        self.files.is_empty()
    }

    // Whether it is the same as another one, or empty where there is no other.
    pub fn is_as(&self, other: Option<&Tree>) -> bool
        ensures { result ≡ same_tree (held self.now) (held_or_empty other.entry) }
    {
        match other {
            Some(tree) => self == tree,
            None => self.is_empty(),
        }
    }

    // The bytes at a path, if there are any.
    pub fn find(&self, path: &[u8]) -> Option<&[u8]>
        ensures { rows result ≡ found (held self.now) path.now }
    {
        Some(self.files.get(path)?.as_slice())
    }

    pub fn put(&mut self, heap: Global, path: &[u8], bytes: &[u8]) -> Result<(), AllocError>
        ensures ok { OnOk result (held self.new ≡ put path.now bytes.now (held self.old)) }
        ensures err { OnErr result (held self.new ≡ held self.old) }
    {
        self.files.insert(path.to_vec(heap)?, bytes.to_vec(heap)?)?;
        Ok(())
    }

    pub fn remove(&mut self, path: &[u8])
        ensures { held self.new ≡ without path.now (held self.old) }
    {
        let _ = self.files.remove(path);
    }

    // Sets what is at a path: bytes, or nothing.
    pub fn set(&mut self, heap: Global, path: &[u8], row: Option<&[u8]>) -> Result<(), AllocError>
        ensures ok { OnOk result (held self.new ≡ set path.now (rows row.entry) (held self.old)) }
        ensures err { OnErr result (held self.new ≡ held self.old) }
    {
        match row {
            Some(bytes) => self.put(heap, path, bytes),
            None => {
                self.remove(path);
                Ok(())
            }
        }
    }

    // The paths of two trees.
    pub fn paths_of_both<'a>(
        &'a self,
        heap: Global,
        other: &'a Tree,
    ) -> Result<BTreeSet<&'a [u8]>, AllocError> {
        self.files
            .keys()
            .chain(other.files.keys())
            .map(|path| path.as_slice())
            .collect(heap)
    }
}
