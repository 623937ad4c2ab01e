// The plain houses: what each command shows, or why it is refused, and what is afterwards.
ghost use Rattle.house.specs.House.{all_refs, clean, ref_of, tip, tree_of};
ghost use Rattle.trees.specs.Tree.{found, put, without};
ghost use Rattle.plain.specs.Files.{IsMemory, Marks, NewName, Replies, Shows, Works, book_of, house_of, one, rows_shown};
ghost use Rattle.plain.specs.Grown.{Grown};
ghost use Rattle.pages.specs.Lists.{none_of, same};
ghost use Rattle.plain.specs.Replies.{of_forgetting, of_going, of_name, taken_at};
ghost use Rattle.plain.specs.Sides.{rows};
ghost use Rattle.plain.specs.declared.houses.Trouble.TheVariants.{Memory, Refused};
ghost use Rattle.std.specs.Prelude.{◌≡◌, [], ◌∷◌, not, IfOk, OnErr};

use crate::book::{Book, is_marked};
use crate::refusal;
use crate::tree::{Met, Tree, alike, meet};
use commands::{Command, Refusal};
use std::alloc::{AllocError, AllocFailed, Global};
use std::collections::{BTreeMap, BTreeSet};

const MOST_FILES: usize = 4096;

// The commits of names.
pub type Refs = BTreeMap<Vec<u8>, usize>;

#[derive(Clone, Drop)]
pub struct House {
    pub branches: Refs,
    pub tags: Refs,
    // branches of other houses, as they were when fetched: the house's number before the name
    pub others: Refs,
    // the branch on which one works; it may have no commit yet
    pub here: Vec<u8>,
    pub work: Tree,
    // the commit that is being joined
    pub joining: Option<usize>,
    // paths that clash
    pub unsettled: BTreeSet<Vec<u8>>,
}

// How the rows that a command shows are to be read.
#[derive(Clone, Copy, Debug, PartialEq, Eq)]
pub enum Form {
    Rows,
    Ids,
    // an id, and then words
    Lines,
    // one byte 1 to 4, and then a path
    Marks,
}

// What a command that is done shows.
#[derive(Drop)]
pub struct Shown {
    pub form: Form,
    pub rows: Vec<Vec<u8>>,
}

// Why a turn comes to nothing.
#[derive(Drop)]
enum Trouble {
    Memory(AllocError),
    Refused(Refusal),
}

impl From<AllocError> for Trouble {
    ghost from_gives = { λ error trouble. trouble ≡ Memory error };

    fn from(error: AllocError) -> Trouble {
        Trouble::Memory(error)
    }
}

impl<T: Drop> From<AllocFailed<T>> for Trouble {
    ghost from_gives = { λ _ trouble. IsMemory trouble };

    fn from(error: AllocFailed<T>) -> Trouble {
        Trouble::Memory(AllocError::from(error))
    }
}

impl From<Refusal> for Trouble {
    ghost from_gives = { λ refusal trouble. trouble ≡ Refused refusal };

    fn from(refusal: Refusal) -> Trouble {
        Trouble::Refused(refusal)
    }
}

#[derive(Drop)]
pub struct Plain {
    pub heap: Global,
    pub book: Book,
    pub houses: Vec<House>,
}

// What a turn changed: the length of the book and the house before it.
#[derive(Drop)]
pub struct Past {
    house: usize,
    noted: usize,
    before: House,
}

impl Shown {
    fn nothing(heap: Global) -> Shown {
        Shown {
            form: Form::Rows,
            rows: Vec::new(heap),
        }
    }

    fn row(heap: Global, form: Form, row: &[u8]) -> Result<Shown, AllocError>
        ensures { IfOk result (λ s. rows_shown s ≡ row.now ∷ []) }
    {
        let rows = vec![in heap; row.to_vec(heap)?]?;
        Ok(Shown { form, rows })
    }

    fn ids(book: &Book, commits: &[usize]) -> Result<Shown, AllocError> {
        let mut rows = Vec::new(book.heap);
        for k in commits {
            rows.push(book.id(*k).to_vec(book.heap)?)?;
        }
        Ok(Shown {
            form: Form::Ids,
            rows,
        })
    }
}

impl House {
    pub fn new(heap: Global) -> Result<House, AllocError> {
        Ok(House {
            branches: BTreeMap::new(heap),
            tags: BTreeMap::new(heap),
            others: BTreeMap::new(heap),
            here: b"main".to_vec(heap)?,
            work: Tree::new(heap),
            joining: None,
            unsettled: BTreeSet::new(heap),
        })
    }

    fn heap(&self) -> Global {
        *self.here.allocator()
    }

    // The commit of the branch on which one works.
    pub fn tip(&self) -> Option<usize>
        ensures { one result ≡ tip (house_of self.now) }
    {
        self.branches.get(self.here.as_slice()).copied()
    }

    // The commit of a branch, a tag or another house's branch, looked up in this order.
    pub fn named(&self, name: &[u8]) -> Option<usize>
        ensures { one result ≡ ref_of (all_refs (house_of self.now)) name.now }
    {
        let found = self.branches.get(name).or(self.tags.get(name));
        found.or(self.others.get(name)).copied()
    }

    // All names, each with its commit.
    pub fn all_refs(&self) -> Result<Vec<(&[u8], usize)>, AllocError> {
        self.branches
            .iter()
            .chain(self.tags.iter())
            .chain(self.others.iter())
            .map(|(name, to)| (name.as_slice(), *to))
            .collect(self.heap())
    }

    // The commits that the house can reach.
    pub fn reached(&self, book: &Book) -> Result<BTreeSet<usize>, AllocError> {
        let mut starts = Vec::new(book.heap);
        for (_, to) in self.all_refs()?.iter() {
            starts.push(*to)?;
        }
        starts.extend(self.joining)?;
        book.back(starts.as_slice())
    }

    // Whether work is as at our commit, and nothing is being joined.
    fn is_unchanged(&self, book: &Book) -> bool
        ensures { result ≡ clean (book_of book.now) (house_of self.now) }
    {
        self.work.is_as(book.tree(self.tip())) && self.joining.is_none()
    }

    fn is_taken(&self, name: &[u8]) -> bool
        ensures { result ≡ taken_at (house_of self.now) name.now }
    {
        let found = self.branches.get(name).or(self.tags.get(name));
        found.is_some() || self.here.as_slice() == name
    }

    // The tree of a commit in work, and nothing else.
    fn take_up(&mut self, book: &Book, k: Option<usize>) -> Result<(), AllocError> {
        self.work = book.tree_copy(k)?;
        self.joining = None;
        self.unsettled.clear();
        Ok(())
    }

    // Our branch at a commit, and its tree in work.
    fn move_to(&mut self, book: &Book, k: usize) -> Result<(), AllocError> {
        self.branches.insert(self.here.clone()?, k)?;
        self.take_up(book, Some(k))
    }

    fn write_file(&mut self, path: &[u8], bytes: &[u8]) -> Result<Shown, Trouble>
        ensures { Works result (house_of self.new).work (put path.now bytes.now (house_of self.old).work) 10 (found (house_of self.old).work path.now ≡ []) }
    {
        let heap = self.heap();
        if self.work.find(path).is_none() && self.work.len() >= MOST_FILES {
            return Err(Trouble::Refused(Refusal::TooManyFiles));
        }
        self.work.put(heap, path, bytes)?;
        self.unsettled.remove(path);
        Ok(Shown::nothing(heap))
    }

    fn drop_file(&mut self, path: &[u8]) -> Result<Shown, Trouble>
        ensures { Works result (house_of self.new).work (without path.now (house_of self.old).work) 3 (found (house_of self.old).work path.now ≡ []) }
    {
        self.work.find(path).ok_or(Refusal::NotThere)?;
        self.work.remove(path);
        self.unsettled.remove(path);
        Ok(Shown::nothing(self.heap()))
    }

    fn commit(&mut self, book: &mut Book, stamp: u64, words: &[u8]) -> Result<Shown, Trouble>
        ensures { Grown book.old.commits.items book.new.commits.items }
    {
        let heap = book.heap;
        refusal::of_commit(!self.unsettled.is_empty(), self.is_unchanged(book))?;
        let mut parents = Vec::new(heap);
        parents.extend(self.tip())?;
        parents.extend(self.joining)?;
        let k = book.note(parents, self.work.clone()?, stamp, words.to_vec(heap)?)?;
        self.move_to(book, k)?;
        Ok(Shown::row(heap, Form::Ids, &book.id(k))?)
    }

    // The commit where we are, for a new name.
    fn tip_for(&self, name: &[u8]) -> Result<usize, Refusal>
        ensures { NewName result (tip (house_of self.now)) (of_name (taken_at (house_of self.now) name.now) (none_of (tip (house_of self.now)))) }
    {
        let tip = self.tip();
        refusal::of_name(self.is_taken(name), tip.is_none())?;
        tip.ok_or(Refusal::NotThere)
    }

    // As it stands: this and `tag` share `tip_for`; one function for both would need a closure that picks the map.
    fn branch(&mut self, name: &[u8]) -> Result<Shown, Trouble>
        ensures { Replies result (of_name (taken_at (house_of self.old) name.now) (none_of (tip (house_of self.old)))) }
    {
        let heap = self.heap();
        let k = self.tip_for(name)?;
        self.branches.insert(name.to_vec(heap)?, k)?;
        Ok(Shown::nothing(heap))
    }

    fn tag(&mut self, name: &[u8]) -> Result<Shown, Trouble>
        ensures { Replies result (of_name (taken_at (house_of self.old) name.now) (none_of (tip (house_of self.old)))) }
    {
        let heap = self.heap();
        let k = self.tip_for(name)?;
        self.tags.insert(name.to_vec(heap)?, k)?;
        Ok(Shown::nothing(heap))
    }

    fn go_to(&mut self, book: &Book, name: &[u8]) -> Result<Shown, Trouble>
        ensures { Replies result (of_going (none_of (ref_of (house_of self.old).branches name.now)) (not (clean (book_of book.now) (house_of self.old)))) }
    {
        let there = self.branches.get(name).copied();
        refusal::of_going(there.is_none(), !self.is_unchanged(book))?;
        self.here = name.to_vec(book.heap)?;
        self.take_up(book, there)?;
        Ok(Shown::nothing(book.heap))
    }

    fn history(&self, book: &Book) -> Result<Shown, Trouble> {
        let mut rows = Vec::new(book.heap);
        for k in book.log(self.tip())?.iter() {
            let mut line = book.id(*k).to_vec(book.heap)?;
            if let Some(commit) = book.get(*k) {
                line.extend_from_slice(commit.words.as_slice())?;
            }
            rows.push(line)?;
        }
        Ok(Shown {
            form: Form::Lines,
            rows,
        })
    }

    fn status(&self, book: &Book) -> Result<Shown, Trouble> {
        let heap = book.heap;
        let mut rows = Vec::new(heap);
        let old = book.tree_copy(self.tip())?;
        for path in old.paths_of_both(heap, &self.work)?.iter() {
            if let Some(kind) = mark_of(old.find(path), self.work.find(path)) {
                rows.push(marked_path(heap, kind, path)?)?;
            }
        }
        for path in self.unsettled.iter() {
            rows.push(marked_path(heap, 4, path.as_slice())?)?;
        }
        Ok(Shown {
            form: Form::Marks,
            rows,
        })
    }

    fn settle(&mut self, path: &[u8]) -> Result<Shown, Trouble> {
        if !self.unsettled.remove(path) {
            return Err(Trouble::Refused(Refusal::Clash));
        }
        Ok(Shown::nothing(self.heap()))
    }

    fn leave(&mut self, book: &Book) -> Result<Shown, Trouble> {
        self.take_up(book, self.tip())?;
        Ok(Shown::nothing(book.heap))
    }

    // The commit of a name that is to be joined or moved onto, and ours.
    fn apart(&self, book: &Book, name: &[u8]) -> Result<(usize, usize), Trouble> {
        let j = self.named(name).ok_or(Refusal::NotThere)?;
        let k = self.tip().ok_or(Refusal::NotThere)?;
        refusal::of_joining(false, !self.is_unchanged(book), book.under(j, k)?)?;
        Ok((j, k))
    }

    // Ours is behind theirs: we only move there.
    fn move_ahead(&mut self, book: &Book, j: usize) -> Result<Shown, Trouble> {
        self.move_to(book, j)?;
        Ok(Shown::row(book.heap, Form::Ids, &book.id(j))?)
    }

    fn join(&mut self, book: &Book, name: &[u8]) -> Result<Shown, Trouble> {
        let (j, k) = self.apart(book, name)?;
        if book.under(k, j)? {
            return self.move_ahead(book, j);
        }
        let bases = book.latest_common(j, k)?;
        let Joined { tree, clashes } = join_trees(book, bases.as_slice(), k, j)?;
        if tree.len() > MOST_FILES {
            return Err(Trouble::Refused(Refusal::TooManyFiles));
        }
        let mut rows = Vec::new(book.heap);
        for path in clashes.iter() {
            rows.push(path.clone()?)?;
        }
        self.work = tree;
        self.joining = Some(j);
        self.unsettled = clashes;
        Ok(Shown {
            form: Form::Rows,
            rows,
        })
    }

    fn move_onto(&mut self, book: &mut Book, name: &[u8]) -> Result<Shown, Trouble>
        ensures { Grown book.old.commits.items book.new.commits.items }
    {
        let (j, k) = self.apart(book, name)?;
        if book.under(k, j)? {
            return self.move_ahead(book, j);
        }
        let mine = ours_alone(book, j, k)?;
        let way = carry_all(book, j, mine.as_slice())?.ok_or(Refusal::Clash)?;
        self.move_along(book, &way)
    }

    // Our branch where carrying has come to.
    fn move_along(&mut self, book: &Book, way: &Way) -> Result<Shown, Trouble> {
        self.move_to(book, way.at)?;
        Ok(Shown::ids(book, way.made.as_slice())?)
    }

    fn carry(&mut self, book: &mut Book, id: &[u8]) -> Result<Shown, Trouble>
        ensures { Grown book.old.commits.items book.new.commits.items }
    {
        let j = self.by_id(book, id)?.ok_or(Refusal::NotThere)?;
        let k = self.tip().ok_or(Refusal::NotThere)?;
        let unclean = !self.is_unchanged(book);
        let carried = carry_all(book, k, &[j])?;
        let nothing = matches!(&carried, Some(way) if way.made.is_empty());
        refusal::of_carrying(false, unclean, carried.is_none(), nothing)?;
        let way = carried.ok_or(Refusal::Clash)?;
        self.move_along(book, &way)
    }

    // The commit of an id among those that the house can reach.
    fn by_id(&self, book: &Book, id: &[u8]) -> Result<Option<usize>, AllocError> {
        let reached = self.reached(book)?;
        Ok(reached.iter().copied().find(|k| &book.id(*k)[..] == id))
    }

    fn forget(&mut self, name: &[u8]) -> Result<Shown, Trouble>
        ensures { Replies result (of_forgetting (none_of (ref_of (house_of self.old).branches name.now)) (same name.now (house_of self.old).here)) }
    {
        let missing = !self.branches.contains_key(name);
        refusal::of_forgetting(missing, self.here.as_slice() == name)?;
        self.branches.remove(name);
        Ok(Shown::nothing(self.heap()))
    }

    // The bytes at a path in work.
    fn read_file(&self, path: &[u8]) -> Result<Shown, Trouble>
        ensures { Shows result (found (house_of self.now).work path.now) }
    {
        let bytes = self.work.find(path).ok_or(Refusal::NotThere)?;
        Ok(Shown::row(self.heap(), Form::Rows, bytes)?)
    }

    // The bytes at a path in the tree of a name.
    fn show_file(&self, book: &Book, name: &[u8], path: &[u8]) -> Result<Shown, Trouble>
        ensures { Shows result (found (tree_of (book_of book.now) (ref_of (all_refs (house_of self.now)) name.now)) path.now) }
    {
        let found = book.found(self.named(name), path);
        let bytes = found.ok_or(Refusal::NotThere)?;
        Ok(Shown::row(book.heap, Form::Rows, bytes)?)
    }

    // The first commit of the log that has a path as it is, and no parent that has it so.
    fn who(&self, book: &Book, path: &[u8]) -> Result<Shown, Trouble> {
        let held = book.found(self.tip(), path);
        held.ok_or(Refusal::NotThere)?;
        let log = book.log(self.tip())?;
        let maker = log.iter().copied().find(|k| makes(book, *k, path, held));
        let mut made = Vec::new(book.heap);
        made.extend(maker)?;
        Ok(Shown::ids(book, made.as_slice())?)
    }

    // Branches of another house in place of those that were fetched from it before.
    fn take_branches(&mut self, from: u8, branches: &Refs) -> Result<(), AllocError> {
        self.others.retain(|name, _| name.first() != Some(&from));
        for (branch, to) in branches.iter() {
            let mut name = vec![in self.heap(); from]?;
            name.extend_from_slice(branch.as_slice())?;
            self.others.insert(name, *to)?;
        }
        Ok(())
    }
}

// What differs at a path from what was there: 1 new, 2 changed, 3 gone.
fn mark_of(was: Option<&[u8]>, is: Option<&[u8]>) -> Option<u8>
    ensures { Marks (rows was.entry) (rows is.entry) result }
{
    if alike(was, is) {
        return None;
    }
    match (was, is) {
        (None, _) => Some(1),
        (_, None) => Some(3),
        _ => Some(2),
    }
}

fn marked_path(heap: Global, kind: u8, path: &[u8]) -> Result<Vec<u8>, AllocError> {
    let mut row = vec![in heap; kind]?;
    row.extend_from_slice(path)?;
    Ok(row)
}

// Whether a path is as it is from this commit on.
fn makes(book: &Book, k: usize, path: &[u8], held: Option<&[u8]>) -> bool {
    let Some(commit) = book.get(k) else {
        return false;
    };
    alike(commit.tree.find(path), held)
        && !commit
            .parents
            .iter()
            .any(|parent| alike(book.found(Some(*parent), path), held))
}

// Two trees put together, and the paths that clash.
#[derive(Drop)]
struct Joined {
    tree: Tree,
    clashes: BTreeSet<Vec<u8>>,
}

// Whether a side differs at a path from one of the commits from which both came; where there is none, from nothing.
fn changed(book: &Book, bases: &[usize], path: &[u8], row: Option<&[u8]>) -> bool {
    if bases.is_empty() {
        return row.is_some();
    }
    bases
        .iter()
        .any(|base| !alike(book.found(Some(*base), path), row))
}

fn join_trees(
    book: &Book,
    bases: &[usize],
    ours: usize,
    theirs: usize,
) -> Result<Joined, AllocError> {
    let heap = book.heap;
    let base = book.tree_copy(Some(ours))?;
    let other = book.tree_copy(Some(theirs))?;
    let mut tree = base.clone()?;
    let mut clashes = BTreeSet::new(heap);
    for path in base.paths_of_both(heap, &other)?.iter() {
        let a = base.find(path);
        let b = other.find(path);
        match meet(
            a,
            b,
            changed(book, bases, path, a),
            changed(book, bases, path, b),
        ) {
            Met::Joined(row) => tree.set(heap, path, row)?,
            Met::Clash(row) => {
                tree.set(heap, path, row)?;
                clashes.insert(path.to_vec(heap)?)?;
            }
        }
    }
    Ok(Joined { tree, clashes })
}

// Commits carried on top of another one: where we are, and what was made.
#[derive(Drop)]
struct Way {
    at: usize,
    made: Vec<usize>,
}

// Our commits that another one does not come from, the oldest first.
fn ours_alone(book: &Book, j: usize, k: usize) -> Result<Vec<usize>, AllocError> {
    let theirs = book.marks(&[j])?;
    let mut mine = Vec::new(book.heap);
    let mut at = Some(k);
    for _ in 0..book.len() {
        let Some(i) = at.filter(|i| !is_marked(theirs.as_slice(), *i)) else {
            break;
        };
        mine.push(i)?;
        at = book
            .get(i)
            .and_then(|commit| commit.parents.first().copied());
    }
    mine.reverse();
    Ok(mine)
}

// One commit once more on top of another; false where it clashes, has two parents or makes too many files.
fn carry_one(book: &mut Book, way: &mut Way, k: usize) -> Result<bool, AllocError>
    ensures { Grown book.old.commits.items book.new.commits.items }
{
    let Some(commit) = book.get(k) else {
        return Ok(false);
    };
    if commit.parents.len() > 1 {
        return Ok(false);
    }
    let stamp = commit.stamp;
    let words = commit.words.clone()?;
    let Joined { tree, clashes } = join_trees(book, commit.parents.as_slice(), way.at, k)?;
    if !clashes.is_empty() || tree.len() > MOST_FILES {
        return Ok(false);
    }
    if tree == book.tree_copy(Some(way.at))? {
        return Ok(true);
    }
    let parents = vec![in book.heap; way.at]?;
    way.at = book.note(parents, tree, stamp, words)?;
    way.made.push(way.at)?;
    Ok(true)
}

#[tactic(auto, using(crate::proofs::GrownLaws::grown_on))]
fn carry_all(book: &mut Book, at: usize, mine: &[usize]) -> Result<Option<Way>, AllocError>
    ensures { Grown book.old.commits.items book.new.commits.items }
{
    let mut way = Way {
        at,
        made: Vec::new(book.heap),
    };
    for k in mine {
        if !carry_one(book, &mut way, *k)? {
            return Ok(None);
        }
    }
    Ok(Some(way))
}

impl Plain {
    pub fn new(heap: Global, houses: usize) -> Result<Plain, AllocError> {
        let mut all = Vec::new(heap);
        for _ in 0..houses {
            all.push(House::new(heap)?)?;
        }
        Ok(Plain {
            heap,
            book: Book::new(heap),
            houses: all,
        })
    }

    fn fetch(&self, x: &mut House, c: usize, from: u64) -> Result<Shown, Trouble> {
        let number = u8::try_from(from).map_err(|_| Refusal::NotThere)?;
        let d = usize::from(number);
        let other = self.houses.get(d).filter(|_| d != c);
        let other = other.ok_or(Refusal::NotThere)?;
        x.take_branches(number, &other.branches)?;
        Ok(Shown::nothing(self.heap))
    }

    fn set_house(&mut self, c: usize, house: House)
        ensures { self.new.book ≡ self.old.book }
    {
        if let Some(place) = self.houses.get_mut(c) {
            *place = house;
        }
    }

    // What the command does at house c, of which x is a copy that is changed; a refusal leaves both as they come.
    fn turned(&mut self, x: &mut House, c: usize, command: Command<'_>) -> Result<Shown, Trouble>
        ensures houses { self.new.houses ≡ self.old.houses }
        ensures book { Grown self.old.book.commits.items self.new.book.commits.items }
    {
        match command {
            Command::WriteFile(path, bytes) => x.write_file(path, bytes),
            Command::DropFile(path) => x.drop_file(path),
            Command::Commit(stamp, words) => x.commit(&mut self.book, stamp, words),
            Command::Branch(name) => x.branch(name),
            Command::GoTo(name) => x.go_to(&self.book, name),
            Command::History => x.history(&self.book),
            Command::ShowFile(name, path) => x.show_file(&self.book, name, path),
            Command::Status => x.status(&self.book),
            Command::ReadFile(path) => x.read_file(path),
            Command::Join(name) => x.join(&self.book, name),
            Command::Settle(path) => x.settle(path),
            Command::Leave => x.leave(&self.book),
            Command::MoveOnto(name) => x.move_onto(&mut self.book, name),
            Command::Carry(id) => x.carry(&mut self.book, id),
            Command::Forget(name) => x.forget(name),
            Command::Tag(name) => x.tag(name),
            Command::Who(path) => x.who(&self.book, path),
            Command::Sweep => Ok(Shown::nothing(self.heap)),
            Command::Fetch(from) => self.fetch(x, c, from),
        }
    }

    // What the command does at a house, which is changed; a refusal changes nothing.
    pub fn turn(
        &mut self,
        c: usize,
        command: Command<'_>,
    ) -> Result<Result<Shown, Refusal>, AllocError>
        ensures refused { IfOk result (λ r. OnErr r ((self.new.houses ≡ self.old.houses) × (self.new.book.commits.items ≡ self.old.book.commits.items))) }
        ensures err { OnErr result ((self.new.houses ≡ self.old.houses) × (self.new.book.commits.items ≡ self.old.book.commits.items)) }
        ensures book { Grown self.old.book.commits.items self.new.book.commits.items }
    {
        let Some(house) = self.houses.get(c) else {
            return Ok(Err(Refusal::NotThere));
        };
        let mut x = house.clone()?;
        let noted = self.book.len();
        match self.turned(&mut x, c, command) {
            Ok(shown) => {
                self.set_house(c, x);
                Ok(Ok(shown))
            }
            Err(trouble) => {
                self.book.commits.truncate(noted);
                match trouble {
                    Trouble::Memory(error) => Err(error),
                    Trouble::Refused(refusal) => Ok(Err(refusal)),
                }
            }
        }
    }

    // What a turn at a house may change.
    pub fn past(&self, c: usize) -> Result<Option<Past>, AllocError> {
        match self.houses.get(c) {
            Some(house) => Ok(Some(Past {
                house: c,
                noted: self.book.len(),
                before: house.clone()?,
            })),
            None => Ok(None),
        }
    }

    // As it was before a turn.
    pub fn undo(&mut self, past: Past) {
        let Past {
            house,
            noted,
            before,
        } = past;
        self.book.commits.truncate(noted);
        self.set_house(house, before);
    }
}
