// The house as a client of the tape, for the commands that keep sheets in work and note versions of them.
ghost use Rattle.std.specs.Prelude.{◌≡◌, ◌-◌, ◌*◌, ◌<◌, ◌≤◌, ◌&&◌, ℕ, List, length, take};
ghost use Rattle.commands.specs.Command.{show_file};
ghost use Rattle.commands.specs.Meaning.{meaning};
ghost use Rattle.commands.specs.Refusal.{number_of};
ghost use Rattle.house.specs.Control.{again, against, at_phase, changed, compare, control_client, desk_end, file_came, found_file, hearing, heard_of, kept as kept_of, kind_sought, laid_from, lay_commit, lay_file, lay_tree, layout_in, lays, load, load_old, loaded, log_from, logged, more_kept, named_after, opened, own_cells, phase_code, phase_in, publish, published_by, recalled, said_of, settled, spelled_in, started, sum_came, sum_key, sum_next, summed, survey, surveyed, surveying, survey_roots, sweeping, task_code, task_in, the_branch, tight, tip_came, under_tip};
ghost use Rattle.house.specs.Entry.{own_sum};
ghost use Rattle.objects.specs.Layouts.{commit_read, file_read};
ghost use Rattle.objects.specs.Marking.{asked_on, begun, walked, went_on};
ghost use Rattle.objects.specs.Plan.{head_at};
ghost use Rattle.objects.specs.Sweeping.{sweep_went_on, swung};
ghost use Rattle.pages.specs.Lists.{pick, same as is_same};
ghost use Rattle.pages.specs.Machine.{asked, buffer_words, capped};
ghost use Rattle.pages.specs.Words.{over};
ghost use Rattle.pages.specs.declared.machine.Request.TheVariants.{Object, Recall, Refuse as RefuseWith};

use crate::{desk, spelling};
use commands::{Command, Refusal, parse};
use objects::cells::{sweep_cells, sweep_in, walk_cells, walk_in};
use objects::mark::{Key, Walk};
use objects::pack::copy_words;
use objects::sweep::Sweep;
use objects::{layouts, plan, room};
use pages::machine::{BUFFER, Client, Request};
use pages::words::words_in;
use store::hasher::{Hasher, sum};
use trees::differences::{Cursor, Difference, differ, show};
use trees::entries::entries;
use trees::rows::{find_key, put_key, same, take_key, weight};

// What the command asks for, once it is read.
#[derive(Clone, Copy, Debug, PartialEq, Eq)]
pub enum Task {
    Nothing = 0,
    Write = 1,
    Drop = 2,
    Read = 3,
    Status = 4,
    Leave = 5,
    // A version is noted.
    Note = 6,
    // The log is shown.
    Log = 7,
    // A file of the last commit is shown.
    View = 8,
}

// What was asked of the tape last.
#[derive(Clone, Copy, Debug, PartialEq, Eq)]
pub enum Phase {
    Resting = 0,
    // The head.
    Recalling = 1,
    Sweeping = 2,
    // The tree in work.
    Loading = 3,
    Surveying = 4,
    LayingFile = 5,
    LayingTree = 6,
    Publishing = 7,
    // The file that is read.
    Opening = 8,
    // Its bytes, as a row.
    Showing = 9,
    // A difference, as a row.
    Comparing = 10,
    // The commit of the branch.
    OpeningTip = 11,
    // Its tree, to be compared to.
    LoadingOld = 12,
    // The sum of a file.
    Summing = 13,
    LayingCommit = 14,
    // A commit of the log.
    OpeningLogged = 15,
    // Its id and words, as a row.
    ShowingLogged = 16,
}

// A task as a cell has it.
impl From<u64> for Task {
    ghost from_gives = { λ cell task. task ≡ task_in cell };

    fn from(cell: u64) -> Task {
        match cell {
            1 => Task::Write,
            2 => Task::Drop,
            3 => Task::Read,
            4 => Task::Status,
            5 => Task::Leave,
            6 => Task::Note,
            7 => Task::Log,
            8 => Task::View,
            _ => Task::Nothing,
        }
    }
}

impl Task {
    fn code(self) -> u64
        ensures { result ≡ task_code self }
    {
        self as u64
    }

    // Whether it lays anything on the tape.
    fn lays(self) -> bool
        ensures { result ≡ lays self }
    {
        matches!(self, Task::Write | Task::Drop | Task::Note)
    }

    // The kind of what may be there already: a file, or a commit.
    fn kind_sought(self) -> u64
        ensures { result ≡ kind_sought self }
    {
        match self {
            Task::Note => 3,
            _ => 1,
        }
    }
}

// A phase as a cell has it.
impl From<u64> for Phase {
    ghost from_gives = { λ cell phase. phase ≡ phase_in cell };

    fn from(cell: u64) -> Phase {
        match cell {
            1 => Phase::Recalling,
            2 => Phase::Sweeping,
            3 => Phase::Loading,
            4 => Phase::Surveying,
            5 => Phase::LayingFile,
            6 => Phase::LayingTree,
            7 => Phase::Publishing,
            8 => Phase::Opening,
            9 => Phase::Showing,
            10 => Phase::Comparing,
            11 => Phase::OpeningTip,
            12 => Phase::LoadingOld,
            13 => Phase::Summing,
            14 => Phase::LayingCommit,
            15 => Phase::OpeningLogged,
            16 => Phase::ShowingLogged,
            _ => Phase::Resting,
        }
    }
}

impl Phase {
    fn code(self) -> u64
        ensures { result ≡ phase_code self }
    {
        self as u64
    }
}

// What a version is noted with, besides its tree and its words.
#[derive(Clone, Copy, Debug, PartialEq, Eq)]
pub struct Version {
    pub stamp: u64,
    // The id of the commit from which it comes.
    pub parent: Key,
}

// What a house keeps in its cells. From one command to the next only the first three mean anything.
// As it stands: the registers of all phases side by side, as the cells have them.
#[derive(Clone, Copy, Debug, PartialEq, Eq)]
pub struct Control {
    // The house's number, how many houses there are, how many pages it has.
    pub house: u64,
    pub houses: u64,
    pub pages: u64,
    pub task: Task,
    pub phase: Phase,
    // The file that is written: how many bytes it has, and their sum; of what is noted, how many its words have, and its id.
    pub bytes: u64,
    pub sum: Key,
    // The next page to be laid; the new tree or commit, or the next commit of the log.
    pub page: u64,
    pub root: u64,
    // Where the next difference is looked for, or which file's sum.
    pub cursor: Cursor,
    pub version: Version,
    pub sweep: Sweep,
    pub walk: Walk,
}

// No file's sum.
const NO_SUM: Key = Key {
    a: 0,
    b: 0,
    c: 0,
    d: 0,
};

// The one branch that there may be.
const BRANCH: [u8; 4] = *b"main";

fn is_branch(name: &[u8]) -> bool
    ensures { result ≡ is_same the_branch name.now }
{
    BRANCH.as_slice() == name
}

// A sum as a key.
fn key_of(sum: &[u8; 32]) -> Key
    ensures { result ≡ sum_key sum.now }
{
    let [a, b, c, d] = words_in::<4>(sum);
    Key { a, b, c, d }
}

// Where the object of a reference stands on the tape.
fn place_of(reference: u64) -> u64
    ensures { result ≡ capped (8 * (reference - 1)) }
{
    reference.saturating_sub(1).saturating_mul(8)
}

fn refuse(why: Refusal) -> Request
    ensures { result ≡ RefuseWith (number_of why) }
{
    Request::Refuse {
        number: why.number(),
    }
}

impl Control {
    // The cells that hold it, but for its sweep, its walk and what is noted.
    fn own_cells(&self) -> [u64; 14]
        ensures { result ≡ own_cells self.now }
    {
        let Key { a, b, c, d } = self.sum;
        [
            self.house,
            self.houses,
            self.pages,
            self.task.code(),
            self.phase.code(),
            self.bytes,
            self.page,
            self.root,
            self.cursor.old as u64,
            self.cursor.new as u64,
            a,
            b,
            c,
            d,
        ]
    }

    // A command's task begins: the head is asked for.
    fn begin(&mut self, task: Task, bytes: u64, sum: Key) -> Request
        ensures state { self.new ≡ hearing task bytes sum self.old }
        ensures request { result ≡ Recall }
    {
        self.task = task;
        self.phase = Phase::Recalling;
        self.bytes = bytes;
        self.sum = sum;
        self.cursor = Cursor { old: 0, new: 0 };
        Request::Recall
    }

    // A file of a branch is to be shown.
    fn view(&mut self, memory: &mut [u64], name: &[u8], path: &[u8]) -> Request
        requires { desk_end ≤ length memory.old }
        ensures { asked self.new memory.new result ≡ said_of own_sum self.old memory.old (show_file name.now path.now) }
    {
        if !is_branch(name) {
            return refuse(Refusal::NotThere);
        }
        desk::put_path(memory, path);
        self.begin(Task::View, 0, NO_SUM)
    }

    // What is said is put aside.
    fn take(&mut self, memory: &mut [u64], command: Option<Command<'_>>) -> Request
        requires { desk_end ≤ length memory.old }
        ensures { asked self.new memory.new result ≡ heard_of own_sum self.old memory.old (meaning command.entry) }
    {
        let Some(command) = command else {
            return refuse(Refusal::NoCommand);
        };
        match command {
            Command::WriteFile(path, bytes) => {
                desk::put_path(memory, path);
                layouts::put_bytes(memory, desk::BYTES, bytes);
                self.begin(Task::Write, bytes.len() as u64, key_of(&sum(bytes)))
            }
            Command::DropFile(path) => {
                desk::put_path(memory, path);
                self.begin(Task::Drop, 0, NO_SUM)
            }
            Command::Commit(stamp, words) => {
                layouts::put_bytes(memory, desk::BYTES, words);
                self.version = Version {
                    stamp,
                    parent: NO_SUM,
                };
                self.begin(Task::Note, words.len() as u64, NO_SUM)
            }
            Command::History => self.begin(Task::Log, 0, NO_SUM),
            Command::ShowFile(name, path) => self.view(memory, name, path),
            Command::ReadFile(path) => {
                desk::put_path(memory, path);
                self.begin(Task::Read, 0, NO_SUM)
            }
            Command::Status => self.begin(Task::Status, 0, NO_SUM),
            Command::Leave => self.begin(Task::Leave, 0, NO_SUM),
            _ => refuse(Refusal::NotKnown),
        }
    }

    // The new head: what was laid up to a page is in its window, and it names a tree in work and a last commit.
    fn publish(&mut self, memory: &mut [u64], page: u64, root: u64, tip: u64) -> Request
        requires { desk_end ≤ length memory.old }
        ensures { asked self.new memory.new result ≡ publish self.old memory.old page root tip }
    {
        desk::put_head(memory, page, root, tip);
        self.phase = Phase::Publishing;
        Request::Publish
    }

    // The head is published: the id of what was noted is shown.
    fn published(&mut self, memory: &mut [u64]) -> Request
        requires { desk_end ≤ length memory.old }
        ensures { asked self.new memory.new result ≡ published_by self.old memory.old self.old.task }
    {
        match self.task {
            Task::Note => {
                desk::put_id(memory, self.sum);
                self.phase = Phase::Showing;
                Request::Show { bytes: 32 }
            }
            _ => Request::Done,
        }
    }

    // The object in front of the buffer is laid on fresh pages.
    fn lay(&mut self, phase: Phase, page: u64, words: u64, root: u64) -> Request
        requires { words < 4294967296 }
        ensures { (m : List ℕ) → asked self.new m result ≡ laid_from phase self.old m page words root }
    {
        let pages = words.div_ceil(64);
        self.phase = phase;
        self.page = page.saturating_add(pages);
        self.root = root;
        Request::Lay { page, pages }
    }

    // The tree in work is laid.
    fn lay_tree(&mut self, memory: &mut [u64], page: u64) -> Request
        requires { desk_end ≤ length memory.old }
        ensures { asked self.new memory.new result ≡ lay_tree self.old memory.old page }
    {
        let Some(words) = desk::squeeze_row(memory) else {
            return refuse(Refusal::NotKnown);
        };
        self.lay(
            Phase::LayingTree,
            page,
            words as u64,
            desk::reference_at(page),
        )
    }

    // The file is laid, and named in the row.
    fn lay_file(&mut self, memory: &mut [u64], page: u64) -> Request
        requires { desk_end ≤ length memory.old }
        ensures { asked self.new memory.new result ≡ lay_file self.old memory.old page }
    {
        let Some(words) = layouts::compose_file(memory, self.sum, self.bytes, desk::BYTES) else {
            return refuse(Refusal::NotKnown);
        };
        desk::name_file(memory, desk::reference_at(page));
        self.lay(Phase::LayingFile, page, words, self.root)
    }

    // The commit of the tree in work, which comes from the last one.
    fn layout(&self, memory: &[u64]) -> layouts::Commit
        requires { desk_end ≤ length memory.now }
        ensures { result ≡ layout_in self.now memory.now }
    {
        layouts::Commit {
            tree: desk::head_word(memory, 2),
            one: desk::head_word(memory, 3),
            two: 0,
            id: self.sum,
            stamp: self.version.stamp,
            tree_weight: weight(&memory[desk::ROW..desk::ROW_END]),
            bytes: self.bytes,
        }
    }

    // The commit is laid.
    fn lay_commit(&mut self, memory: &mut [u64], page: u64) -> Request
        requires { desk_end ≤ length memory.old }
        ensures { asked self.new memory.new result ≡ lay_commit self.old memory.old page }
    {
        let commit = self.layout(memory);
        let Some(words) = layouts::compose_commit(memory, commit, desk::BYTES) else {
            return refuse(Refusal::NotKnown);
        };
        self.lay(Phase::LayingCommit, page, words, desk::reference_at(page))
    }

    // What comes to what is live, if what was looked for is not there.
    fn more_kept(&self, memory: &[u64]) -> u64
        requires { desk_end ≤ length memory.now }
        ensures { result ≡ more_kept self.now memory.now self.now.task }
    {
        match self.task {
            Task::Write => self.bytes.saturating_add(64),
            Task::Note => self
                .bytes
                .saturating_add(256)
                .saturating_add(weight(&memory[desk::ROW..desk::ROW_END])),
            _ => 0,
        }
    }

    // What the branch's name weighs, if it has a commit or will have one.
    fn name_kept(&self, memory: &[u64]) -> u64
        requires { desk_end ≤ length memory.now }
        ensures { result ≡ pick (named_after memory.now self.now.task) 128 0 }
    {
        if self.task == Task::Note || desk::head_word(memory, 3) != 0 {
            128
        } else {
            0
        }
    }

    // How much is to be kept after the command.
    fn kept(&self, memory: &[u64]) -> u64
        requires { desk_end ≤ length memory.now }
        ensures { result ≡ kept_of self.now self.now.walk memory.now }
    {
        let more = if self.walk.found == 0 {
            self.more_kept(memory)
        } else {
            0
        };
        self.walk
            .weight
            .saturating_add(weight(&memory[desk::ROW..desk::ROW_END]))
            .saturating_add(self.name_kept(memory))
            .saturating_add(more)
    }

    // The file is there already, or is laid.
    fn settle_file(&mut self, memory: &mut [u64]) -> Request
        requires { desk_end ≤ length memory.old }
        ensures { asked self.new memory.new result ≡ settled self.old self.old.walk memory.old Task.Write }
    {
        let page = desk::head_word(memory, 1);
        if self.walk.found == 0 {
            return self.lay_file(memory, page);
        }
        desk::name_file(memory, self.walk.found);
        self.lay_tree(memory, page)
    }

    // The commit is there already, or is laid.
    fn settle_commit(&mut self, memory: &mut [u64]) -> Request
        requires { desk_end ≤ length memory.old }
        ensures { asked self.new memory.new result ≡ settled self.old self.old.walk memory.old Task.Note }
    {
        let page = desk::head_word(memory, 1);
        if self.walk.found == 0 {
            return self.lay_commit(memory, page);
        }
        let root = desk::head_word(memory, 2);
        self.publish(memory, page, root, self.walk.found)
    }

    // There is room for what is to be kept.
    fn settled(&mut self, memory: &mut [u64]) -> Request
        requires { desk_end ≤ length memory.old }
        ensures { asked self.new memory.new result ≡ settled self.old self.old.walk memory.old self.old.task }
    {
        match self.task {
            Task::Write => self.settle_file(memory),
            Task::Note => self.settle_commit(memory),
            Task::Leave => {
                let page = desk::head_word(memory, 1);
                let tip = desk::head_word(memory, 3);
                self.publish(memory, page, self.root, tip)
            }
            _ => Request::Done,
        }
    }

    // All that will be live is met: there is room for it, or not.
    fn settle(&mut self, memory: &mut [u64]) -> Request
        requires { desk_end ≤ length memory.old }
        ensures { asked self.new memory.new result ≡ surveyed self.old self.old.walk memory.old }
    {
        self.phase = Phase::Surveying;
        if self.kept(memory) > room::quarter(self.pages) {
            return refuse(Refusal::NoRoom);
        }
        self.settled(memory)
    }

    // The walk asks for something; if not, all is met.
    fn surveyed(&mut self, memory: &mut [u64], request: Option<Request>) -> Request
        requires { desk_end ≤ length memory.old }
        ensures { asked self.new memory.new result ≡ asked_on (surveying self.old) (surveyed self.old) self.old.walk memory.old request }
    {
        let Some(request) = request else {
            return self.settle(memory);
        };
        self.phase = Phase::Surveying;
        request
    }

    // Marks what will be live: what is noted names the tree in work, so that stays.
    fn mark(&self, memory: &mut [u64], first: u64)
        requires { desk_end ≤ length memory.old }
        ensures { memory.new ≡ begun first (survey_roots self.now.task memory.old) memory.old }
    {
        match self.task {
            Task::Note => desk::mark_named(memory, first),
            _ => desk::mark_kept(memory, first),
        }
    }

    // A survey begins.
    fn survey(&mut self, memory: &mut [u64]) -> Request
        requires { desk_end ≤ length memory.old }
        ensures { asked self.new memory.new result ≡ survey self.old memory.old }
    {
        let first = desk::head_word(memory, 0);
        let last = desk::head_word(memory, 1);
        self.walk = Walk {
            first: first.saturating_mul(8),
            below: last.saturating_sub(first).saturating_mul(8),
            weight: 0,
            kind: self.task.kind_sought(),
            key: self.sum,
            found: 0,
        };
        self.mark(memory, first.saturating_mul(8));
        let request = self.walk.seek(memory);
        self.surveyed(memory, request)
    }

    fn survey_on(&mut self, memory: &mut [u64]) -> Request
        requires { desk_end ≤ length memory.old }
        ensures { asked self.new memory.new result ≡ walked (surveying self.old) (surveyed self.old) (went_on self.old.walk memory.old) }
    {
        let request = self.walk.go_on(memory);
        self.surveyed(memory, request)
    }

    // The id of what is noted: the sum of its spelling.
    fn id(&self, memory: &[u64]) -> Key
        requires { desk_end ≤ length memory.now }
        ensures { result ≡ sum_key (own_sum (spelled_in self.now memory.now)) }
    {
        let tip = desk::head_word(memory, 3);
        let row = &memory[desk::ROW..desk::ROW_END];
        let sums = &memory[plan::COUNTS..plan::END];
        let many = self.bytes.min(65_535) as usize;
        let words = &memory[desk::BYTES..desk::BYTES + many.div_ceil(8)];
        let mut hasher = Hasher::new();
        spelling::add_parents(&mut hasher, tip, self.version.parent);
        spelling::add_files(&mut hasher, row, sums);
        spelling::add_number(&mut hasher, self.version.stamp);
        spelling::add_words(&mut hasher, words, many);
        key_of(&hasher.finish())
    }

    // What is noted has its id.
    fn summed(&mut self, memory: &mut [u64]) -> Request
        requires { desk_end ≤ length memory.old }
        ensures { asked self.new memory.new result ≡ summed own_sum self.old memory.old }
    {
        self.sum = self.id(memory);
        self.survey(memory)
    }

    // The sum of the next file of the row is looked at.
    fn sum_next(&mut self, memory: &mut [u64], file: usize) -> Request
        requires { desk_end ≤ length memory.old }
        ensures { asked self.new memory.new result ≡ sum_next own_sum self.old memory.old file }
    {
        if file >= entries(&memory[desk::ROW..desk::ROW_END]).len() {
            return self.summed(memory);
        }
        let at = place_of(memory[desk::ROW + 10 * file + 11]);
        self.phase = Phase::Summing;
        self.cursor = Cursor { old: file, new: 0 };
        Request::Object { at, limit: 6 }
    }

    // The front of a file came, in which its sum is.
    fn sum_came(&mut self, memory: &mut [u64]) -> Request
        requires { desk_end ≤ length memory.old }
        ensures { asked self.new memory.new result ≡ sum_came own_sum self.old memory.old }
    {
        desk::put_sum(memory, self.cursor.old);
        self.sum_next(memory, self.cursor.old.saturating_add(1))
    }

    // The next difference is shown.
    fn compare(&mut self, memory: &mut [u64]) -> Request
        requires { desk_end ≤ length memory.old }
        ensures { asked self.new memory.new result ≡ compare self.old memory.old }
    {
        let old = &memory[desk::OLD_ROW..desk::OLD_ROW_END];
        let new = &memory[desk::ROW..desk::ROW_END];
        let Some(Difference { place, next }) = differ(old, new, self.cursor) else {
            return Request::Done;
        };
        let mut row = [0; 65];
        let bytes = show(old, new, place, &mut row);
        layouts::put_bytes(memory, 0, &row[..bytes]);
        self.phase = Phase::Comparing;
        self.cursor = next;
        Request::Show {
            bytes: bytes as u64,
        }
    }

    // What differs from the last commit is noted.
    fn changed(&mut self, memory: &mut [u64]) -> Request
        requires { desk_end ≤ length memory.old }
        ensures { asked self.new memory.new result ≡ changed own_sum self.old memory.old }
    {
        let old = &memory[desk::OLD_ROW..desk::OLD_ROW_END];
        let new = &memory[desk::ROW..desk::ROW_END];
        if same(old, new) {
            return refuse(Refusal::NothingToDo);
        }
        self.sum_next(memory, 0)
    }

    // Both trees are in their rows.
    fn against(&mut self, memory: &mut [u64]) -> Request
        requires { desk_end ≤ length memory.old }
        ensures { asked self.new memory.new result ≡ against own_sum self.old memory.old self.old.task }
    {
        match self.task {
            Task::Status => self.compare(memory),
            Task::Note => self.changed(memory),
            _ => Request::Done,
        }
    }

    // A tree or a commit is asked for.
    fn ask(&mut self, phase: Phase, reference: u64) -> Request
        ensures { (m : List ℕ) → asked self.new m result ≡ asked (at_phase phase self.old) m (Object (capped (8 * (reference - 1))) buffer_words) }
    {
        self.phase = phase;
        Request::Object {
            at: place_of(reference),
            limit: BUFFER as u64,
        }
    }

    // The tree that is compared to is asked for, if there is one.
    fn load_old(&mut self, memory: &mut [u64], root: u64) -> Request
        requires { desk_end ≤ length memory.old }
        ensures { asked self.new memory.new result ≡ load_old own_sum self.old memory.old root }
    {
        if root == 0 {
            desk::empty_row(memory, desk::OLD_ROW);
            return self.against(memory);
        }
        self.ask(Phase::LoadingOld, root)
    }

    // The last commit's tree is compared to; where there is no commit, the empty one.
    fn load_last(&mut self, memory: &mut [u64]) -> Request
        requires { desk_end ≤ length memory.old }
        ensures { asked self.new memory.new result ≡ loaded own_sum self.old memory.old Task.Note }
    {
        let tip = desk::head_word(memory, 3);
        if tip == 0 {
            return self.load_old(memory, 0);
        }
        self.ask(Phase::OpeningTip, tip)
    }

    // The file of a reference is asked for.
    fn open(&mut self, reference: Option<u64>) -> Request
        ensures { (m : List ℕ) → asked self.new m result ≡ opened self.old m reference }
    {
        let Some(reference) = reference else {
            return refuse(Refusal::NotThere);
        };
        self.ask(Phase::Opening, reference)
    }

    // The file at the command's path is asked for.
    fn find_file(&mut self, memory: &[u64]) -> Request
        requires { desk_end ≤ length memory.now }
        ensures { asked self.new memory.now result ≡ found_file self.old memory.now }
    {
        let key = desk::path_key(memory);
        self.open(find_key(&memory[desk::ROW..desk::ROW_END], &key))
    }

    // A file is written into the row, for now with no reference.
    fn write(&mut self, memory: &mut [u64]) -> Request
        requires { desk_end ≤ length memory.old }
        ensures { asked self.new memory.new result ≡ loaded own_sum self.old memory.old Task.Write }
    {
        let key = desk::path_key(memory);
        let weight = desk::entry_weight(memory);
        if put_key(&mut memory[desk::ROW..desk::ROW_END], &key, weight, 0).is_err() {
            return refuse(Refusal::TooManyFiles);
        }
        self.survey(memory)
    }

    // A file is taken out of the row.
    fn remove(&mut self, memory: &mut [u64]) -> Request
        requires { desk_end ≤ length memory.old }
        ensures { asked self.new memory.new result ≡ loaded own_sum self.old memory.old Task.Drop }
    {
        let key = desk::path_key(memory);
        let weight = desk::entry_weight(memory);
        if !take_key(&mut memory[desk::ROW..desk::ROW_END], &key, weight) {
            return refuse(Refusal::NotThere);
        }
        self.lay_tree(memory, desk::head_word(memory, 1))
    }

    // The tree is in its row.
    fn loaded(&mut self, memory: &mut [u64]) -> Request
        requires { desk_end ≤ length memory.old }
        ensures { asked self.new memory.new result ≡ loaded own_sum self.old memory.old self.old.task }
    {
        match self.task {
            Task::Write => self.write(memory),
            Task::Drop => self.remove(memory),
            Task::Read | Task::View => self.find_file(memory),
            Task::Status | Task::Note => self.load_last(memory),
            Task::Nothing | Task::Leave | Task::Log => Request::Done,
        }
    }

    // A tree is asked for, if there is one.
    fn load_tree(&mut self, memory: &mut [u64], root: u64) -> Request
        requires { desk_end ≤ length memory.old }
        ensures { asked self.new memory.new result ≡ load own_sum self.old memory.old root }
    {
        if root == 0 {
            desk::empty_row(memory, desk::ROW);
            return self.loaded(memory);
        }
        self.ask(Phase::Loading, root)
    }

    // A tree comes in place of the one in work, if there is room for it: what the head names else is surveyed, and the tree's weight stands in the row.
    fn put_back(&mut self, memory: &mut [u64], root: u64, weight: u64) -> Request
        requires { desk_end ≤ length memory.old }
        ensures { asked self.new memory.new result ≡ under_tip own_sum self.old memory.old root weight Task.Leave }
    {
        desk::start_row(memory, desk::ROW, weight);
        self.root = root;
        self.survey(memory)
    }

    // The last commit's tree, which weighs so much, is compared to, put in work, or looked into.
    fn under_tip(&mut self, memory: &mut [u64], root: u64, weight: u64) -> Request
        requires { desk_end ≤ length memory.old }
        ensures { asked self.new memory.new result ≡ under_tip own_sum self.old memory.old root weight self.old.task }
    {
        match self.task {
            Task::Status | Task::Note => self.load_old(memory, root),
            Task::Leave => self.put_back(memory, root, weight),
            Task::View => self.load_tree(memory, root),
            _ => Request::Done,
        }
    }

    // The last commit came.
    fn tip_came(&mut self, memory: &mut [u64]) -> Request
        requires { desk_end ≤ length memory.old }
        ensures { asked self.new memory.new result ≡ tip_came own_sum self.old memory.old (commit_read memory.old) }
    {
        let Some(commit) = layouts::read_commit(memory) else {
            return refuse(Refusal::NotKnown);
        };
        self.version.parent = commit.id;
        self.under_tip(memory, commit.tree, commit.tree_weight)
    }

    // A commit of the log is asked for, if there is one more.
    fn log_from(&mut self, reference: u64) -> Request
        ensures { (m : List ℕ) → asked self.new m result ≡ log_from self.old m reference }
    {
        if reference == 0 {
            return Request::Done;
        }
        self.ask(Phase::OpeningLogged, reference)
    }

    // A commit of the log came: its id and its words are shown.
    fn logged(&mut self, memory: &mut [u64]) -> Request
        requires { desk_end ≤ length memory.old }
        ensures { asked self.new memory.new result ≡ logged self.old memory.old (commit_read memory.old) }
    {
        let Some(commit) = layouts::read_commit(memory) else {
            return refuse(Refusal::NotKnown);
        };
        let bytes = commit.bytes.min(65_535);
        desk::put_logged(memory, commit.id, bytes);
        self.phase = Phase::ShowingLogged;
        self.root = commit.one;
        Request::Show { bytes: 32 + bytes }
    }

    // The tree in work is left; where there is no commit, for the empty one.
    fn leave(&mut self, memory: &mut [u64]) -> Request
        requires { desk_end ≤ length memory.old }
        ensures { asked self.new memory.new result ≡ started own_sum self.old memory.old Task.Leave }
    {
        let tip = desk::head_word(memory, 3);
        if tip == 0 {
            let page = desk::head_word(memory, 1);
            return self.publish(memory, page, 0, 0);
        }
        self.ask(Phase::OpeningTip, tip)
    }

    // The last commit is asked for, whose tree is looked into.
    fn look_into(&mut self, memory: &[u64]) -> Request
        requires { desk_end ≤ length memory.now }
        ensures { asked self.new memory.now result ≡ started own_sum self.old memory.now Task.View }
    {
        let tip = desk::head_word(memory, 3);
        if tip == 0 {
            return refuse(Refusal::NotThere);
        }
        self.ask(Phase::OpeningTip, tip)
    }

    fn start(&mut self, memory: &mut [u64]) -> Request
        requires { desk_end ≤ length memory.old }
        ensures { asked self.new memory.new result ≡ started own_sum self.old memory.old self.old.task }
    {
        match self.task {
            Task::Nothing => Request::Done,
            Task::Leave => self.leave(memory),
            Task::Log => self.log_from(desk::head_word(memory, 3)),
            Task::View => self.look_into(memory),
            _ => self.load_tree(memory, desk::head_word(memory, 2)),
        }
    }

    // The sweep asks for something; if not, it has ended, and the task begins anew.
    fn swept(&mut self, request: Option<Request>) -> Request
        ensures { (m : List ℕ) → asked self.new m result ≡ asked_on (sweeping self.old) (again self.old) self.old.sweep m request }
    {
        let Some(request) = request else {
            self.phase = Phase::Recalling;
            return Request::Recall;
        };
        self.phase = Phase::Sweeping;
        request
    }

    // Whether the ring has too little room for what may be laid and one more sweep.
    fn is_tight(&self, memory: &[u64]) -> bool
        requires { desk_end ≤ length memory.now }
        ensures { result ≡ tight self.now.pages memory.now }
    {
        let first = desk::head_word(memory, 0);
        let window = desk::head_word(memory, 1).saturating_sub(first);
        let wanted = room::reserve(self.pages)
            .saturating_mul(2)
            .saturating_add(window);
        self.pages.saturating_sub(1) < wanted
    }

    // Whether a sweep comes before the task.
    fn sweeps_first(&self, memory: &[u64]) -> bool
        requires { desk_end ≤ length memory.now }
        ensures { result ≡ (lays self.now.task && tight self.now.pages memory.now) }
    {
        self.task.lays() && self.is_tight(memory)
    }

    // The head is there.
    fn recalled(&mut self, memory: &mut [u64]) -> Request
        requires { desk_end ≤ length memory.old }
        ensures { asked self.new memory.new result ≡ recalled own_sum self.old (over head_at (take 32 memory.old) memory.old) }
    {
        copy_words(memory, 0, plan::HEAD, 32);
        if self.sweeps_first(memory) {
            let request = self.sweep.begin(memory);
            return self.swept(request);
        }
        self.start(memory)
    }

    fn sweep_on(&mut self, memory: &mut [u64]) -> Request
        requires { desk_end ≤ length memory.old }
        ensures { asked self.new memory.new result ≡ swung (sweeping self.old) (again self.old) (sweep_went_on self.old.sweep memory.old) }
    {
        let request = self.sweep.go_on(memory);
        self.swept(request)
    }

    // The file that is read came: its bytes are shown.
    fn show_file(&mut self, memory: &mut [u64]) -> Request
        requires { desk_end ≤ length memory.old }
        ensures { asked self.new memory.new result ≡ file_came self.old memory.old (file_read memory.old) }
    {
        let Some(bytes) = layouts::read_file(memory) else {
            return refuse(Refusal::NotKnown);
        };
        let bytes = bytes.min(65_535);
        copy_words(memory, 6, 0, bytes.div_ceil(8) as usize);
        self.phase = Phase::Showing;
        Request::Show { bytes }
    }
}

impl Client for Control {
    ghost housed = { control_client own_sum };

    fn load(cells: &[u64; 120]) -> Control {
        let [
            house,
            houses,
            pages,
            task,
            phase,
            bytes,
            page,
            root,
            old,
            new,
            a,
            b,
            c,
            d,
            ..
        ] = *cells;
        let mut sweep = [0; 14];
        sweep.copy_from_slice(&cells[14..28]);
        let mut walk = [0; 9];
        walk.copy_from_slice(&cells[28..37]);
        Control {
            house,
            houses,
            pages,
            task: Task::from(task),
            phase: Phase::from(phase),
            bytes,
            sum: Key { a, b, c, d },
            page,
            root,
            cursor: Cursor {
                old: old as usize,
                new: new as usize,
            },
            version: Version {
                stamp: cells[37],
                parent: Key {
                    a: cells[38],
                    b: cells[39],
                    c: cells[40],
                    d: cells[41],
                },
            },
            sweep: sweep_in(&sweep),
            walk: walk_in(&walk),
        }
    }

    fn save(&self) -> [u64; 120] {
        let mut cells = [0; 120];
        cells[..14].copy_from_slice(&self.own_cells());
        cells[14..28].copy_from_slice(&sweep_cells(&self.sweep));
        cells[28..37].copy_from_slice(&walk_cells(&self.walk));
        cells[37] = self.version.stamp;
        cells[38..42].copy_from_slice(&self.version.parent.words());
        cells
    }

    fn wake(&mut self, house: u64, houses: u64, pages: u64) {
        self.house = house;
        self.houses = houses;
        self.pages = pages;
        self.task = Task::Nothing;
        self.phase = Phase::Resting;
        self.bytes = 0;
        self.sum = NO_SUM;
        self.page = 0;
        self.root = 0;
        self.cursor = Cursor { old: 0, new: 0 };
        self.version = Version {
            stamp: 0,
            parent: NO_SUM,
        };
    }

    fn hear(&mut self, memory: &mut [u64], text: &[u8]) -> Request {
        if memory.len() < desk::END {
            return refuse(Refusal::NotKnown);
        }
        self.take(memory, parse(text))
    }

    fn resume(&mut self, memory: &mut [u64]) -> Request {
        if memory.len() < desk::END {
            return refuse(Refusal::NotKnown);
        }
        match self.phase {
            Phase::Resting => Request::Done,
            Phase::Recalling => self.recalled(memory),
            Phase::Sweeping => self.sweep_on(memory),
            Phase::Loading => {
                desk::spread_row(memory, desk::ROW);
                self.loaded(memory)
            }
            Phase::Surveying => self.survey_on(memory),
            Phase::LayingFile => self.lay_tree(memory, self.page),
            Phase::LayingTree => {
                let tip = desk::head_word(memory, 3);
                self.publish(memory, self.page, self.root, tip)
            }
            Phase::Publishing => self.published(memory),
            Phase::Opening => self.show_file(memory),
            Phase::Showing => Request::Done,
            Phase::Comparing => self.compare(memory),
            Phase::OpeningTip => self.tip_came(memory),
            Phase::LoadingOld => {
                desk::spread_row(memory, desk::OLD_ROW);
                self.against(memory)
            }
            Phase::Summing => self.sum_came(memory),
            Phase::LayingCommit => {
                let root = desk::head_word(memory, 2);
                self.publish(memory, self.page, root, self.root)
            }
            Phase::OpeningLogged => self.logged(memory),
            Phase::ShowingLogged => self.log_from(self.root),
        }
    }
}
