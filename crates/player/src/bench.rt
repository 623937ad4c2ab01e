// Houses that run, beside plain houses that are executed: items of a day are played at both, and their answers compared.
use crate::day::{Item, Setting, Stop, What};
use crate::driver::{Answer, End, MOST_ACTS, Pair, Run, World};
use crate::engine::is_known;
use crate::random::Dice;
use crate::text::spelled;
use commands::{Command, Kind, Refusal, parse};
use device::{Device, Left, outcome};
use pages::bytes::number;
use plain::houses::{House, Past, Plain};
use plain::tree::Tree;
use plain::weight;
use std::alloc::{AllocError, AllocFailed, Global};
use std::collections::BTreeSet;
use std::ops::AddAssign;

// Why an item is not played to its end: no memory, or the houses differ, and how.
#[derive(Drop)]
pub enum Trouble {
    Memory(AllocError),
    Differs(String),
}

impl From<AllocError> for Trouble {
    fn from(error: AllocError) -> Trouble {
        Trouble::Memory(error)
    }
}

impl<T: Drop> From<AllocFailed<T>> for Trouble {
    fn from(error: AllocFailed<T>) -> Trouble {
        Trouble::Memory(AllocError::from(error))
    }
}

// The path of a file that no day names.
const GOING_ON: &[u8] = b"~going on";

// A command that is said at a house, and how many letters its line carries.
#[derive(Clone, Copy)]
struct Saying<'a> {
    house: usize,
    text: &'a [u8],
    letters: u64,
}

impl Saying<'_> {
    // The house that it asks to fetch from, if it does.
    fn fetches_from(&self) -> Option<usize> {
        match self.text.split_first() {
            Some((kind, rest)) if *kind == Kind::Fetch.number() => Some(number(rest) as usize),
            _ => None,
        }
    }

    // The other house of the command: the one fetched from.
    fn peer(&self) -> Option<usize> {
        self.fetches_from().filter(|from| *from != self.house)
    }
}

// What a command is to do; a fetch may also fail for want of a line.
#[derive(Drop)]
struct Expected {
    answer: Answer,
    // As it stands: the answer is due either way, so two variants of an enum would both hold it.
    may_lack_line: bool,
}

// What can be asked of a house before and after a command, with the answers.
#[derive(Drop)]
struct Outlook {
    house: usize,
    queries: Vec<Vec<u8>>,
    old: Vec<Answer>,
    new: Vec<Answer>,
    expected: Expected,
}

// What a house keeps after a stop: all as before the command, or all as after it.
#[derive(Clone, Copy)]
enum Kept {
    Old,
    New,
}

#[derive(Clone, Copy, Default)]
pub struct Counts {
    pub days: u64,
    pub commands: u64,
    pub powers: u64,
    pub stops: u64,
    pub sweeps: u64,
    pub done: u64,
    // by the numbers of the refusals, from 1 on
    pub refused: [u64; 10],
    pub disagreed: u64,
}

fn one_more(n: &mut u64) {
    *n = n.saturating_add(1);
}

impl Counts {
    fn ended(&mut self, end: End) {
        one_more(&mut self.commands);
        match end {
            End::Done => one_more(&mut self.done),
            End::Refused(refusal) => {
                let at = refusal.number() as usize;
                if let Some(n) = self.refused.get_mut(at.saturating_sub(1)) {
                    one_more(n);
                }
            }
            End::Running | End::Fault => {}
        }
    }
}

impl AddAssign for Counts {
    fn add_assign(&mut self, more: Counts) {
        self.days = self.days.saturating_add(more.days);
        self.commands = self.commands.saturating_add(more.commands);
        self.powers = self.powers.saturating_add(more.powers);
        self.stops = self.stops.saturating_add(more.stops);
        self.sweeps = self.sweeps.saturating_add(more.sweeps);
        self.done = self.done.saturating_add(more.done);
        for (n, more) in self.refused.iter_mut().zip(more.refused.iter()) {
            *n = n.saturating_add(*more);
        }
        self.disagreed = self.disagreed.saturating_add(more.disagreed);
    }
}

#[derive(Drop)]
pub struct Bench {
    heap: Global,
    // how many pages each house has
    sizes: Vec<usize>,
    worlds: Vec<World>,
    // for what a stop leaves where it may leave much
    dice: Dice,
    pub plain: Plain,
    counts: Counts,
}

// Things to be asked, each once, in the order in which they came.
#[derive(Drop)]
struct Queries {
    heap: Global,
    seen: BTreeSet<Vec<u8>>,
    all: Vec<Vec<u8>>,
}

impl Queries {
    fn new(heap: Global) -> Queries {
        Queries {
            heap,
            seen: BTreeSet::new(heap),
            all: Vec::new(heap),
        }
    }

    fn add(&mut self, command: Command<'_>) -> Result<(), AllocError> {
        if let Some(text) = spelled(self.heap, command)? {
            if self.seen.insert(text.clone()?)? {
                self.all.push(text)?;
            }
        }
        Ok(())
    }

    // All that can be asked of a house: status, history, and of each path what it holds in work and at every name, and from whom.
    fn add_all(&mut self, plain: &Plain, c: usize) -> Result<(), AllocError> {
        self.add(Command::Status)?;
        self.add(Command::History)?;
        let Some(x) = plain.houses.get(c) else {
            return Ok(());
        };
        let names = x.all_refs()?;
        for path in paths_of(plain, x)?.iter() {
            self.add(Command::ReadFile(path))?;
            self.add(Command::Who(path))?;
            for (name, _) in names.iter() {
                self.add(Command::ShowFile(name, path))?;
            }
        }
        Ok(())
    }
}

impl Queries {
    // Adds a command that has been added before, too.
    fn say(&mut self, command: Command<'_>) -> Result<(), AllocError> {
        if let Some(text) = spelled(self.heap, command)? {
            self.all.push(text)?;
        }
        Ok(())
    }

    // All is asked again after the house went on: a file more is written over until a house of 64 pages has swept, and taken out.
    fn go_on(&mut self) -> Result<(), AllocError> {
        let asked = self.all.clone()?;
        for i in 0..12u8 {
            self.say(Command::WriteFile(GOING_ON, &[i]))?;
        }
        self.say(Command::DropFile(GOING_ON))?;
        for text in asked.iter() {
            self.all.push(text.clone()?)?;
        }
        Ok(())
    }
}

// Adds the paths that are not there yet.
fn add_paths<'a>(paths: &mut Vec<&'a [u8]>, tree: &'a Tree) -> Result<(), AllocError> {
    for path in tree.files.keys() {
        if !paths.contains(&path.as_slice()) {
            paths.push(path.as_slice())?;
        }
    }
    Ok(())
}

// The paths in work and at every name.
fn paths_of<'a>(plain: &'a Plain, x: &'a House) -> Result<Vec<&'a [u8]>, AllocError> {
    let mut paths = Vec::new(plain.heap);
    add_paths(&mut paths, &x.work)?;
    for (_, to) in x.all_refs()?.iter() {
        if let Some(tree) = plain.book.tree(Some(*to)) {
            add_paths(&mut paths, tree)?;
        }
    }
    Ok(paths)
}

impl Bench {
    pub fn new(heap: Global, setting: &Setting) -> Result<Bench, AllocError> {
        let mut sizes = Vec::new(heap);
        let mut worlds = Vec::new(heap);
        for c in 0..setting.houses {
            let pages = setting.pages_of(c);
            sizes.push(pages)?;
            worlds.push(World::new(heap, pages)?)?;
        }
        Ok(Bench {
            heap,
            sizes,
            worlds,
            dice: Dice::new(heap, 1),
            plain: Plain::new(heap, setting.houses)?,
            counts: Counts::default(),
        })
    }

    // The counts of the one day that was played, on which the houses agreed or not.
    pub fn counted(&self, agreed: bool) -> Counts {
        let mut counts = self.counts;
        counts.days = 1;
        counts.disagreed = u64::from(!agreed);
        for world in self.worlds.iter() {
            counts.sweeps = counts.sweeps.saturating_add(world.sweeps);
        }
        counts
    }

    fn size(&self, c: usize) -> usize {
        self.sizes.get(c).copied().unwrap_or(0)
    }

    pub fn is_up(&self, c: usize) -> bool {
        self.worlds.get(c).is_some_and(|world| world.is_up())
    }

    // Takes a house out of the row, and leaves one without power or pages.
    fn take(&mut self, c: usize) -> Result<World, AllocError> {
        let mut world = World::new(self.heap, 0)?;
        if let Some(place) = self.worlds.get_mut(c) {
            std::mem::swap(place, &mut world);
        }
        Ok(world)
    }

    fn put(&mut self, c: usize, world: World) {
        if let Some(place) = self.worlds.get_mut(c) {
            *place = world;
        }
    }

    // Acts of a run at a house, and at the one that it may write to.
    fn at_pair<F: FnOnce(&mut Bench, &mut Pair) -> Result<(), Trouble>>(
        &mut self,
        c: usize,
        peer: Option<usize>,
        acts: F,
    ) -> Result<(), Trouble>
        requires { F.IsAlwaysCallable acts }
    {
        let here = self.take(c)?;
        let there = match peer {
            Some(d) => Some((d, self.take(d)?)),
            None => None,
        };
        let mut pair = Pair { here, there };
        let done = acts(self, &mut pair);
        let Pair { here, there } = pair;
        self.put(c, here);
        if let Some((d, world)) = there {
            self.put(d, world);
        }
        done
    }

    fn undo(&mut self, past: Option<Past>) {
        if let Some(before) = past {
            self.plain.undo(before);
        }
    }

    fn weight(&self, c: usize) -> Result<u64, AllocError> {
        match self.plain.houses.get(c) {
            Some(x) => weight::of_house(&self.plain.book, x),
            None => Ok(0),
        }
    }

    // How much may be kept: a quarter of what the pages hold.
    fn most(&self, c: usize) -> u64 {
        (self.size(c) as u64).saturating_mul(128)
    }

    // How much more may be kept.
    pub fn room(&self, c: usize) -> Result<u64, AllocError> {
        Ok(self.most(c).saturating_sub(self.weight(c)?))
    }

    // What the house answered, and what the plain house does.
    fn beside(&self, what: &str, house: &Answer, plain: &Answer) -> Result<String, AllocError> {
        format!(in self.heap; "{what}: the house {house}, the plain house {plain}")
    }

    // An error that says so, unless the answers are the same.
    fn same(&self, what: &str, house: &Answer, plain: &Answer) -> Result<(), Trouble> {
        if house == plain {
            return Ok(());
        }
        Err(Trouble::Differs(self.beside(what, house, plain)?))
    }

    // The first place where answers differ.
    fn first_trouble(
        &self,
        what: &str,
        got: &[Answer],
        wanted: &[Answer],
    ) -> Result<String, AllocError> {
        match got.iter().zip(wanted).find(|(a, b)| a != b) {
            Some((a, b)) => self.beside(what, a, b),
            None => String::from_str(self.heap, what),
        }
    }

    fn bare(&self, end: End) -> Answer {
        Answer::bare(self.heap, end)
    }

    fn refused(&self, refusal: Refusal) -> Answer {
        self.bare(End::Refused(refusal))
    }

    // What a known command does at the plain house, which is changed; no room just where more is to be kept than a quarter of the pages hold.
    fn turn(&mut self, c: usize, command: Command<'_>) -> Result<Answer, AllocError> {
        let before = self.weight(c)?;
        let past = self.plain.past(c)?;
        match self.plain.turn(c, command)? {
            Ok(shown) => {
                let after = self.weight(c)?;
                if after > before && after > self.most(c) {
                    self.undo(past);
                    return Ok(self.refused(Refusal::NoRoom));
                }
                Ok(Answer {
                    end: End::Done,
                    rows: shown.rows,
                })
            }
            Err(refusal) => Ok(self.refused(refusal)),
        }
    }

    // Whether the other house has no power, or the line may carry too few letters.
    fn may_lack_line(&self, said: Saying<'_>) -> Result<bool, AllocError> {
        let Some(from) = said.fetches_from() else {
            return Ok(false);
        };
        Ok(!self.is_up(from) || said.letters < weight::letters(&self.plain, said.house, from)?)
    }

    fn right_answer(&mut self, c: usize, text: &[u8]) -> Result<Answer, AllocError> {
        match parse(text) {
            None => Ok(self.refused(Refusal::NoCommand)),
            Some(command) if is_known(command.kind()) => self.turn(c, command),
            Some(_) => Ok(self.refused(Refusal::NotKnown)),
        }
    }

    // What is to come of a command; the plain house is changed.
    fn expect(&mut self, said: Saying<'_>) -> Result<Expected, AllocError> {
        let may_lack_line = self.may_lack_line(said)?;
        let answer = self.right_answer(said.house, said.text)?;
        let ends_so = matches!(answer.end, End::Done | End::Refused(Refusal::NoRoom));
        Ok(Expected {
            may_lack_line: may_lack_line && ends_so,
            answer,
        })
    }

    // What the plain house answers to queries. It is left as it was.
    fn plain_answers(&mut self, c: usize, queries: &[Vec<u8>]) -> Result<Vec<Answer>, AllocError> {
        let past = self.plain.past(c)?;
        let mut all = vec![in self.heap; self.bare(End::Done)]?;
        for text in queries {
            all.push(self.right_answer(c, text.as_slice())?)?;
        }
        self.undo(past);
        Ok(all)
    }

    fn power_run(&self, c: usize) -> Result<Run, AllocError> {
        Run::power(self.heap, c, self.worlds.len(), self.size(c))
    }

    // What a house that has power answers to queries, up to one that does not end.
    fn house_answers(
        &self,
        alone: &mut Pair,
        power: Answer,
        queries: &[Vec<u8>],
    ) -> Result<Vec<Answer>, AllocError> {
        let mut all = vec![in self.heap; power]?;
        for text in queries {
            let mut run = Run::command(self.heap, text.as_slice(), 0)?;
            run.drive(alone, MOST_ACTS)?;
            all.push(run.answer()?)?;
            if run.end == End::Running {
                break;
            }
        }
        Ok(all)
    }

    // What can be asked before and after a command. The plain house is left as it was before.
    fn outlook(&mut self, said: Saying<'_>) -> Result<Outlook, AllocError> {
        let c = said.house;
        let mut queries = Queries::new(self.heap);
        queries.add_all(&self.plain, c)?;
        let past = self.plain.past(c)?;
        let expected = self.expect(said)?;
        queries.add_all(&self.plain, c)?;
        queries.go_on()?;
        let new = self.plain_answers(c, queries.all.as_slice())?;
        self.undo(past);
        let old = self.plain_answers(c, queries.all.as_slice())?;
        Ok(Outlook {
            house: c,
            queries: queries.all,
            old,
            new,
            expected,
        })
    }

    // What can be asked before and after power comes: nothing changes.
    fn outlook_of_power(&mut self, c: usize) -> Result<Outlook, AllocError> {
        let mut queries = Queries::new(self.heap);
        queries.add_all(&self.plain, c)?;
        queries.go_on()?;
        let old = self.plain_answers(c, queries.all.as_slice())?;
        Ok(Outlook {
            house: c,
            queries: queries.all,
            new: old.clone()?,
            old,
            expected: Expected {
                answer: self.bare(End::Done),
                may_lack_line: false,
            },
        })
    }

    // Power comes to a house.
    fn power(&mut self, c: usize) -> Result<(), Trouble> {
        let heap = self.heap;
        let mut run = self.power_run(c)?;
        self.at_pair(c, None, |_, pair| {
            pair.here.wake(heap)?;
            run.drive(pair, MOST_ACTS)?;
            Ok(())
        })?;
        one_more(&mut self.counts.powers);
        self.same("power", &run.answer()?, &self.bare(End::Done))
    }

    // Power stops while it comes: what is kept then is as before.
    fn power_stops(&mut self, c: usize, stop: &Stop) -> Result<(), Trouble> {
        let heap = self.heap;
        let outlook = self.outlook_of_power(c)?;
        let mut run = self.power_run(c)?;
        self.at_pair(c, None, |bench, pair| {
            pair.here.wake(heap)?;
            bench.stopped(&mut run, pair, stop, &outlook)?;
            Ok(())
        })
    }

    // Power comes to a house, and before it every stop in that.
    fn power_with_stops(&mut self, c: usize) -> Result<(), Trouble> {
        let heap = self.heap;
        let outlook = self.outlook_of_power(c)?;
        let mut run = self.power_run(c)?;
        self.at_pair(c, None, |bench, pair| {
            pair.here.wake(heap)?;
            bench.stopped_everywhere(&mut run, pair, &outlook)
        })?;
        one_more(&mut self.counts.powers);
        self.same("power", &run.answer()?, &self.bare(End::Done))
    }

    // A whole command.
    fn whole(&mut self, said: Saying<'_>) -> Result<(), Trouble> {
        let mut run = Run::command(self.heap, said.text, said.letters)?;
        self.at_pair(said.house, said.peer(), |_, pair| {
            run.drive(pair, MOST_ACTS)?;
            Ok(())
        })?;
        self.compare(said, &run.answer()?)
    }

    // An answer beside what the plain house does, which is changed; where the line fell short, nothing has changed.
    fn compare(&mut self, said: Saying<'_>, got: &Answer) -> Result<(), Trouble> {
        self.counts.ended(got.end);
        let past = self.plain.past(said.house)?;
        let expected = self.expect(said)?;
        if expected.may_lack_line && *got == self.refused(Refusal::NoLine) {
            self.undo(past);
            return Ok(());
        }
        self.same("command", got, &expected.answer)
    }

    // A command in which power stops: what is kept then is as before or as after it, and as after it if it had ended.
    fn stops(&mut self, said: Saying<'_>, stop: &Stop) -> Result<(), Trouble> {
        let outlook = self.outlook(said)?;
        let mut run = Run::command(self.heap, said.text, said.letters)?;
        let mut kept = Kept::Old;
        self.at_pair(said.house, said.peer(), |bench, pair| {
            kept = bench.stopped(&mut run, pair, stop, &outlook)?;
            Ok(())
        })?;
        if let Kept::New = kept {
            self.right_answer(said.house, said.text)?;
        }
        Ok(())
    }

    // A run up to a stop, and what the house keeps then.
    fn stopped(
        &mut self,
        run: &mut Run,
        pair: &mut Pair,
        stop: &Stop,
        outlook: &Outlook,
    ) -> Result<Kept, Trouble> {
        run.drive(pair, stop.acts)?;
        pair.here.stop(stop.left.as_slice());
        self.kept(pair.here.device.copied()?, outlook, &run.answer()?)
    }

    // What a house keeps that starts on what a stop left in a command that stood so. After each act of the power that comes to it by which the pages
    // change there is one more stop, which has to leave as much.
    fn kept(&mut self, device: Device, outlook: &Outlook, stood: &Answer) -> Result<Kept, Trouble> {
        one_more(&mut self.counts.stops);
        let mut alone = Pair::alone(self.heap, device)?;
        let mut run = self.power_run(outlook.house)?;
        for _ in 0..MOST_ACTS {
            run.drive_on(&mut alone)?;
            if run.end != End::Running {
                break;
            }
            self.each_left(&alone.here.device, |bench, left| {
                bench.kept_again(left, outlook, stood)
            })?;
        }
        self.judged(&mut alone, run.answer()?, outlook, stood)
    }

    // The same after the second of two stops.
    fn kept_again(
        &mut self,
        device: Device,
        outlook: &Outlook,
        stood: &Answer,
    ) -> Result<(), Trouble> {
        one_more(&mut self.counts.stops);
        let mut alone = Pair::alone(self.heap, device)?;
        let mut run = self.power_run(outlook.house)?;
        run.drive(&mut alone, MOST_ACTS)?;
        self.judged(&mut alone, run.answer()?, outlook, stood)?;
        Ok(())
    }

    // Whether a house to which power came so keeps what it may.
    fn judged(
        &self,
        alone: &mut Pair,
        power: Answer,
        outlook: &Outlook,
        stood: &Answer,
    ) -> Result<Kept, Trouble> {
        let got = self.house_answers(alone, power, outlook.queries.as_slice())?;
        let runs = stood.end == End::Running;
        let lacked = stood.end == End::Refused(Refusal::NoLine) && outlook.expected.may_lack_line;
        if !runs && !lacked {
            self.same("before a stop", stood, &outlook.expected.answer)?;
        }
        let may_be_old = runs || lacked;
        if may_be_old && got == outlook.old {
            return Ok(Kept::Old);
        }
        if !lacked && got == outlook.new {
            return Ok(Kept::New);
        }
        let mut text = self.first_trouble(
            "after a stop, held to after the command",
            got.as_slice(),
            outlook.new.as_slice(),
        )?;
        if may_be_old {
            text.push_str("; ")?;
            let old = self.first_trouble(
                "held to before it",
                got.as_slice(),
                outlook.old.as_slice(),
            )?;
            text.push_str(old.as_str())?;
        }
        Err(Trouble::Differs(text))
    }

    // Plays one item.
    pub fn play(&mut self, item: &Item) -> Result<(), Trouble> {
        let house = item.house;
        match (&item.what, &item.stop) {
            (What::Power, None) => self.power(house),
            (What::Power, Some(stop)) => self.power_stops(house, stop),
            (What::Said(text, letters), stop) => {
                let said = Saying {
                    house,
                    text: text.as_slice(),
                    letters: *letters,
                };
                match stop {
                    None => self.whole(said),
                    Some(stop) => self.stops(said, stop),
                }
            }
        }
    }

    // Plays one item; power or a command in which no stop is said with every stop.
    pub fn play_with_stops(&mut self, item: &Item) -> Result<(), Trouble> {
        match (&item.what, &item.stop) {
            (What::Said(text, letters), None) => self.every_stop(Saying {
                house: item.house,
                text: text.as_slice(),
                letters: *letters,
            }),
            (What::Power, None) => self.power_with_stops(item.house),
            _ => self.play(item),
        }
    }

    // Whether power can come to the house now, or a command be said there.
    pub fn is_proper(&self, item: &Item) -> bool {
        let up = self.is_up(item.house);
        match &item.what {
            What::Power => !up && item.house < self.worlds.len(),
            What::Said(..) => up,
        }
    }

    // A whole command, and before it every stop in it.
    fn every_stop(&mut self, said: Saying<'_>) -> Result<(), Trouble> {
        let outlook = self.outlook(said)?;
        let mut run = Run::command(self.heap, said.text, said.letters)?;
        self.at_pair(said.house, said.peer(), |bench, pair| {
            bench.stopped_everywhere(&mut run, pair, &outlook)
        })?;
        self.compare(said, &run.answer()?)
    }

    // A run to its end, with a stop at the start, after each act that changed the pages, and at the end. After an act that did not, what is left is
    // what the stop before it left.
    fn stopped_everywhere(
        &mut self,
        run: &mut Run,
        pair: &mut Pair,
        outlook: &Outlook,
    ) -> Result<(), Trouble> {
        for _ in 0..MOST_ACTS {
            let stood = run.answer()?;
            self.each_left(&pair.here.device, |bench, left| {
                bench.kept(left, outlook, &stood)?;
                Ok(())
            })?;
            if run.end != End::Running {
                break;
            }
            run.drive_on(pair)?;
        }
        Ok(())
    }

    // All, or some, of what a stop may leave of the waiting writes.
    fn each_left<F: FnMut(&mut Bench, Device) -> Result<(), Trouble>>(
        &mut self,
        device: &Device,
        mut see: F,
    ) -> Result<(), Trouble>
        requires { F.IsAlwaysCallable see }
    {
        let waiting = device.waiting();
        for i in 0..outcomes(waiting) {
            let left = self.outcome(waiting, i)?;
            let mut copy = device.copied()?;
            copy.stop(left.as_slice());
            see(self, copy)?;
        }
        Ok(())
    }

    // What is left of each waiting write: the digits of a number to the base 3; where there are many, the first three outcomes are all alike.
    fn outcome(&mut self, waiting: usize, i: u64) -> Result<Vec<Left>, AllocError> {
        if waiting <= 5 {
            return outcome(self.heap, i, waiting);
        }
        let mut left = Vec::new(self.heap);
        let mut dice = Dice::new(self.heap, self.dice.next());
        for _ in 0..waiting {
            let digit = if i < 3 { i } else { dice.below(3) };
            left.push(Left::from(digit))?;
        }
        Ok(left)
    }
}

// How many outcomes are tried: all where there are up to 5 waiting writes.
fn outcomes(waiting: usize) -> u64 {
    [1, 3, 9, 27, 81, 243].get(waiting).copied().unwrap_or(100)
}
