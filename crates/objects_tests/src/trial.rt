// Random objects are laid and published, swept, and surveyed, beside an ordinary copy.
use crate::model::Model;
use crate::random::Random;
use crate::rig::{Command, Rig, head};
use device::{Left, outcome};
use pages::machine::BUFFER;
use pages::told::Told;
use std::alloc::{AllocError, Global};

// The words that one request lays at most.
const MOST: u64 = BUFFER as u64;

// What was done and seen.
#[derive(Clone, Copy, Default)]
pub struct Counts {
    pub graphs: u64,
    pub objects: u64,
    pub sweeps: u64,
    pub surveys: u64,
    pub looks: u64,
    pub stops: u64,
    pub old: u64,
    pub new: u64,
    pub resumed: u64,
    pub wrong: u64,
}

fn up(count: &mut u64) {
    *count = count.saturating_add(1);
}

impl Counts {
    fn expect(&mut self, right: bool) {
        if !right {
            up(&mut self.wrong);
        }
    }
}

// A survey for a key that differs in one word.
fn nearly(command: Command, i: u64) -> Command {
    let Command::Survey { kind, mut key } = command else {
        return command;
    };
    if let Some(word) = key.get_mut(i as usize) {
        *word ^= 1;
    }
    Command::Survey { kind, key }
}

#[derive(Drop)]
pub struct Trial {
    heap: Global,
    pub rig: Rig,
    pub model: Model,
    random: Random,
    pages: u64,
    // The head as published last, and the numbers of its roots, now and after the command that is under way.
    head: [u64; 32],
    roots: [u64; 8],
    wanted: [u64; 8],
    // A second rig for what comes after a stop, where each act of a command is tried with one.
    spare: Option<Rig>,
    pub counts: Counts,
}

impl Trial {
    pub fn new(heap: Global, pages: u64, seed: u64, counts: Counts) -> Result<Trial, AllocError> {
        Ok(Trial {
            heap,
            rig: Rig::new(heap, pages)?,
            model: Model::new(heap),
            random: Random::seeded(seed),
            pages,
            head: [0; 32],
            roots: [0; 8],
            wanted: [0; 8],
            spare: None,
            counts,
        })
    }

    pub fn watch(&mut self) -> Result<(), AllocError> {
        self.spare = Some(Rig::new(self.heap, self.pages)?);
        Ok(())
    }

    pub fn went_wrong(&self) -> bool {
        self.counts.wrong > 0
    }

    pub fn number(&mut self) -> u64 {
        self.random.next()
    }

    // COMMANDS

    pub fn run(&mut self, command: Command) -> Result<(), AllocError> {
        let done = match self.spare.take() {
            Some(mut spare) => {
                let done = self.run_watched(&mut spare, command)?;
                self.spare = Some(spare);
                done
            }
            None => self.rig.run(command)?,
        };
        self.counts.expect(done);
        Ok(())
    }

    fn run_watched(&mut self, spare: &mut Rig, command: Command) -> Result<bool, AllocError> {
        let before = head(&self.rig.device);
        let mut told = self.rig.say(command);
        for _ in 0..2_000u64 {
            self.try_stops(spare, before)?;
            if told == Told::Done {
                return Ok(true);
            }
            told = self.rig.act(told)?;
        }
        Ok(false)
    }

    // Every outcome of a stop now, if few writes wait, or some.
    fn try_stops(&mut self, spare: &mut Rig, before: [u64; 32]) -> Result<(), AllocError> {
        let waiting = self.rig.device.waiting();
        if waiting > 4 {
            for _ in 0..12 {
                let left = self.some_outcome(waiting)?;
                self.try_stop(spare, &left, before)?;
            }
        } else {
            for number in 0..3u64.saturating_pow(waiting as u32) {
                let left = outcome(self.heap, number, waiting)?;
                self.try_stop(spare, &left, before)?;
            }
        }
        Ok(())
    }

    fn try_stop(
        &mut self,
        spare: &mut Rig,
        left: &[Left],
        before: [u64; 32],
    ) -> Result<(), AllocError> {
        spare.device = self.rig.device.copied()?;
        spare.device.stop(left);
        self.come_up(spare, before)
    }

    // An outcome at random.
    fn some_outcome(&mut self, waiting: usize) -> Result<Vec<Left>, AllocError> {
        let mut left = Vec::new(self.heap);
        for _ in 0..waiting {
            left.push(Left::from(self.random.below(3)))?;
        }
        Ok(left)
    }

    // After a stop all is as before or as after the command, as the head says.
    fn come_up(&mut self, spare: &mut Rig, before: [u64; 32]) -> Result<(), AllocError> {
        up(&mut self.counts.stops);
        let head = head(&spare.device);
        let roots = if head == before {
            up(&mut self.counts.old);
            self.roots
        } else {
            up(&mut self.counts.new);
            self.wanted
        };
        let right = self.model.matches(&spare.device, &head, roots);
        self.counts.expect(right);
        if self.random.once_in(16) {
            self.sweep_again(spare, roots)?;
        }
        Ok(())
    }

    // A sweep after a stop.
    fn sweep_again(&mut self, spare: &mut Rig, roots: [u64; 8]) -> Result<(), AllocError> {
        up(&mut self.counts.resumed);
        spare.power();
        let done = spare.run(Command::Sweep)?;
        let head = head(&spare.device);
        self.model.reach(roots);
        let pages = self.model.live_pages();
        let right = self.model.matches(&spare.device, &head, roots);
        self.counts
            .expect(done && right && head[1] == head[0].saturating_add(pages));
        Ok(())
    }

    // OBJECTS

    // A number of something live below a number, or 0.
    fn some_live(&mut self, below: u64) -> u64 {
        for _ in 0..6 {
            let number = self.random.below(below);
            if self.model.is_live(number) {
                return number;
            }
        }
        0
    }

    // A new object, with references to what is live.
    fn invent(&mut self, largest: u64) -> Result<(), AllocError> {
        let kind = 1 + self.random.below(3);
        let kind = if self.random.once_in(4) { 4 } else { kind };
        let references = match kind {
            1 => 0,
            2 => self.random.below(40),
            3 => 3,
            _ => 2,
        };
        let most = if self.random.once_in(8) { largest } else { 40 };
        let data = 4 + self.random.below(most.min(40_000));
        let weight = if self.random.once_in(2_000) {
            u64::MAX
        } else {
            self.random.next() >> 30
        };
        self.make(kind, references, 0, data, weight)?;
        Ok(())
    }

    // A new object of so many references, to what is live and in the end, if it isn't 0, to `last`, and so many words behind them: its number.
    fn make(
        &mut self,
        kind: u64,
        references: u64,
        last: u64,
        words: u64,
        weight: u64,
    ) -> Result<u64, AllocError> {
        let size = references.saturating_add(words).saturating_add(2);
        let number = self.model.start(kind, references, size, weight)?;
        for i in 0..references {
            let named = if last > 0 && references - i == 1 {
                last
            } else {
                self.some_live(number)
            };
            self.model.push(named)?;
        }
        for _ in 0..words {
            let word = self.random.next();
            self.model.push(word)?;
        }
        self.model.revive(number);
        up(&mut self.counts.objects);
        Ok(number)
    }

    // Roots of which some are new and some dropped.
    fn choose_roots(&mut self) -> [u64; 8] {
        let mut roots = self.roots;
        let end = self.model.end();
        for root in roots.iter_mut() {
            match self.random.below(5) {
                0 => *root = 0,
                1 | 2 => *root = self.some_live(end),
                _ => {}
            }
        }
        roots
    }

    fn drop_roots(&mut self) -> [u64; 8] {
        let mut roots = self.roots;
        for root in roots.iter_mut() {
            if self.random.once_in(2) {
                *root = 0;
            }
        }
        roots
    }

    // LAYING

    // Lays the objects from a number on, packed unit by unit, behind the window: the page behind them.
    pub fn lay(&mut self, from: u64) -> Result<u64, AllocError> {
        let mut page = self.head[1];
        let mut words = 0u64;
        for number in from..self.model.end() {
            let more = self.model.units(number).saturating_mul(8);
            if words.saturating_add(more) > MOST {
                page = self.lay_buffer(page, words)?;
                words = 0;
            }
            let unit = page.saturating_mul(8).saturating_add(words / 8);
            self.model.call(number, unit.saturating_add(1));
            self.rig.poke(words as usize, &self.model.stored(number)?);
            words = words.saturating_add(more);
        }
        if words > 0 {
            page = self.lay_buffer(page, words)?;
        }
        Ok(page)
    }

    fn lay_buffer(&mut self, page: u64, words: u64) -> Result<u64, AllocError> {
        let pages = words.saturating_add(63) / 64;
        self.run(Command::Lay { page, pages })?;
        Ok(page.saturating_add(pages))
    }

    // Publishes a head with these roots and a window that ends at a page.
    pub fn publish(&mut self, last: u64, roots: [u64; 8]) -> Result<(), AllocError> {
        self.head[1] = last;
        for (name, root) in self.head[2..10].iter_mut().zip(roots) {
            *name = self.model.name(root);
        }
        for word in self.head[10..32].iter_mut() {
            *word = self.random.next();
        }
        self.rig.poke(0, &self.head);
        self.wanted = roots;
        self.run(Command::Publish)?;
        self.roots = roots;
        up(&mut self.counts.graphs);
        Ok(())
    }

    // Whether the ring holds the window, what lies from a number on, and then one more copy of what is live.
    fn has_room(&mut self, from: u64, roots: [u64; 8]) -> bool {
        let window = self.head[1].saturating_sub(self.head[0]);
        let new = self.model.pages_from(from);
        self.model.reach(roots);
        let copy = self.model.live_pages();
        window.saturating_add(new).saturating_add(copy) < self.pages
    }

    // CHECKS

    pub fn is_right(&mut self) -> bool {
        let head = head(&self.rig.device);
        self.model.matches(&self.rig.device, &head, self.roots)
    }

    pub fn sweep(&mut self) -> Result<(), AllocError> {
        self.wanted = self.roots;
        self.run(Command::Sweep)?;
        self.check_swept();
        Ok(())
    }

    // What a sweep leaves: a window behind the old one, with copies of what is live only; all else of the head stays.
    pub fn check_swept(&mut self) {
        let head = head(&self.rig.device);
        self.model.reach(self.roots);
        let pages = self.model.live_pages();
        let right = head[0] == self.head[1]
            && head[1] == head[0].saturating_add(pages)
            && head[10..32] == self.head[10..32]
            && self.is_right();
        self.counts.expect(right);
        self.model.adopt();
        self.head = head;
        up(&mut self.counts.sweeps);
    }

    // The survey that looks for an object's key, under its own kind or another one.
    pub fn survey_for(&self, number: u64, kind: u64) -> Command {
        let behind = self.model.references(number).saturating_add(2);
        let key = [0, 1, 2, 3].map(|i| self.model.word(number, behind.saturating_add(i)));
        Command::Survey { kind, key }
    }

    // What it shows: the weight of all that is live, and the object's name if it is live and of that kind.
    pub fn check_shown(&mut self, number: u64, kind: u64) {
        self.model.reach(self.roots);
        let there = self.model.is_live(number) && self.model.kind(number) == kind;
        let found = if there { self.model.name(number) } else { 0 };
        let right = self.rig.shown == [self.model.live_weight(), found];
        self.counts.expect(right);
        up(&mut self.counts.surveys);
    }

    fn survey(&mut self, number: u64, kind: u64) -> Result<(), AllocError> {
        self.wanted = self.roots;
        let command = self.survey_for(number, kind);
        self.run(command)?;
        self.check_shown(number, kind);
        Ok(())
    }

    // A survey that looks for nearly an object's key finds nothing.
    fn survey_near(&mut self, number: u64, kind: u64) -> Result<(), AllocError> {
        self.wanted = self.roots;
        let i = self.random.below(4);
        let command = nearly(self.survey_for(number, kind), i);
        self.run(command)?;
        self.check_shown(number, 0);
        Ok(())
    }

    fn survey_something(&mut self) -> Result<(), AllocError> {
        let last = self.model.end().saturating_sub(1);
        let number = self.random.below(last).saturating_add(1);
        let kind = self.model.kind(number);
        if kind == 1 || kind == 3 {
            let other = 4u64.saturating_sub(kind);
            return match self.random.below(4) {
                0 => self.survey(number, other),
                1 => self.survey_near(number, kind),
                _ => self.survey(number, kind),
            };
        }
        self.survey(number, 0)
    }

    // Asks for an object, and compares what comes.
    fn look(&mut self) -> Result<(), AllocError> {
        self.model.reach(self.roots);
        let end = self.model.end();
        let number = self.some_live(end);
        if number == 0 {
            return Ok(());
        }
        let at = self.model.name(number).saturating_sub(1).saturating_mul(8);
        self.run(Command::Object { at, limit: MOST })?;
        for (seen, word) in self.rig.peek(0).iter().zip(&self.model.stored(number)?) {
            self.counts.expect(seen == word);
        }
        up(&mut self.counts.looks);
        Ok(())
    }

    // A round: new objects under new roots, after a sweep if the ring would run short; then checks at random.
    pub fn round(&mut self, many: u64, largest: u64) -> Result<(), AllocError> {
        if self.random.once_in(4) {
            self.rig.power();
        }
        self.model.reach(self.roots);
        let from = self.model.end();
        for _ in 0..1u64.saturating_add(self.random.below(many)) {
            self.invent(largest)?;
        }
        let roots = self.choose_roots();
        if !self.has_room(from, roots) {
            self.sweep()?;
        }
        if self.has_room(from, roots) {
            self.wanted = self.roots;
            let last = self.lay(from)?;
            self.publish(last, roots)?;
        } else {
            let roots = self.drop_roots();
            let last = self.head[1];
            self.publish(last, roots)?;
        }
        self.check()
    }

    // The largest objects that there may be, behind others, on a device with room for some copies of them.
    pub fn extremes(&mut self) -> Result<(), AllocError> {
        let from = self.model.end();
        let only = self.make(1, 0, 0, 10, 1)?;
        // So that nothing else refers to it.
        self.model.reach(self.roots);
        for _ in 0..1u64.saturating_add(self.random.below(12)) {
            self.invent(64)?;
        }
        let one = self.make(2, 4_096, only, 36_926, 1)?;
        self.invent(64)?;
        let two = self.make(1, 0, 0, 41_022, 1)?;
        let last = self.lay(from)?;
        self.publish(last, [one, 0, two, 0, 0, 0, 0, one])?;
        self.sweep()?;
        self.survey(two, 1)?;
        self.sweep()
    }

    fn check(&mut self) -> Result<(), AllocError> {
        if self.random.once_in(2) {
            self.survey_something()?;
        }
        if self.random.once_in(3) {
            let right = self.is_right();
            self.counts.expect(right);
            self.look()?;
        }
        if self.random.once_in(3) {
            self.sweep()?;
        }
        Ok(())
    }
}
