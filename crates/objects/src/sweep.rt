// Sweeping: what the head's roots reach is copied behind all else, its references renamed, and the head is published with a window that has the copies only.
ghost use Rattle.std.specs.Prelude.{◌≡◌, ◌+◌, ◌≤◌, length, Some};
ghost use Rattle.objects.specs.Marking.{stride, went_on};
ghost use Rattle.objects.specs.Plan.{plan_end};
ghost use Rattle.objects.specs.Sweeping.{closing, copied, copying, marking, new_head, new_name, publishing, renaming, sweep_begun, sweep_went_on, swing};

use crate::mark::{Walk, references_met, units_in};
use crate::pack::copy_words;
use crate::{mark, pack, plan, ranks};
use pages::machine::Request;
use store::bitmap;

// What is being done.
#[derive(Clone, Copy, Debug, PartialEq, Eq)]
pub enum Stage {
    // Live objects are met.
    Marking,
    // An object to be copied was asked for.
    Copying,
    // Whole pages of copies are laid.
    Laying,
    // The last page is laid.
    Closing,
    // The head is published.
    Publishing,
}

// A sweep's registers.
#[derive(Clone, Copy, Debug, PartialEq, Eq)]
pub struct Sweep {
    pub stage: Stage,
    pub walk: Walk,
    // The unit, from the window's first one, from which objects are still to be copied.
    pub at: u64,
    // The page from which copies are laid, the next one to be laid, and how many words wait for it.
    pub from: u64,
    pub page: u64,
    pub waiting: u64,
}

// As it stands: each method says that memory holds the plan; a struct with the lent row would say of each that the loan stays,
// and an array would be the front of a memory of which the contracts speak as a whole.
impl Sweep {
    // The new name of a reference.
    fn new_name(&self, memory: &[u64], reference: u64) -> u64
        requires { plan_end ≤ length memory.now }
        ensures { result ≡ new_name self.now.walk.first self.now.from memory.now reference }
    {
        if reference > self.walk.first {
            ranks::rank(memory, reference - 1 - self.walk.first)
                .saturating_add(self.from.saturating_mul(8))
                .saturating_add(1)
        } else {
            0
        }
    }

    // Gives references in the buffer their new names.
    fn rename(&self, memory: &mut [u64], at: usize, many: usize)
        requires { (plan_end ≤ length memory.old) × (at + many ≤ 41088) }
        ensures { memory.new ≡ renaming self.now.walk.first self.now.from at many memory.old }
    {
        // As it stands: `new_name` speaks of the whole memory, with the map and its counts, while a reference in it is written.
        for i in at..at + many {
            let reference = memory[i];
            memory[i] = self.new_name(memory, reference);
        }
    }

    // Puts the new head into the buffer.
    fn compose_head(&self, memory: &mut [u64])
        requires { plan_end ≤ length memory.old }
        ensures { memory.new ≡ new_head self.now.walk.first self.now.from self.now.page memory.old }
    {
        copy_words(memory, plan::HEAD, 0, 32);
        memory[0] = self.from;
        memory[1] = self.page;
        self.rename(memory, 2, 8);
    }

    // All is copied and laid: the new head is published.
    fn publish(&mut self, memory: &mut [u64]) -> Request
        requires { plan_end ≤ length memory.old }
        ensures { swing self.new memory.new (Some result) ≡ publishing self.old.walk self.old.at self.old.from self.old.page memory.old }
    {
        self.compose_head(memory);
        self.stage = Stage::Publishing;
        self.waiting = 0;
        Request::Publish
    }

    // All is copied: what still waits is laid.
    fn close(&mut self, memory: &mut [u64]) -> Request
        requires { plan_end ≤ length memory.old }
        ensures { swing self.new memory.new (Some result) ≡ closing self.old.walk self.old.at self.old.from self.old.page self.old.waiting memory.old }
    {
        if self.waiting == 0 {
            return self.publish(memory);
        }
        pack::fill(memory, self.waiting);
        let page = self.page;
        self.stage = Stage::Closing;
        self.page = page.saturating_add(1);
        self.waiting = 0;
        Request::Lay { page, pages: 1 }
    }

    // Asks for the next object to be copied.
    fn copy_next(&mut self, memory: &mut [u64]) -> Request
        requires { plan_end ≤ length memory.old }
        ensures { swing self.new memory.new (Some result) ≡ copying self.old.walk self.old.at self.old.from self.old.page self.old.waiting memory.old }
    {
        let Some(unit) = bitmap::lowest_from(&memory[plan::MAP..plan::COUNTS], self.at) else {
            return self.close(memory);
        };
        self.at = unit;
        self.stage = Stage::Copying;
        Request::Object {
            at: self.walk.first.saturating_add(unit).saturating_mul(8),
            limit: plan::REST as u64,
        }
    }

    // An object came: it is packed behind what waits.
    fn copy(&mut self, memory: &mut [u64]) -> Request
        requires { plan_end ≤ length memory.old }
        ensures { swing self.new memory.new (Some result) ≡ copied self.old memory.old }
    {
        let header = memory[0];
        let units = units_in(header);
        self.rename(memory, 2, references_met(header));
        let pages = pack::pack(memory, self.waiting, 8 * units);
        self.at = self.at.saturating_add(units);
        self.waiting = (self.waiting.min(63) + (8 * units).min(41_024)) % 64;
        if pages == 0 {
            return self.copy_next(memory);
        }
        let page = self.page;
        self.stage = Stage::Laying;
        self.page = page.saturating_add(pages);
        Request::Lay { page, pages }
    }

    // The next live object is met, or, when all are marked, their units are counted, and copying begins.
    fn met(
        &mut self,
        memory: &mut [u64],
        walk: Walk,
        from: u64,
        request: Option<Request>,
    ) -> Request
        requires { plan_end ≤ length memory.old }
        ensures { swing self.new memory.new (Some result) ≡ marking from (stride walk memory.old request) }
    {
        *self = Sweep {
            stage: Stage::Marking,
            walk,
            at: 0,
            from,
            page: from,
            waiting: 0,
        };
        let Some(request) = request else {
            ranks::tally(memory);
            return self.copy_next(memory);
        };
        request
    }

    // A sweep begins, with the head in its place in memory.
    pub fn begin(&mut self, memory: &mut [u64]) -> Option<Request>
        ensures { swing self.new memory.new result ≡ sweep_begun self.old memory.old }
    {
        if memory.len() < plan::END {
            return None;
        }
        let first = memory[plan::HEAD];
        let last = memory[plan::HEAD + 1];
        let mut walk = Walk {
            first: first.saturating_mul(8),
            below: last.saturating_sub(first).saturating_mul(8),
            ..Walk::default()
        };
        let mut roots = [0; 8];
        roots.copy_from_slice(&memory[plan::HEAD + 2..plan::HEAD + 10]);
        mark::mark_roots(memory, walk.first, &roots);
        let request = walk.seek(memory);
        Some(self.met(memory, walk, last, request))
    }

    // An object to be marked came.
    fn meet(&mut self, memory: &mut [u64]) -> Request
        requires { plan_end ≤ length memory.old }
        ensures { swing self.new memory.new (Some result) ≡ marking self.old.from (went_on self.old.walk memory.old) }
    {
        let mut walk = self.walk;
        let request = walk.go_on(memory);
        self.met(memory, walk, self.from, request)
    }

    // What was asked for is done: the sweep goes on; none is asked for when it has ended.
    pub fn go_on(&mut self, memory: &mut [u64]) -> Option<Request>
        ensures { swing self.new memory.new result ≡ sweep_went_on self.old memory.old }
    {
        if memory.len() < plan::END {
            return None;
        }
        match self.stage {
            Stage::Marking => Some(self.meet(memory)),
            Stage::Copying => Some(self.copy(memory)),
            Stage::Laying => Some(self.copy_next(memory)),
            Stage::Closing => Some(self.publish(memory)),
            Stage::Publishing => None,
        }
    }
}
