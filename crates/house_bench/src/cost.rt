// What commands took: how often they used the pages, and how long they were at it.
use std::fmt;

// How often the pages were used, and what was shown and done.
#[derive(Clone, Copy, Default)]
pub struct Uses {
    pub done: u64,
    pub reads: u64,
    pub writes: u64,
    pub flushes: u64,
    pub rows: u64,
    pub sweeps: u64,
}

impl Uses {
    fn plus(self, more: Uses) -> Uses {
        Uses {
            done: self.done.saturating_add(more.done),
            reads: self.reads.saturating_add(more.reads),
            writes: self.writes.saturating_add(more.writes),
            flushes: self.flushes.saturating_add(more.flushes),
            rows: self.rows.saturating_add(more.rows),
            sweeps: self.sweeps.saturating_add(more.sweeps),
        }
    }
}

impl fmt::Display for Uses {
    fn fmt<W: fmt::Write>(&self, f: &mut fmt::Formatter<W>) -> fmt::Result {
        let Uses {
            done,
            reads,
            writes,
            flushes,
            rows,
            sweeps,
        } = self;
        write!(
            f,
            "{done} done, {reads} pages read, {writes} pages written, {flushes} flushes, {rows} rows shown, {sweeps} sweeps"
        )
    }
}

// What one command took: its microseconds up to the first write, in flushes, and in all.
#[derive(Clone, Copy, Default)]
pub struct Cost {
    pub uses: Uses,
    pub looking: u64,
    pub flushing: u64,
    pub all: u64,
}

impl Cost {
    fn plus(self, more: Cost) -> Cost {
        Cost {
            uses: self.uses.plus(more.uses),
            looking: self.looking.saturating_add(more.looking),
            flushing: self.flushing.saturating_add(more.flushing),
            all: self.all.saturating_add(more.all),
        }
    }
}

impl fmt::Display for Cost {
    fn fmt<W: fmt::Write>(&self, f: &mut fmt::Formatter<W>) -> fmt::Result {
        let Cost {
            uses: _,
            looking,
            flushing,
            all,
        } = self;
        write!(f, "{all} ({looking} {flushing})")
    }
}

// What several commands of a kind took: the first, the last, and all of them; of all, those with a sweep.
#[derive(Clone, Copy, Default)]
pub struct Tally {
    pub first: Cost,
    pub last: Cost,
    pub all: Cost,
    pub swept: Cost,
    pub count: u64,
}

impl Tally {
    pub fn add(&mut self, cost: Cost) {
        if self.count == 0 {
            self.first = cost;
        }
        self.count = self.count.saturating_add(1);
        self.last = cost;
        self.all = self.all.plus(cost);
        if cost.uses.sweeps != 0 {
            self.swept = self.swept.plus(cost);
        }
    }
}
