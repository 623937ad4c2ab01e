// Sweeps and surveys of random objects, with and without stops; and how long those of a large store take.
#![tactic(auto)]

mod bench;
mod keeper;
mod model;
mod random;
mod rig;
mod trial;

use bench::Scale;
use std::alloc::{AllocError, Global};
use std::time::Instant;
use trial::{Counts, Trial};

// So many trials of so many rounds each.
#[derive(Clone, Copy)]
struct Plan {
    trials: u64,
    rounds: u64,
    extremes: u64,
    watched: u64,
    watched_rounds: u64,
    store: Scale,
}

const WHOLE: Plan = Plan {
    trials: 600,
    rounds: 16,
    extremes: 16,
    watched: 60,
    watched_rounds: 4,
    store: Scale {
        files: 4_000,
        commits: 300,
        pages: 131_072,
    },
};

// A few of each, for a run that is slow: any argument asks for it.
const SMALL: Plan = Plan {
    trials: 1,
    rounds: 2,
    extremes: 1,
    watched: 0,
    watched_rounds: 1,
    store: Scale {
        files: 4,
        commits: 2,
        pages: 64,
    },
};

// Random objects; it ends where something is wrong.
fn roam(heap: Global, plan: Plan) -> Result<Counts, AllocError> {
    let mut counts = Counts::default();
    for i in 0..plan.trials {
        let pages = 64 + 29 * (i % 12);
        let mut trial = Trial::new(heap, pages, i.saturating_add(1), counts)?;
        for _ in 0..plan.rounds {
            trial.round(12, 8 * pages)?;
            if trial.went_wrong() {
                return Ok(trial.counts);
            }
        }
        counts = trial.counts;
    }
    for i in 0..plan.extremes {
        let mut trial = Trial::new(heap, 8_192, i.saturating_add(2_000), counts)?;
        trial.extremes()?;
        counts = trial.counts;
    }
    Ok(counts)
}

// Short runs with a stop at every act.
fn stumble(heap: Global, plan: Plan) -> Result<Counts, AllocError> {
    let mut counts = Counts::default();
    for i in 0..plan.watched {
        let mut trial = Trial::new(heap, 64, i.saturating_add(1_000), counts)?;
        trial.watch()?;
        for _ in 0..plan.watched_rounds {
            trial.round(4, 200)?;
            if trial.went_wrong() {
                return Ok(trial.counts);
            }
        }
        trial.sweep()?;
        counts = trial.counts;
    }
    Ok(counts)
}

fn run(rt: &HostRuntime, plan: Plan) -> anyhow::Result<()> {
    let start = Instant::now(rt)?;
    let Counts {
        graphs,
        objects,
        sweeps,
        surveys,
        looks,
        wrong,
        ..
    } = roam(rt.alloc(), plan)?;
    println!(rt;
        "{graphs} graphs, {objects} objects: {sweeps} sweeps, {surveys} surveys, {looks} looks, {wrong} wrong"
    )?;
    let time = start.elapsed(rt)?.as_millis();
    eprintln!(rt; "{time} milliseconds")?;
    let start = Instant::now(rt)?;
    let Counts {
        graphs,
        sweeps,
        stops,
        old,
        new,
        resumed,
        wrong,
        ..
    } = stumble(rt.alloc(), plan)?;
    println!(rt;
        "{graphs} graphs, {sweeps} sweeps: {stops} stops, {old} came up as before, {new} as after, {resumed} were swept then, {wrong} wrong"
    )?;
    let time = start.elapsed(rt)?.as_millis();
    eprintln!(rt; "{time} milliseconds")?;
    let wrong = bench::measure(rt, rt.alloc(), plan.store)?;
    println!(rt; "{wrong} wrong")?;
    Ok(())
}

fn main(rt: HostRuntime) -> anyhow::Result<()> {
    let plan = if std::env::args(&rt)?.count() > 1 {
        SMALL
    } else {
        WHOLE
    };
    run(&rt, plan)
}
