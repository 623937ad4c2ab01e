// A house beside an ordinary map and a list of commits: a morning with true ids, houses full to the last byte of files and of commits, as many files as
// there may be, and stops at every act.
#![tactic(auto)]

mod answer;
mod day;
mod many;
mod model;
mod morning;
mod random;
mod rig;
mod trial;

use std::alloc::{AllocError, Global};
use std::time::Instant;
use trial::{Counts, Trial};

const PAGES: u64 = 64;

// So many paths, from short to long.
fn paths(heap: Global, many: u8) -> Result<Vec<Vec<u8>>, AllocError> {
    (0..many)
        .map(|i| vec![in heap; i; 1 + usize::from(i) * 63 / usize::from(many)])
        .try_collect(heap)
}

// Full houses of few and of many paths, for so many rounds each.
fn press(heap: Global, rounds: u64) -> Result<Counts, AllocError> {
    let mut all = Counts::default();
    for many in [1, 2, 5, 12, 30, 60] {
        let mut trial = Trial::new(heap, PAGES, u64::from(many), paths(heap, many)?)?;
        for _ in 0..rounds {
            trial.round()?;
        }
        all += trial.counts();
    }
    Ok(all)
}

// Short runs at full houses, with a stop at every act.
fn stumble(heap: Global, trials: u64, rounds: u64) -> Result<Counts, AllocError> {
    let mut all = Counts::default();
    for i in 0..trials {
        let mut trial = Trial::new(heap, PAGES, i.saturating_add(1_000), paths(heap, 6)?)?;
        trial.round()?;
        trial.watch()?;
        for _ in 0..rounds {
            trial.round()?;
        }
        all += trial.counts();
    }
    Ok(all)
}

// Small houses that are filled with commits, of few paths and of more.
fn note(heap: Global) -> Result<Counts, AllocError> {
    let mut all = Counts::default();
    for pages in [64u64, 96, 128, 192, 256] {
        for many in [1, 2, 5, 12] {
            let seed = pages.saturating_add(u64::from(many));
            let mut trial = Trial::new(heap, pages, seed, paths(heap, many)?)?;
            trial.note_all()?;
            all += trial.counts();
        }
    }
    Ok(all)
}

// Says how long something took.
fn print_time(rt: &HostRuntime, start: Instant) -> std::io::Result<()> {
    let time = start.elapsed(rt)?.as_millis();
    eprintln!(rt; "{time} milliseconds")
}

fn run(rt: &HostRuntime) -> anyhow::Result<()> {
    let start = Instant::now(rt)?;
    let Counts {
        commands,
        commits,
        wrong,
        ..
    } = morning::work(rt.alloc())?;
    println!(rt; "a morning: {commands} commands, {commits} commits, {wrong} wrong")?;
    print_time(rt, start)?;
    let start = Instant::now(rt)?;
    let Counts {
        commands,
        writes,
        no_room,
        sweeps,
        wrong,
        ..
    } = press(rt.alloc(), 200)?;
    println!(rt;
        "full houses: {commands} commands, {writes} writes, {no_room} had no room, {sweeps} sweeps, {wrong} wrong"
    )?;
    print_time(rt, start)?;
    let start = Instant::now(rt)?;
    let Counts {
        writes,
        commits,
        too_many,
        sweeps,
        wrong,
        ..
    } = many::crowd(rt.alloc())?;
    println!(rt;
        "many files: {writes} writes, {too_many} were too many, {commits} commits, {sweeps} sweeps, {wrong} wrong"
    )?;
    print_time(rt, start)?;
    let start = Instant::now(rt)?;
    let Counts {
        commands,
        no_room,
        sweeps,
        stops,
        old,
        new,
        same,
        again,
        wrong,
        ..
    } = stumble(rt.alloc(), 12, 4)?;
    println!(rt;
        "stops: {commands} commands, {no_room} had no room, {sweeps} sweeps: {stops} stops, {old} came up as before, {new} as after, {same} where nothing was to change, {again} were said again, {wrong} wrong"
    )?;
    print_time(rt, start)?;
    let start = Instant::now(rt)?;
    let Counts {
        commands,
        commits,
        nothing_new,
        no_room,
        last_bytes,
        sweeps,
        wrong,
        ..
    } = note(rt.alloc())?;
    println!(rt;
        "full logs: {commands} commands, {commits} commits, {last_bytes} filled a house to its last byte, {nothing_new} had nothing new, {no_room} commands had no room, {sweeps} sweeps, {wrong} wrong"
    )?;
    print_time(rt, start)?;
    let start = Instant::now(rt)?;
    let Counts {
        commands,
        commits,
        sweeps,
        stops,
        old,
        new,
        same,
        again,
        wrong,
        ..
    } = day::live(rt.alloc(), 13)?;
    println!(rt;
        "stopped days: {commands} commands, {commits} commits, {sweeps} sweeps: {stops} stops, {old} came up as before, {new} as after, {same} where nothing was to change, {again} days went on, {wrong} wrong"
    )?;
    print_time(rt, start)?;
    Ok(())
}

fn main(rt: HostRuntime) -> anyhow::Result<()> {
    run(&rt)
}
