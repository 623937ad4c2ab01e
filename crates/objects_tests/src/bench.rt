// A store of 4,000 files and 300 commits, each with a tree of its own in which one file differs: what a survey and a sweep take.
use crate::rig::{Command, Uses};
use crate::trial::{Counts, Trial};
use std::alloc::{AllocError, Global};
use std::time::Instant;

// How big the store is.
#[derive(Clone, Copy)]
pub struct Scale {
    pub files: u64,
    pub commits: u64,
    pub pages: u64,
}

// A file of 600 bytes: its sum in four words, and 75 words.
fn add_file(trial: &mut Trial) -> Result<u64, AllocError> {
    let number = trial.model.start(1, 0, 81, 664)?;
    for _ in 0..79 {
        let word = trial.number();
        trial.model.push(word)?;
    }
    Ok(number)
}

// A tree: files 1 to so many, but for one of them another; then what it weighs.
fn add_tree(trial: &mut Trial, files: u64, changed: u64, file: u64) -> Result<u64, AllocError> {
    let tree = trial
        .model
        .start(2, files, files.saturating_add(3), files.saturating_mul(8))?;
    for i in 0..files {
        let named = if i == changed {
            file
        } else {
            i.saturating_add(1)
        };
        trial.model.push(named)?;
    }
    trial.model.push(files.saturating_mul(664))?;
    Ok(tree)
}

// A commit: its tree and its parent; an id, a stamp, a weight, and 80 bytes.
fn add_commit(trial: &mut Trial, tree: u64, parent: u64) -> Result<u64, AllocError> {
    let commit = trial.model.start(3, 3, 21, 336)?;
    trial.model.push(tree)?;
    trial.model.push(parent)?;
    trial.model.push(0)?;
    for _ in 0..16 {
        let word = trial.number();
        trial.model.push(word)?;
    }
    Ok(commit)
}

// Builds the store, and lays and publishes it: the last commit.
fn build(trial: &mut Trial, scale: Scale) -> Result<u64, AllocError> {
    for _ in 0..scale.files {
        add_file(trial)?;
    }
    let mut commit = 0;
    for i in 0..scale.commits {
        let file = add_file(trial)?;
        let tree = add_tree(trial, scale.files, i, file)?;
        commit = add_commit(trial, tree, commit)?;
    }
    let last = trial.lay(1)?;
    trial.publish(last, [commit, 0, 0, 0, 0, 0, 0, 0])?;
    Ok(commit)
}

// Runs a command; says how often it used the device, and how long it took.
fn time(rt: &HostRuntime, trial: &mut Trial, what: &str, command: Command) -> anyhow::Result<()> {
    trial.rig.uses = Uses::default();
    let start = Instant::now(rt)?;
    trial.run(command)?;
    let time = start.elapsed(rt)?.as_micros();
    let Uses {
        reads,
        writes,
        flushes,
    } = trial.rig.uses;
    println!(rt; "a {what}: {reads} pages read, {writes} pages written, {flushes} flushes")?;
    eprintln!(rt; "a {what}: {time} microseconds")?;
    Ok(())
}

// Surveys and sweeps the store: how much of it was wrong.
pub fn measure(rt: &HostRuntime, heap: Global, scale: Scale) -> anyhow::Result<u64> {
    let mut trial = Trial::new(heap, scale.pages, 1, Counts::default())?;
    let commit = build(&mut trial, scale)?;
    let survey = trial.survey_for(commit, 3);
    time(rt, &mut trial, "survey", survey)?;
    trial.check_shown(commit, 3);
    time(rt, &mut trial, "sweep", Command::Sweep)?;
    trial.check_swept();
    Ok(trial.counts.wrong)
}
