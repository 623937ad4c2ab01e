// Plays days at houses that run, beside plain houses, and says whether they agree. docs/PLAYER.md has the forms.
#![tactic(auto)]

mod bench;
mod day;
mod driver;
mod engine;
mod random;
mod text;

use anyhow::anyhow;
use bench::{Bench, Counts, Trouble};
use commands::{Refusal, parse};
use day::{Day, Item, What};
use plain::houses::{Form, Plain, Shown};
use plain::weight;
use random::Dice;
use std::alloc::AllocError;
use std::{env, fmt, fs, io};
use text::{Hex, Spaced};

fn print_counts(rt: &HostRuntime, counts: &Counts) -> io::Result<()> {
    let days = counts.days;
    let commands = counts.commands;
    let powers = counts.powers;
    let stops = counts.stops;
    let sweeps = counts.sweeps;
    let disagreed = counts.disagreed;
    println!(rt;
        "days {days}, commands {commands}, powers {powers}, stops {stops}, sweeps {sweeps}"
    )?;
    let done = counts.done;
    print!(rt; "done {done}, refused")?;
    for (number, n) in (1..11).zip(counts.refused.iter()) {
        print!(rt; " {number}:{n}")?;
    }
    println!(rt; "")?;
    println!(rt; "{disagreed} days disagreed")
}

// A row of what a command shows.
#[derive(Clone, Copy)]
struct Row<'a> {
    form: Form,
    bytes: &'a [u8],
}

impl fmt::Display for Row<'_> {
    fn fmt<W: fmt::Write>(&self, f: &mut fmt::Formatter<W>) -> fmt::Result {
        match self.form {
            Form::Rows => write!(f, "{}", Spaced(self.bytes)),
            Form::Ids => write!(f, "{}", Hex(self.bytes)),
            Form::Lines => {
                let (id, words) = self.bytes.split_at(self.bytes.len().min(32));
                write!(f, "{} {}", Hex(id), Spaced(words))
            }
            Form::Marks => match self.bytes.split_first() {
                Some((mark, path)) => write!(f, "{mark} {}", Spaced(path)),
                None => Ok(()),
            },
        }
    }
}

fn print_shown(rt: &HostRuntime, shown: &Shown) -> io::Result<()> {
    for row in shown.rows.iter() {
        let row = Row {
            form: shown.form,
            bytes: row.as_slice(),
        };
        println!(rt; "    {row}")?;
    }
    Ok(())
}

fn read_day(rt: &HostRuntime, file: &str) -> anyhow::Result<Day> {
    let text = fs::read_to_string(rt, file)?;
    let day = Day::read(rt.alloc(), text.as_str())?;
    if day.bad_lines > 0 || !day.setting.is_fit() {
        return Err(anyhow!(
            "a line that is none of a day, more than 16 houses, or fewer than 64 pages or too many"
        ));
    }
    Ok(day)
}

// What a text comes to at a plain house.
fn plain_turn(
    plain: &mut Plain,
    house: usize,
    text: &[u8],
) -> Result<Result<Shown, Refusal>, AllocError> {
    match parse(text) {
        Some(command) => plain.turn(house, command),
        None => Ok(Err(Refusal::NoCommand)),
    }
}

fn print_kept(rt: &HostRuntime, plain: &Plain) -> anyhow::Result<()> {
    for (c, x) in plain.houses.iter().enumerate() {
        let amount = weight::of_house(&plain.book, x)?;
        println!(rt; "house {c} keeps {amount}")?;
    }
    Ok(())
}

// A day at the plain houses alone, which know every command: what each shows, and what there is to keep at the end.
fn play_plain(rt: &HostRuntime, file: &str) -> anyhow::Result<()> {
    let day = read_day(rt, file)?;
    let mut plain = Plain::new(rt.alloc(), day.setting.houses)?;
    for item in day.items.iter() {
        if let What::Said(text, _) = &item.what {
            println!(rt; "{item}")?;
            match plain_turn(&mut plain, item.house, text.as_slice())? {
                Ok(shown) => print_shown(rt, &shown)?,
                Err(refusal) => println!(rt; "    {refusal}")?,
            }
        }
    }
    print_kept(rt, &plain)
}

// Whether an item was played and the houses agree; where they do not, that is printed.
fn agree(
    rt: &HostRuntime,
    whose: &str,
    i: usize,
    item: &Item,
    played: Result<(), Trouble>,
) -> anyhow::Result<bool> {
    match played {
        Ok(()) => Ok(true),
        Err(Trouble::Memory(error)) => Err(anyhow::Error::from(error)),
        Err(Trouble::Differs(text)) => {
            println!(rt; "{whose}, item {i}, {item}: {text}")?;
            Ok(false)
        }
    }
}

// Plays the items of a day; whether the houses agree.
fn play_items<F: FnMut(&mut Bench, &Item) -> Result<(), Trouble>>(
    rt: &HostRuntime,
    bench: &mut Bench,
    file: &str,
    day: &Day,
    mut play: F,
) -> anyhow::Result<bool>
    requires { F.IsAlwaysCallable play }
{
    for (i, item) in day.items.iter().enumerate() {
        if !bench.is_proper(item) {
            println!(rt;
                "{file}, item {i}, {item}: power comes where there is none, and a command is said where there is"
            )?;
            return Ok(false);
        }
        if !agree(rt, file, i, item, play(bench, item))? {
            return Ok(false);
        }
    }
    Ok(true)
}

// A day, of which each item is played so.
fn play_day<F: FnMut(&mut Bench, &Item) -> Result<(), Trouble>>(
    rt: &HostRuntime,
    file: &str,
    play: F,
) -> anyhow::Result<Counts>
    requires { F.IsAlwaysCallable play }
{
    let day = read_day(rt, file)?;
    let mut bench = Bench::new(rt.alloc(), &day.setting)?;
    let agree = play_items(rt, &mut bench, file, &day, play)?;
    Ok(bench.counted(agree))
}

// The random day of a seed; each item is shown before it is played.
fn play_random<F: FnMut(&Item) -> io::Result<()>>(
    rt: &HostRuntime,
    seed: u64,
    mut show: F,
) -> anyhow::Result<Counts>
    requires { F.IsAlwaysCallable show }
{
    let mut dice = Dice::new(rt.alloc(), seed);
    let setting = dice.setting()?;
    let mut bench = Bench::new(rt.alloc(), &setting)?;
    let whose = format!(in rt.alloc(); "seed {seed}")?;
    let mut agrees = true;
    for i in 0..dice.below(80).saturating_add(20) as usize {
        let house = dice.house(setting.houses);
        let stop = dice.stop()?;
        let what = if bench.is_up(house) {
            dice.said(&bench.plain, bench.room(house)?)?
        } else {
            What::Power
        };
        let item = Item { house, what, stop };
        show(&item)?;
        if agrees {
            let played = bench.play(&item);
            agrees = agree(rt, whose.as_str(), i, &item, played)?;
        }
    }
    Ok(bench.counted(agrees))
}

fn play_many(rt: &HostRuntime, seed: u64, days: u64) -> anyhow::Result<Counts> {
    let mut all = Counts::default();
    for i in 0..days {
        if i % 100 == 99 {
            eprintln!(rt; "day {i} of {days}")?;
        }
        all += play_random(rt, seed.wrapping_add(i), |_| Ok(()))?;
    }
    Ok(all)
}

// A random day that is played and written out.
fn print_random(rt: &HostRuntime, seed: u64) -> anyhow::Result<Counts> {
    let setting = Dice::new(rt.alloc(), seed).setting()?;
    print!(rt; "{setting}")?;
    play_random(rt, seed, |item| println!(rt; "{item}"))
}

// What is asked for.
#[derive(Clone, Copy)]
enum Task<'a> {
    Plain(&'a str),
    Day(&'a str),
    Stops(&'a str),
    Random { seed: u64, days: u64 },
    Text { seed: u64 },
}

fn number(text: &str) -> anyhow::Result<u64> {
    text::number_of(text).ok_or(anyhow!("no number"))
}

// A word, or none behind the last one.
fn word_at(words: &[String], at: usize) -> &str {
    match words.get(at) {
        Some(word) => word.as_str(),
        None => "",
    }
}

impl<'a> Task<'a> {
    // The task at the front, and the words behind it.
    fn first(words: &'a [String]) -> anyhow::Result<(Task<'a>, &'a [String])> {
        let first = word_at(words, 1);
        let (task, size) = match word_at(words, 0) {
            "plain" => (Task::Plain(first), 2),
            "day" => (Task::Day(first), 2),
            "stops" => (Task::Stops(first), 2),
            "random" => {
                let seed = number(first)?;
                let days = number(word_at(words, 2))?;
                (Task::Random { seed, days }, 3)
            }
            "text" => {
                let seed = number(first)?;
                (Task::Text { seed }, 2)
            }
            _ => return Err(anyhow!(
                "plain FILE, day FILE, stops FILE, random SEED DAYS or text SEED"
            )),
        };
        Ok((task, words.get(size..).unwrap_or(&[])))
    }

    fn run(self, rt: &HostRuntime) -> anyhow::Result<Counts> {
        match self {
            Task::Plain(file) => {
                play_plain(rt, file)?;
                Ok(Counts::default())
            }
            Task::Day(file) => play_day(rt, file, |bench, item| bench.play(item)),
            Task::Stops(file) => play_day(rt, file, |bench, item| bench.play_with_stops(item)),
            Task::Random { seed, days } => play_many(rt, seed, days),
            Task::Text { seed } => print_random(rt, seed),
        }
    }
}

// All that is asked for, one after the other.
fn run_tasks(rt: &HostRuntime, words: &[String]) -> anyhow::Result<Counts> {
    let mut all = Counts::default();
    let mut rest = words;
    for _ in 0..words.len() {
        if rest.is_empty() {
            break;
        }
        let (task, behind) = Task::first(rest)?;
        all += task.run(rt)?;
        rest = behind;
    }
    Ok(all)
}

fn run(rt: &HostRuntime) -> anyhow::Result<()> {
    let mut words = Vec::new(rt.alloc());
    for word in env::args(rt)?.skip(1) {
        words.push(word)?;
    }
    let all = run_tasks(rt, words.as_slice())?;
    if all.days > 0 {
        print_counts(rt, &all)?;
    }
    if all.disagreed > 0 {
        return Err(anyhow!("they disagree"));
    }
    Ok(())
}

fn main(rt: HostRuntime) -> anyhow::Result<()> {
    run(&rt)
}
