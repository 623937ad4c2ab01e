// How many bits of the map are set below a unit: a count beside the map for each eight words of it.
ghost use Rattle.std.specs.Prelude.{◌≡◌, ◌%◌, ◌^◌, ◌<◌, ◌≤◌, length, sum_by, count_ones};
ghost use Rattle.objects.specs.Ranks.{ranked, tallied};

use crate::plan::{COUNTS, COUNTS_WORDS, END, MAP, MAP_UNITS};

// Counts the set bits before each eight words of the map, beside it; a memory that is too short stays as it is.
pub fn tally(memory: &mut [u64])
    ensures { memory.new ≡ tallied memory.old }
{
    if memory.len() >= END {
        let mut sum = 0;
        // As it stands: the counts are written by their number, since std says nothing of a row after an adapter of its `iter_mut`.
        for block in 0..COUNTS_WORDS {
            let at = MAP + 8 * block;
            memory[COUNTS + block] = sum;
            sum += ones_in(&memory[at..at + 8]);
        }
    }
}

// How many bits are set below a unit, by the counts; past the map's end all are.
pub fn rank(memory: &[u64], unit: u64) -> u64
    ensures { result ≡ ranked memory.now unit }
{
    if memory.len() < END {
        return 0;
    }
    let unit = unit.min(MAP_UNITS);
    let word = (unit / 64) as usize;
    let block = (unit / 512).min(COUNTS_WORDS as u64 - 1) as usize;
    let whole = ones_in(&memory[MAP + 8 * block..MAP + word]);
    memory[COUNTS + block].wrapping_add(whole + ones_below(memory[MAP + word], unit % 64))
}

// The set bits of up to eight words.
fn ones_in(words: &[u64]) -> u64
    requires { length words.now ≤ 8 }
    ensures value { result ≡ sum_by count_ones words.now }
    ensures bound { result ≤ 512 }
{
    words.iter().map(|word| ones_of(*word)).sum()
}

// The set bits of a word below a place.
fn ones_below(word: u64, place: u64) -> u64
    requires { place < 64 }
    ensures value { result ≡ count_ones (word % 2 ^ place) }
    ensures bound { result ≤ 64 }
{
    ones_of(word % (1 << place))
}

// The set bits of a word.
fn ones_of(word: u64) -> u64
    ensures value { result ≡ count_ones word }
    ensures bound { result ≤ 64 }
{
    u64::from(word.count_ones())
}
