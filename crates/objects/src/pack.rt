// Packing: objects follow each other unit by unit, and are laid in whole pages. What is more than whole pages waits for the next object.
ghost use Rattle.std.specs.Prelude.{◌≡◌, ◌+◌, ◌≤◌, length, take, drop};
ghost use Rattle.pages.specs.Words.{over};
ghost use Rattle.objects.specs.Packing.{filled, packed, pages_packed};

use crate::plan;

// Copies words to another place; the two may overlap.
pub fn copy_words(memory: &mut [u64], from: usize, to: usize, many: usize)
    requires { (from + many ≤ length memory.old) × (to + many ≤ length memory.old) }
    ensures { memory.new ≡ over to (take many (drop from memory.old)) memory.old }
{
    memory.copy_within(from..from + many, to);
}

// Gathers the words that wait and the first words of the buffer; says how many whole pages there are to lay, and keeps back what is more.
pub fn pack(memory: &mut [u64], waiting: u64, words: u64) -> u64
    ensures pages { result ≡ pages_packed waiting words memory.old }
    ensures memory { memory.new ≡ packed waiting words memory.old }
{
    if memory.len() < plan::END {
        return 0;
    }
    let waiting = waiting.min(63) as usize;
    let words = words.min(41_024) as usize;
    copy_words(memory, 0, waiting, words);
    copy_words(memory, plan::REST, 0, waiting);
    let pages = (waiting + words) / 64;
    copy_words(memory, 64 * pages, plan::REST, 64);
    pages as u64
}

// The words that wait, filled up to a page, are in front of the buffer.
pub fn fill(memory: &mut [u64], waiting: u64)
    ensures { memory.new ≡ filled waiting memory.old }
{
    if memory.len() < plan::END {
        return;
    }
    let waiting = waiting.min(63) as usize;
    copy_words(memory, plan::REST, 0, waiting);
    memory[waiting..64].fill(0);
}
