// A bitmap over a lent row of words: a bit for each unit, 64 to a word, the lowest first.
ghost use Rattle.std.specs.Prelude.{◌≡◌, ◌+◌, ◌-◌, ◌*◌, ◌/◌, ◌%◌, ◌^◌, min, length, bit_and, slice_index};
ghost use Rattle.std.specs.Int.{trailing_zeros, w64};
ghost use Rattle.pages.specs.Lists.{zeros};
ghost use Rattle.store.specs.Bitmap.{bit, with_bit, with_run, highest, lowest, named, FirstFilled, LastFilled};

// Clears every bit.
pub fn clear(map: &mut [u64])
    ensures { map.new ≡ zeros (length map.old) }
{
    map.fill(0);
}

// Whether a bit is set; past the end none is.
pub fn test(map: &[u64], unit: u64) -> bool
    ensures { result ≡ bit map.now unit }
{
    map.get((unit / 64) as usize)
        .is_some_and(|word| (word >> (unit % 64)) % 2 == 1)
}

// Sets a bit; past the end nothing is set.
pub fn set(map: &mut [u64], unit: u64)
    ensures { map.new ≡ with_bit map.old unit }
{
    let word = (unit / 64) as usize;
    // As it stands: of a slice after `get_mut` the library says nothing, so the word is written by its index.
    if word < map.len() {
        map[word] |= 1 << (unit % 64);
    }
}

// Sets so many bits from one on.
pub fn set_run(map: &mut [u64], from: u64, many: u64)
    ensures { map.new ≡ with_run (min (from + many) 18446744073709551615 - from) from map.old }
{
    for unit in from..from.saturating_add(many) {
        set(map, unit);
    }
}

// The highest bit that is set below a unit.
pub fn highest_below(map: &[u64], unit: u64) -> Option<u64>
    ensures { result ≡ highest (bit map.now) unit }
{
    let low = low_bits(map, unit);
    if low > 0 {
        return Some(64 * (unit / 64) + u64::from(low.ilog2()));
    }
    let words = &map[..((unit / 64) as usize).min(map.len())];
    let at = last_filled(words)?;
    Some(64 * at as u64 + u64::from(words[at].ilog2()))
}

// The lowest bit that is set from a unit on.
pub fn lowest_from(map: &[u64], unit: u64) -> Option<u64>
    ensures { result ≡ lowest (bit map.now) (min (64 * length map.now) 18446744073709551615 - unit) unit }
{
    let high = high_bits(map, unit);
    if high > 0 {
        return lowest_in(unit / 64, high);
    }
    let words = &map[((unit / 64) as usize + 1).min(map.len())..];
    let at = first_filled(words)?;
    lowest_in(unit / 64 + 1 + at as u64, words[at])
}

// The bits of a unit's word that are below it.
fn low_bits(map: &[u64], unit: u64) -> u64
    ensures { result ≡ slice_index map.now (unit / 64) % 2 ^ (unit % 64) }
{
    map.get((unit / 64) as usize)
        .map_or(0, |bits| bits % (1 << (unit % 64)))
}

// The bits of a unit's word from it on.
fn high_bits(map: &[u64], unit: u64) -> u64
    ensures { result ≡ bit_and (slice_index map.now (unit / 64)) (2 ^ 64 - 2 ^ (unit % 64)) }
{
    map.get((unit / 64) as usize)
        .map_or(0, |bits| bits & (u64::MAX << (unit % 64)))
}

// The lowest bit of a word of the map. The highest number is the end of all maps, and names no unit.
fn lowest_in(at: u64, bits: u64) -> Option<u64>
    ensures { result ≡ named (64 * at + trailing_zeros w64 bits) }
{
    let unit = at
        .saturating_mul(64)
        .saturating_add(u64::from(bits.trailing_zeros()));
    (unit < u64::MAX).then_some(unit)
}

// The last word that has bits.
fn last_filled(words: &[u64]) -> Option<usize>
    ensures { LastFilled words.now result }
{
    words.iter().rposition(|word| *word > 0)
}

// The first word that has bits.
fn first_filled(words: &[u64]) -> Option<usize>
    ensures { FirstFilled words.now result }
{
    words.iter().position(|word| *word > 0)
}
