// Words of eight bytes, the highest first, out of a page and back.
ghost use Rattle.std.specs.Prelude.{◌≡◌, ◌*◌, ◌≤◌, ◌++◌, length, take, drop};
ghost use Rattle.pages.specs.Bytes.{from_bytes};
ghost use Rattle.pages.specs.Machine.{head_page};
ghost use Rattle.pages.specs.Words.{bytes_of, page_words, words};

use crate::bytes::{in_eight, number};

// The word that the eight bytes at a place spell; of fewer, what these spell, and 0 of none.
fn word_at(bytes: &[u8], i: usize) -> u64
    ensures { result ≡ from_bytes 0 (take 8 (drop (8 * i) bytes.now)) }
{
    number(bytes.get(i.saturating_mul(8)..).unwrap_or(&[]))
}

// So many words, from the front of a row of bytes.
pub fn words_in<const N: usize>(bytes: &[u8]) -> [u64; N]
    ensures { result ≡ words N bytes.now }
{
    std::array::from_fn(|i| word_at(bytes, i))
}

// The words of a page; of what is no page, words that are 0.
pub fn page_words(page: &[u8]) -> [u64; 64]
    ensures { result ≡ page_words page.now }
{
    if page.len() != 512 {
        return [0; 64];
    }
    words_in(page)
}

// The bytes of words, at the front of a row that has room for them.
pub(crate) fn put_words(words: &[u64], out: &mut [u8])
    requires { 8 * length words.now ≤ length out.old }
    ensures { out.new ≡ bytes_of words.now ++ drop (8 * length words.now) out.old }
{
    // As it stands: by index, since std says nothing of what a slice holds after `chunks_exact_mut`.
    for (i, word) in words.iter().enumerate() {
        out[8 * i..8 * i + 8].copy_from_slice(&in_eight(*word));
    }
}

// The first bytes of words, at the front of a row that has room for them.
pub fn put_bytes(words: &[u64], bytes: usize, out: &mut [u8])
    requires { (bytes ≤ 8 * length words.now) × (bytes ≤ length out.old) }
    ensures { out.new ≡ take bytes (bytes_of words.now) ++ drop bytes out.old }
{
    let whole = bytes / 8;
    put_words(&words[0..whole], out);
    if whole * 8 < bytes {
        let rest = bytes % 8;
        out[whole * 8..bytes].copy_from_slice(&in_eight(words[whole])[0..rest]);
    }
}

// The page of a head: its words, and zeros behind them.
pub(crate) fn put_head(words: &[u64], out: &mut [u8])
    requires { (length words.now ≡ 32) × (512 ≤ length out.old) }
    ensures { out.new ≡ head_page words.now ++ drop 512 out.old }
{
    put_words(words, out);
    out[256..512].fill(0);
}

// The bytes of a page's words.
pub fn page_bytes(words: &[u64; 64]) -> [u8; 512]
    ensures { result ≡ bytes_of words.now }
{
    let mut page = [0; 512];
    put_words(words, &mut page);
    page
}
