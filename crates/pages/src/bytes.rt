ghost use Rattle.std.specs.Prelude.{◌≡◌, take};
ghost use Rattle.pages.specs.Bytes.{eight, from_bytes};

// The number that the first eight bytes spell, the highest first; of a shorter row, the number that all its bytes spell.
pub fn number(bytes: &[u8]) -> u64
    ensures { result ≡ from_bytes 0 (take 8 bytes.now) }
{
    let front = &bytes[0..bytes.len().min(8)];
    let mut n = 0;
    for byte in front {
        n = 256 * n + u64::from(*byte);
    }
    n
}

// A number as eight bytes, the highest first.
pub fn in_eight(n: u64) -> [u8; 8]
    ensures { result ≡ eight n }
{
    n.to_be_bytes()
}
