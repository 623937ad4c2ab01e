// The house's own sum, SHA-256: of bytes at once, or of bytes that come in pieces of any length.
ghost use Rattle.std.specs.Prelude.{◌≡◌, ℕ, ◌+◌, ◌≤◌, List, [], ◌++◌, length};
ghost use Rattle.store.specs.Sha256.{sha256, digest};
ghost use Rattle.store.specs.Rows.{over};
ghost use Rattle.store.specs.Running.{fresh, progress, added, finished, Fed};

use crate::words::{Words, compress, compress_all};

// A sum that is still open: the hash value so far, the bytes of a block that is not yet whole, and the number of bytes,
// which wraps at 2 to the 64, as the length in the padding does at 2 to the 61.
// As it stands: a house keeps no heap, so a block that fills up is an array; its length is that of all bytes, modulo 64.
#[derive(Clone, Copy)]
pub struct Hasher {
    state: Words,
    buffer: [u8; 64],
    count: u64,
}

// Writes the bytes into the row from a place on.
fn write_at(row: &mut [u8], at: usize, bytes: &[u8])
    requires { at + length bytes.now ≤ length row.old }
    ensures { row.new ≡ over row.old at bytes.now }
{
    row[at..at + bytes.len()].copy_from_slice(bytes);
}

// A hash value as 32 bytes.
fn digest(s: Words) -> [u8; 32]
    ensures { result ≡ digest s }
{
    let words = s.words().map(u32::to_be_bytes);
    let mut out = [0; 32];
    out.copy_from_slice(words.as_flattened());
    out
}

impl Hasher {
    // The sum of no bytes yet.
    pub fn new() -> Hasher
        ensures value { progress result ≡ fresh }
        ensures fed { Fed result [] }
    {
        Hasher {
            state: Words {
                a: 0x6a09_e667,
                b: 0xbb67_ae85,
                c: 0x3c6e_f372,
                d: 0xa54f_f53a,
                e: 0x510e_527f,
                f: 0x9b05_688c,
                g: 0x1f83_d9ab,
                h: 0x5be0_cd19,
            },
            buffer: [0; 64],
            count: 0,
        }
    }

    // The bytes come after all that were added before.
    pub fn add(&mut self, bytes: &[u8])
        ensures after { progress self.new ≡ added (progress self.old) bytes.now }
        ensures fed { (m : List ℕ) → Fed self.old m → Fed self.new (m ++ bytes.now) }
    {
        let have = (self.count % 64) as usize;
        let room = 64 - have;
        if bytes.len() < room {
            write_at(&mut self.buffer, have, bytes);
        } else {
            let (filling, rest) = bytes.split_at(room);
            write_at(&mut self.buffer, have, filling);
            let (blocks, left) = rest.as_chunks();
            self.state = compress_all(compress(self.state, &self.buffer), blocks);
            write_at(&mut self.buffer, 0, left);
        }
        self.count = self.count.wrapping_add(bytes.len() as u64);
    }

    // The sum of all that was added.
    pub fn finish(self) -> [u8; 32]
        ensures after { result ≡ finished (progress self) }
        ensures fed { (m : List ℕ) → Fed self m → result ≡ sha256 m }
    {
        let have = (self.count % 64) as usize;
        // one block, or two where the bit 1 and the length do not fit into the first
        let end = (have + 72) / 64 * 64;
        let mut last = [0u8; 128];
        write_at(&mut last, 0, &self.buffer[0..have]);
        last[have] = 0x80;
        write_at(
            &mut last,
            end - 8,
            &self.count.wrapping_mul(8).to_be_bytes(),
        );
        let (blocks, _) = last[..end].as_chunks();
        digest(compress_all(self.state, blocks))
    }
}

// The sum of the bytes.
pub fn sum(bytes: &[u8]) -> [u8; 32]
    ensures { result ≡ sha256 bytes.now }
{
    let mut hasher = Hasher::new();
    hasher.add(bytes);
    hasher.finish()
}
