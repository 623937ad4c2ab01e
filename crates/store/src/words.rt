// The words of the sum: SHA-256's functions, schedule and rounds, as the standard has them.
ghost use Rattle.std.specs.Prelude.{◌≡◌, ◌+◌, ◌/◌, ◌<◌, ◌≤◌, length, take, drop, fold, slice_index};
ghost use Rattle.std.specs.List.{zip};
ghost use Rattle.store.specs.Mixing.{GoesOn};
ghost use Rattle.store.specs.Sha256.{Ch, Maj, Σ₀, Σ₁, σ₀, σ₁, K, plus, round, word, words_of, extension, schedule, compressed};

// The eight words of a hash value, and the eight working variables.
#[derive(Clone, Copy)]
pub struct Words {
    pub a: u32,
    pub b: u32,
    pub c: u32,
    pub d: u32,
    pub e: u32,
    pub f: u32,
    pub g: u32,
    pub h: u32,
}

impl Words {
    pub(crate) fn words(self) -> [u32; 8]
        ensures { result ≡ words_of self }
    {
        [
            self.a, self.b, self.c, self.d, self.e, self.f, self.g, self.h,
        ]
    }

    // The sums of the words, each modulo 2 to the 32.
    fn plus(self, other: Words) -> Words
        ensures { result ≡ plus self other }
    {
        Words {
            a: self.a.wrapping_add(other.a),
            b: self.b.wrapping_add(other.b),
            c: self.c.wrapping_add(other.c),
            d: self.d.wrapping_add(other.d),
            e: self.e.wrapping_add(other.e),
            f: self.f.wrapping_add(other.f),
            g: self.g.wrapping_add(other.g),
            h: self.h.wrapping_add(other.h),
        }
    }
}

const CONSTANTS: [u32; 64] = [
    0x428a_2f98,
    0x7137_4491,
    0xb5c0_fbcf,
    0xe9b5_dba5,
    0x3956_c25b,
    0x59f1_11f1,
    0x923f_82a4,
    0xab1c_5ed5,
    0xd807_aa98,
    0x1283_5b01,
    0x2431_85be,
    0x550c_7dc3,
    0x72be_5d74,
    0x80de_b1fe,
    0x9bdc_06a7,
    0xc19b_f174,
    0xe49b_69c1,
    0xefbe_4786,
    0x0fc1_9dc6,
    0x240c_a1cc,
    0x2de9_2c6f,
    0x4a74_84aa,
    0x5cb0_a9dc,
    0x76f9_88da,
    0x983e_5152,
    0xa831_c66d,
    0xb003_27c8,
    0xbf59_7fc7,
    0xc6e0_0bf3,
    0xd5a7_9147,
    0x06ca_6351,
    0x1429_2967,
    0x27b7_0a85,
    0x2e1b_2138,
    0x4d2c_6dfc,
    0x5338_0d13,
    0x650a_7354,
    0x766a_0abb,
    0x81c2_c92e,
    0x9272_2c85,
    0xa2bf_e8a1,
    0xa81a_664b,
    0xc24b_8b70,
    0xc76c_51a3,
    0xd192_e819,
    0xd699_0624,
    0xf40e_3585,
    0x106a_a070,
    0x19a4_c116,
    0x1e37_6c08,
    0x2748_774c,
    0x34b0_bcb5,
    0x391c_0cb3,
    0x4ed8_aa4a,
    0x5b9c_ca4f,
    0x682e_6ff3,
    0x748f_82ee,
    0x78a5_636f,
    0x84c8_7814,
    0x8cc7_0208,
    0x90be_fffa,
    0xa450_6ceb,
    0xbef9_a3f7,
    0xc671_78f2,
];

fn ch(x: u32, y: u32, z: u32) -> u32
    ensures { result ≡ Ch x y z }
{
    (x & y) ^ (!x & z)
}

fn maj(x: u32, y: u32, z: u32) -> u32
    ensures { result ≡ Maj x y z }
{
    (x & y) ^ (x & z) ^ (y & z)
}

fn big_sigma0(x: u32) -> u32
    ensures { result ≡ Σ₀ x }
{
    x.rotate_right(2) ^ x.rotate_right(13) ^ x.rotate_right(22)
}

fn big_sigma1(x: u32) -> u32
    ensures { result ≡ Σ₁ x }
{
    x.rotate_right(6) ^ x.rotate_right(11) ^ x.rotate_right(25)
}

fn small_sigma0(x: u32) -> u32
    ensures { result ≡ σ₀ x }
{
    x.rotate_right(7) ^ x.rotate_right(18) ^ (x >> 3)
}

fn small_sigma1(x: u32) -> u32
    ensures { result ≡ σ₁ x }
{
    x.rotate_right(17) ^ x.rotate_right(19) ^ (x >> 10)
}

fn constant(t: usize) -> u32
    requires { t < 64 }
    ensures { result ≡ slice_index K t }
{
    CONSTANTS[t]
}

// One round, with its constant and its word of the schedule.
fn round(s: Words, k: u32, w: u32) -> Words
    ensures { result ≡ round k w s }
{
    let t1 = s
        .h
        .wrapping_add(big_sigma1(s.e))
        .wrapping_add(ch(s.e, s.f, s.g))
        .wrapping_add(k)
        .wrapping_add(w);
    let t2 = big_sigma0(s.a).wrapping_add(maj(s.a, s.b, s.c));
    Words {
        a: t1.wrapping_add(t2),
        b: s.a,
        c: s.b,
        d: s.c,
        e: s.d.wrapping_add(t1),
        f: s.e,
        g: s.f,
        h: s.g,
    }
}

// Word t of a block, the highest byte first.
fn word(block: &[u8; 64], t: usize) -> u32
    requires { t < 16 }
    ensures { result ≡ word block.now t }
{
    u32::from_be_bytes([
        block[4 * t],
        block[4 * t + 1],
        block[4 * t + 2],
        block[4 * t + 3],
    ])
}

// The first sixteen words of a block's message schedule; the others are not made yet.
fn load(block: &[u8; 64]) -> [u32; 64]
    ensures { take 16 result ≡ schedule 16 block.now }
{
    let mut w = [0u32; 64];
    // As it stands: with `array::from_fn` the goal that word t stands at t was not proved, since `word` asks for t below 16.
    for t in 0..16 {
        w[t] = word(block, t);
    }
    w
}

// Word t of the schedule, from the words before it.
fn extension(w: &[u32; 64], t: usize) -> u32
    requires { (16 ≤ t) × (t < 64) }
    ensures { result ≡ extension w.now t }
{
    small_sigma1(w[t - 2])
        .wrapping_add(w[t - 7])
        .wrapping_add(small_sigma0(w[t - 15]))
        .wrapping_add(w[t - 16])
}

// Eight rounds from round t on, each with a word more of the schedule: the two do not wait for each other.
fn eight_rounds(s: Words, w: &mut [u32; 64], t: usize) -> Words
    requires { t + 8 ≤ 48 }
    ensures { GoesOn 8 t s w.old result w.new }
{
    let mut v = s;
    // As it stands: the schedule is read at one place and written at another, which an iterator over it forbids.
    for i in 0..8 {
        w[t + i + 16] = extension(w, t + i + 16);
        v = round(v, constant(t + i), w[t + i]);
    }
    v
}

// The last sixteen rounds, with the whole schedule.
fn last_rounds(v: Words, w: &[u32; 64]) -> Words
    ensures { result ≡ fold (λ v p. round p.0 p.1 v) v (zip (drop 48 K) (drop 48 w.now)) }
{
    CONSTANTS[48..]
        .iter()
        .zip(&w[48..])
        .fold(v, |v, (k, w)| round(v, *k, *w))
}

// The next hash value, from the one before and a block.
pub(crate) fn compress(s: Words, block: &[u8; 64]) -> Words
    ensures { result ≡ compressed s block.now }
{
    let mut w = load(block);
    let mut v = s;
    for t in (0..48).step_by(8) {
        v = eight_rounds(v, &mut w, t);
    }
    s.plus(last_rounds(v, &w))
}

// The hash value after blocks.
pub(crate) fn compress_all(s: Words, blocks: &[[u8; 64]]) -> Words
    ensures { result ≡ fold compressed s blocks.now }
{
    blocks.iter().fold(s, |v, block| compress(v, block))
}
