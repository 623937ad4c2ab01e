// How much is kept at most, and how many pages one copy of it may take.
ghost use Rattle.std.specs.Prelude.{◌≡◌, min};
ghost use Rattle.objects.specs.Room.{LayoutsBuilt, quarter as quarter_of, reserve as reserve_of, RingHasRoom, TakesLittle};

// A quarter of what so many pages hold, in bytes. No device has more than 2^32 pages.
pub fn quarter(pages: u64) -> u64
    ensures { result ≡ quarter_of (min pages 4294967296) }
{
    128 * pages.min(4_294_967_296)
}

// The pages that one copy of all that is kept may take.
pub fn reserve(pages: u64) -> u64
    ensures { result ≡ reserve_of (min pages 4294967296) }
{
    let weight = quarter(pages);
    (weight + weight / 8 + 1024 + 511) / 512
}

// The bytes of what is live are at most its weight, an eighth of that, and 1,024.
pub fn takes_little()
    ensures { TakesLittle }
{}

// The ring has room for three copies of all that is kept.
pub fn ring_has_room()
    ensures { RingHasRoom }
{}

// Files, commits and names take as many words as that asks for.
pub fn layouts_are_built()
    ensures { LayoutsBuilt }
{}
