// The first word of an object on the tape: its kind, how many references it has, and how many words.
ghost use Rattle.std.specs.Prelude.{◌≡◌};
ghost use Rattle.pages.specs.Object.{heading as heading_of, kind_in, references_in, size_in};

// As it stands: a number for the kind, since which kinds there are is for those who lay objects to say.
pub fn heading(kind: u16, references: u16, size: u32) -> u64
    ensures { result ≡ heading_of kind references size }
{
    u64::from(size) + 4_294_967_296 * u64::from(references) + 281_474_976_710_656 * u64::from(kind)
}

// How many words an object has.
pub fn size_in(word: u64) -> u64
    ensures { result ≡ size_in word }
{
    word % 4_294_967_296
}

// How many references it has.
pub fn references_in(word: u64) -> u64
    ensures { result ≡ references_in word }
{
    word / 4_294_967_296 % 65_536
}

pub fn kind_in(word: u64) -> u64
    ensures { result ≡ kind_in word }
{
    word / 281_474_976_710_656
}
