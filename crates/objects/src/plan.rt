// Where things stand in a house's memory, in words from its front: the buffer, the rest, the head, the map, its counts.
pub const REST: usize = 41_088;

pub const HEAD: usize = 41_152;

pub const MAP: usize = 41_184;

pub const MAP_UNITS: u64 = 8_388_608;

pub const COUNTS: usize = 172_256;

pub const COUNTS_WORDS: usize = 16_384;

pub const END: usize = 188_640;
