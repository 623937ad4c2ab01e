// The sheets: 4,000 of 600 bytes each, a hundred in each of 40 groups. `bench/day.sh` writes the same ones.

pub const SHEETS: u16 = 4000;

// The last four digits of a number.
fn digits(n: u16) -> [u8; 4] {
    [n / 1000, n / 100, n / 10, n].map(|n| b'0' + (n % 10) as u8)
}

// The path of a sheet, of 40 bytes.
pub fn path(i: u16) -> [u8; 40] {
    let mut bytes = *b"group-00/sheet-0000-kept-in-the-house.md";
    bytes[6..8].copy_from_slice(&digits(i / 100)[2..]);
    bytes[15..19].copy_from_slice(&digits(i));
    bytes
}

// An edition of a sheet, of 600 bytes: the same line 25 times.
pub fn sheet(i: u16, edition: u16) -> [[u8; 24]; 25] {
    let mut line = *b"sheet 0000 edition 0000\n";
    line[6..10].copy_from_slice(&digits(i));
    line[19..23].copy_from_slice(&digits(edition));
    [line; 25]
}

// The numbers of the sheets out of order.
pub fn scattered(i: u16) -> u16 {
    (u32::from(i) * 1237 % u32::from(SHEETS)) as u16
}
