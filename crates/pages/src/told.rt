// What the machine is told, and what it tells to do.

// What comes to the machine; a command, a page or a letter is lent.
#[derive(Clone, Copy, Debug, PartialEq, Eq)]
pub enum Event<'a> {
    // Power is there: the house's number, how many houses there are, how many pages it has.
    On { house: u64, houses: u64, pages: u64 },
    // A command.
    Said(&'a [u8]),
    // The page that was asked for.
    Page(&'a [u8]),
    // The last act is done.
    Next,
    // Another house's letter.
    Heard(&'a [u8]),
    // There is no line to the other house any more.
    Lost,
}

// One act. A page, a row or a letter lies at the front of the lent row of bytes.
#[derive(Clone, Copy, Debug, PartialEq, Eq)]
pub enum Told {
    Read(u64),
    Write(u64),
    Flush,
    // A row of so many bytes.
    Shows(u64),
    // 4,097 times the house and so many bytes.
    // As it stands: one number, since that is how the promise's definition of an act is told.
    Send(u64),
    Done,
    // As it stands: a number, since an act is defined with one; 0 is told where memory or the row does not fit.
    No(u64),
}
