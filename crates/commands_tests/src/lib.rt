// Tests of `commands`, in a crate of their own since a crate with tests is proved twice.
#![tactic(auto)]

#[cfg(test)]
mod tests {
    use commands::{Command, parse, spell};
    use pages::bytes::in_eight;

    fn is_spelled(command: Command, spelling: &[u8]) -> bool {
        let mut row = [7u8; 256];
        spell(command, &mut row).is_some_and(|size| size < row.len()
            && &row[0..size] == spelling
            && row[size] == 7)
    }

    // Whether the command is spelled just so, and so is what the spelling is parsed as: no two commands are spelled alike.
    fn survives(command: Command, spelling: &[u8]) -> bool {
        parse(spelling).is_some_and(|again| is_spelled(command, spelling)
            && is_spelled(again, spelling))
    }

    fn refused(text: &[u8]) -> bool {
        parse(text).is_none()
    }

    #[test]
    fn each_command_survives(rt: HostRuntime) {
        let table: [(Command, &[u8]); 19] = [
            (
                Command::WriteFile(b"a", b"bc"),
                b"\x01\0\0\0\0\0\0\0\x01a\0\0\0\0\0\0\0\x02bc",
            ),
            (Command::DropFile(b"a"), b"\x02\0\0\0\0\0\0\0\x01a"),
            (
                Command::Commit(258, b"w"),
                b"\x03\0\0\0\0\0\0\x01\x02\0\0\0\0\0\0\0\x01w",
            ),
            (Command::Branch(b"b"), b"\x04\0\0\0\0\0\0\0\x01b"),
            (Command::GoTo(b"b"), b"\x05\0\0\0\0\0\0\0\x01b"),
            (Command::History, b"\x06"),
            (
                Command::ShowFile(b"b", b"a"),
                b"\x07\0\0\0\0\0\0\0\x01b\0\0\0\0\0\0\0\x01a",
            ),
            (Command::Status, b"\x08"),
            (Command::ReadFile(b"a"), b"\x09\0\0\0\0\0\0\0\x01a"),
            (Command::Join(b"b"), b"\x0a\0\0\0\0\0\0\0\x01b"),
            (Command::Settle(b"a"), b"\x0b\0\0\0\0\0\0\0\x01a"),
            (Command::Leave, b"\x0c"),
            (Command::MoveOnto(b"b"), b"\x0d\0\0\0\0\0\0\0\x01b"),
            (Command::Carry(b"i"), b"\x0e\0\0\0\0\0\0\0\x01i"),
            (Command::Forget(b"b"), b"\x0f\0\0\0\0\0\0\0\x01b"),
            (Command::Tag(b"t"), b"\x10\0\0\0\0\0\0\0\x01t"),
            (Command::Who(b"a"), b"\x11\0\0\0\0\0\0\0\x01a"),
            (Command::Sweep, b"\x12"),
            (Command::Fetch(15), b"\x13\0\0\0\0\0\0\0\x0f"),
        ];
        for (command, spelling) in table {
            assert!(rt; survives(command, spelling));
        }
    }

    #[test]
    fn other_bytes_are_refused(rt: HostRuntime) {
        let table: [&[u8]; 9] = [
            b"",
            b"\0",
            b"\x14",
            b"\x06\0",
            b"\x02\0\0\0\0\0\0\0\0",
            b"\x02\0\0\0\0\0\0\0\x01",
            b"\x02\0\0\0\0\0\0\0\x01ab",
            b"\x02\xff\xff\xff\xff\xff\xff\xff\xffa",
            b"\x13\0\0\0\0\0\0\0\x10",
        ];
        for text in table {
            assert!(rt; refused(text));
        }
    }

    // Whether a text with this kind, and a row of so many bytes behind `at`, is parsed; none if the text is too short.
    fn is_read(text: &mut [u8], kind: u8, at: usize, count: usize) -> Option<bool> {
        if at < 1 || at > 16 || count > 65536 || text.len() < at + 8 + count {
            return None;
        }
        text[0] = kind;
        text[at..at + 8].copy_from_slice(&in_eight(count as u64));
        Some(parse(&text[0..at + 8 + count]).is_some())
    }

    fn row_is_read(kind: u8, count: usize) -> Option<bool> {
        let mut text = [b'n'; 128];
        is_read(&mut text, kind, 1, count)
    }

    #[test]
    fn names_have_64_bytes_and_refs_65(rt: HostRuntime) {
        for kind in [2, 4, 5, 9, 11, 14, 15, 16, 17] {
            assert!(rt; row_is_read(kind, 64) == Some(true));
            assert!(rt; row_is_read(kind, 65) == Some(false));
        }
        for kind in [10, 13] {
            assert!(rt; row_is_read(kind, 65) == Some(true));
            assert!(rt; row_is_read(kind, 66) == Some(false));
        }
    }

    #[test]
    fn texts_have_65535_bytes(rt: HostRuntime) {
        let mut text = [0u8; 65553];
        assert!(rt; is_read(&mut text, 3, 9, 65535) == Some(true));
        assert!(rt; is_read(&mut text, 3, 9, 65536) == Some(false));
    }

    // Whether the command is not spelled into a row of 73 bytes, which stays as it was.
    fn is_not_spelled(command: Command) -> bool {
        let mut row = [7u8; 73];
        spell(command, &mut row).is_none() && row == [7u8; 73]
    }

    #[test]
    fn what_does_not_fit_is_not_spelled(rt: HostRuntime) {
        let name = [b'n'; 65];
        assert!(rt; is_not_spelled(Command::Tag(&name)));
        assert!(rt; !is_not_spelled(Command::Tag(&name[0..64])));
        // it fits, and takes 74 bytes
        assert!(rt; is_not_spelled(Command::Join(&name)));
        assert!(rt; !is_not_spelled(Command::Join(&name[0..64])));
        assert!(rt; is_not_spelled(Command::Fetch(16)));
        assert!(rt; !is_not_spelled(Command::Fetch(15)));
    }
}
