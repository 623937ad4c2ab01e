// Bytes in hexadecimal.
ghost use Rattle.std.specs.Prelude.{◌≡◌, ◌/◌, ◌%◌, ◌<◌, [], ◌∷◌, ◌++◌, IfSome, IfOk, OnOk, OnErr, Some, None, MatchOption, string_bytes};
ghost use Rattle.lines.specs.Hex.{Begun, ReadBack, byte_read, bytes_read, digit, digit_read, digits};

use std::alloc::{AllocError, Global};

// The digit of a number below 16.
fn digit_of(n: u8) -> char
    requires { n < 16 }
    ensures is { result ≡ digit n }
    ensures ascii { result < 128 }
{
    char::from(if n < 10 { b'0' + n } else { b'a' + (n - 10) })
}

/// The number that a digit stands for, in small letters or large ones.
pub fn value_of(letter: u8) -> Option<u8>
    ensures is { result ≡ digit_read letter }
    ensures small { IfSome result (λ n. n < 16) }
{
    match letter {
        b'0'..=b'9' => Some(letter - b'0'),
        b'a'..=b'f' => Some(letter - b'a' + 10),
        b'A'..=b'F' => Some(letter - b'A' + 10),
        _ => None,
    }
}

/// The byte that two digits stand for.
pub fn byte_of(high: u8, low: u8) -> Option<u8>
    ensures { result ≡ byte_read high low }
{
    Some(16 * value_of(high)? + value_of(low)?)
}

/// Puts the bytes behind a text, in hexadecimal. After an error the first few of the digits may stand there.
pub fn put(text: &mut String, bytes: &[u8]) -> Result<(), AllocError>
    ensures ok { OnOk result (string_bytes text.new ≡ string_bytes text.old ++ digits bytes.now) }
    ensures err { OnErr result (Begun (string_bytes text.old) bytes.now (string_bytes text.new)) }
{
    for byte in bytes {
        text.push(digit_of(*byte / 16))?;
        text.push(digit_of(*byte % 16))?;
    }
    Ok(())
}

/// The bytes in hexadecimal, and a line's end.
pub fn line_of(heap: Global, bytes: &[u8]) -> Result<String, AllocError>
    ensures { IfOk result (λ line. string_bytes line ≡ digits bytes.now ++ 10 ∷ []) }
{
    let mut line = String::new(heap);
    put(&mut line, bytes)?;
    line.push('\n')?;
    Ok(line)
}

/// The bytes that the digits stand for, or none where they are no pairs of digits.
pub fn bytes_of(heap: Global, text: &[u8]) -> Result<Option<Vec<u8>>, AllocError>
    ensures { IfOk result (λ o. MatchOption o (bytes_read text.now ≡ None) (λ v. bytes_read text.now ≡ Some v.items)) }
{
    let (pairs, odd) = text.as_chunks::<2>();
    let mut bytes = Vec::new(heap);
    for [high, low] in pairs {
        let Some(byte) = byte_of(*high, *low) else {
            return Ok(None);
        };
        bytes.push(byte)?;
    }
    Ok(odd.is_empty().then_some(bytes))
}

/// Bytes in hexadecimal are read back as they were.
pub fn read_back()
    ensures { ReadBack }
{}
