//! Words and numbers of a line.

ghost use Rattle.std.specs.Prelude.{◌<◌, length};

/// What stands before the first such byte, and what stands after it. All and nothing where there is none.
pub fn cut_at(bytes: &[u8], byte: u8) -> (&[u8], &[u8])
    ensures { 0 < length bytes.now → length result.1.now < length bytes.now }
{
    match bytes.iter().position(|b| *b == byte) {
        Some(place) => (&bytes[..place], &bytes[place + 1..]),
        None => (bytes, &bytes[..0]),
    }
}

/// The number that the bytes spell in decimal.
pub fn number(bytes: &[u8]) -> Option<u64> {
    let mut value: u64 = 0;
    for byte in bytes {
        let digit = byte.checked_sub(b'0')?;
        value = value.checked_mul(10)?.checked_add(u64::from(digit))?;
    }
    Some(value)
}
