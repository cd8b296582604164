//! Hexadecimal bytes: two digits to a byte, the high one first, letters of either case.
ghost use Rattle.std.specs.Prelude.{◌≡◌, ◌*◌, ◌<◌, true, length, is_ok, is_some};
ghost use Rattle.std.specs.Option.{unwrap_or};
ghost use Rattle.notation.specs.Hex.{bytes_in, is_hex, hex_value, all_hex, spelled_bytes};

/// The bytes are not two hexadecimal digits for each byte that is wanted.
#[derive(Clone, Copy, Debug, PartialEq, Eq)]
pub struct NotHex;

/// Whether all bytes are hexadecimal digits. Every byte is looked at: to stop at the first that is none would take a branch at each
/// digit, and in a key no branch can be guessed.
fn all_digits(bytes: &[u8]) -> bool
    ensures { result ≡ all_hex bytes.now }
{
    bytes
        .iter()
        .fold(true, |all, byte| all & byte.is_ascii_hexdigit())
}

/// The value of a digit.
fn value(digit: u8) -> u8
    requires { is_hex digit ≡ true }
    ensures value { result ≡ hex_value digit }
    ensures small { result < 16 }
{
    match digit {
        b'0'..=b'9' => digit - b'0',
        b'A'..=b'F' => digit - b'A' + 10,
        _ => digit - b'a' + 10,
    }
}

/// Lays the bytes that the digits spell into `out`, which has a byte for each two of them.
fn fill(digits: &[u8], out: &mut [u8])
    requires digits { all_hex digits.now ≡ true }
    requires lengths { length digits.now ≡ 2 * length out.old }
    ensures { out.new ≡ spelled_bytes (length out.old) digits.now }
{
    let (pairs, _) = digits.as_chunks::<2>();
    for (i, [high, low]) in pairs.iter().enumerate() {
        out[i] = 16 * value(*high) + value(*low);
    }
}

/// Lays the bytes that the digits spell into `out`, if they spell as many bytes as `out` has. Where they do not, `out` stays
/// as it was.
pub fn decode(digits: &[u8], out: &mut [u8]) -> Result<(), NotHex>
    ensures answer { is_ok result ≡ is_some (bytes_in (length out.old) digits.now) }
    ensures bytes { out.new ≡ unwrap_or (bytes_in (length out.old) digits.now) out.old }
{
    if digits.len() != 2 * out.len() || !all_digits(digits) {
        return Err(NotHex);
    }
    fill(digits, out);
    Ok(())
}

/// The bytes that the digits spell, if they spell as many as are wanted.
pub fn decode_array<const N: usize>(digits: &[u8]) -> Option<[u8; N]>
    ensures { result ≡ bytes_in N digits.now }
{
    let mut bytes = [0; N];
    decode(digits, &mut bytes).ok()?;
    Some(bytes)
}

#[cfg(test)]
mod tests {
    use super::*;

    #[test]
    fn decodes(rt: HostRuntime) {
        let cases: [(&[u8], Result<(), NotHex>, [u8; 2]); 9] = [
            (b"00ff", Ok(()), [0x00, 0xff]),
            (b"09aF", Ok(()), [0x09, 0xaf]),
            (b"Ba10", Ok(()), [0xba, 0x10]),
            (b"123", Err(NotHex), [7, 7]),
            (b"12345", Err(NotHex), [7, 7]),
            (b"", Err(NotHex), [7, 7]),
            (b"123g", Err(NotHex), [7, 7]),
            (b"12:4", Err(NotHex), [7, 7]),
            (b"12\xb14", Err(NotHex), [7, 7]),
        ];
        for (digits, answer, bytes) in cases {
            let mut out = [7; 2];
            assert_eq!(rt; decode(digits, &mut out), answer);
            assert_eq!(rt; out, bytes);
            assert_eq!(rt; decode_array::<2>(digits), answer.ok().map(|()| bytes));
        }
    }
}
