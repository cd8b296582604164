//! Decimal numbers: one or more digits and nothing else, with any number of leading zeros.
ghost use Rattle.std.specs.Prelude.{◌≡◌, ℕ, ◌+◌, ◌-◌, ◌*◌, ◌≤◌, ◌&&◌, take, drop, IfSome, if◌then◌else◌, Some, None, decimal, nat_le};
ghost use Rattle.notation.specs.Decimal.{is_digit, number_in, number_as};

/// The most digits that a 64-bit number has.
pub const MOST_DIGITS: usize = 20;

/// The number that these bytes spell, if it is at most `most`.
pub fn read(digits: &[u8], most: u64) -> Option<u64>
    ensures value { result ≡ number_in most digits.now }
    ensures bound { IfSome result (λ n. n ≤ most) }
{
    if digits.is_empty() {
        return None;
    }
    digits
        .iter()
        .try_fold(0, |number, digit| append(number, *digit, most))
}

/// The number with one digit more at its end, if the byte is a digit and the number is at most `most`.
fn append(number: u64, digit: u8, most: u64) -> Option<u64>
    ensures { result ≡ (if is_digit digit && nat_le (number * 10 + (digit - 48)) most then Some (number * 10 + (digit - 48)) else None) }
{
    if !digit.is_ascii_digit() {
        return None;
    }
    let longer = number
        .checked_mul(10)?
        .checked_add(u64::from(digit - b'0'))?;
    (longer <= most).then_some(longer)
}

/// An unsigned type, of whose numbers decimal digits may be read.
pub trait Unsigned: Sized {
    /// The greatest number of the type.
    const MOST: u64;

    ghost MOST: { ℕ };

    // what a number is in the type, if it is not over the greatest
    ghost in_type: { ℕ → Self };

    /// This number in the type.
    fn narrow(number: u64) -> Self
        requires { number ≤ MOST }
        ensures { result ≡ in_type number };
}

impl Unsigned for u16 {
    const MOST: u64 = u16::MAX as u64;

    ghost MOST = { 65535 };

    ghost in_type = { λ number. number };

    fn narrow(number: u64) -> u16 {
        number as u16
    }
}

impl Unsigned for u32 {
    const MOST: u64 = u32::MAX as u64;

    ghost MOST = { 4294967295 };

    ghost in_type = { λ number. number };

    fn narrow(number: u64) -> u32 {
        number as u32
    }
}

/// The number that these bytes spell, if it is one of the type.
pub fn read_as<N: Unsigned>(digits: &[u8]) -> Option<N>
    ensures { result ≡ number_as N.in_type N.MOST digits.now }
{
    let number = read(digits, N::MOST)?;
    Some(N::narrow(number))
}

/// Writes the number, without leading zeros, to the end of `out`, and says where it begins there. What stands before it
/// stays.
pub fn write(number: u64, out: &mut [u8; MOST_DIGITS]) -> usize
    ensures digits { drop result out.new ≡ decimal number }
    ensures before { take result out.new ≡ take result out.old }
    ensures bound { result ≤ 20 }
{
    itoa::write_digits(number, out, MOST_DIGITS)
}

#[cfg(test)]
mod tests {
    use super::*;

    #[test]
    fn reads(rt: HostRuntime) {
        let cases: [(&[u8], Option<u64>); 12] = [
            (b"0", Some(0)),
            (b"000000000000000000000007", Some(7)),
            (b"18446744073709551615", Some(u64::MAX)),
            (b"18446744073709551616", None),
            (b"99999999999999999999", None),
            (b"", None),
            (b"+1", None),
            (b" 1", None),
            (b"1\n", None),
            (b"1/", None),
            (b":1", None),
            (b"1\xb2", None),
        ];
        for (digits, number) in cases {
            assert_eq!(rt; read(digits, u64::MAX), number);
        }
    }

    #[test]
    fn reads_in_bounds(rt: HostRuntime) {
        assert_eq!(rt; read(b"0010", 10), Some(10));
        assert_eq!(rt; read(b"11", 10), None);
        assert_eq!(rt; read_as(b"65535"), Some(65535u16));
        assert_eq!(rt; read_as::<u16>(b"65536"), None);
        assert_eq!(rt; read_as(b"4294967295"), Some(4294967295u32));
        assert_eq!(rt; read_as::<u32>(b"4294967296"), None);
    }

    #[test]
    fn writes(rt: HostRuntime) {
        let cases: [(u64, &[u8]); 5] = [
            (0, b"0"),
            (9, b"9"),
            (10, b"10"),
            (70605, b"70605"),
            (u64::MAX, b"18446744073709551615"),
        ];
        for (number, digits) in cases {
            let mut out = [0; 20];
            let start = write(number, &mut out);
            assert_eq!(rt; &out[start..], digits);
        }
    }
}
