//! Blocks of 64 bytes.
ghost use Rattle.std.specs.Prelude.{◌≡◌, drop};
ghost use Rattle.octets.specs.Laying.{filled};

use crate::laying::lay;

/// The first 64 bytes, filled up with zeros where there are fewer.
fn filled_block(bytes: &[u8]) -> [u8; 64]
    ensures { result ≡ filled 64 bytes.now }
{
    // a copy of a length that is known beforehand takes a few instructions and no call
    if let Some(whole) = bytes.first_chunk::<64>() {
        return *whole;
    }
    let mut block = [0; 64];
    lay(&mut block, 0, bytes);
    block
}

/// The 64 bytes from the place `at` on. Bytes past the end are zero.
pub fn block_at(bytes: &[u8], at: usize) -> [u8; 64]
    ensures { result ≡ filled 64 (drop at bytes.now) }
{
    filled_block(bytes.get(at..).unwrap_or(&[]))
}
